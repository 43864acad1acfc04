//! The exceptions of the library.

/// An exception that exists from the start (The Definition of Standard ML, appendix C, and the Standard ML Basis).
#[derive(Clone, Copy, PartialEq, Eq, Debug)]
pub enum LibraryExn {
    MatchExn,
    BindExn,
    DivExn,
    OverflowExn,
    ChrExn,
    SubscriptExn,
    SizeExn,
    EmptyExn,
    OptionExn,
    DomainExn,
    /// `Fail of string`, the one with an argument.
    FailExn,
}
