//! The exceptions of the library.

ghost use Rattle.std.specs.Prelude.{◌≡◌};
ghost use Rattle.smlc_base.specs.Exceptions.{exn_text};

use smlc_base::LibraryExn;

/// The exceptions, by number.
pub const EXCEPTIONS: [LibraryExn; 11] = [
    LibraryExn::MatchExn,
    LibraryExn::BindExn,
    LibraryExn::DivExn,
    LibraryExn::OverflowExn,
    LibraryExn::ChrExn,
    LibraryExn::SubscriptExn,
    LibraryExn::SizeExn,
    LibraryExn::EmptyExn,
    LibraryExn::OptionExn,
    LibraryExn::DomainExn,
    LibraryExn::FailExn,
];

/// How an exception is spelled.
pub fn spelling(exn: LibraryExn) -> &'static [u8]
    ensures { result.now ≡ exn_text exn }
{
    match exn {
        LibraryExn::MatchExn => b"Match",
        LibraryExn::BindExn => b"Bind",
        LibraryExn::DivExn => b"Div",
        LibraryExn::OverflowExn => b"Overflow",
        LibraryExn::ChrExn => b"Chr",
        LibraryExn::SubscriptExn => b"Subscript",
        LibraryExn::SizeExn => b"Size",
        LibraryExn::EmptyExn => b"Empty",
        LibraryExn::OptionExn => b"Option",
        LibraryExn::DomainExn => b"Domain",
        LibraryExn::FailExn => b"Fail",
    }
}

/// What stands in front of the name of an uncaught exception.
pub const FRONT: &[u8] = b"uncaught exception ";

/// What stands behind it.
pub const BACK: &[u8] = b"\n";
