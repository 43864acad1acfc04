//! The primitives of the library.

/// A primitive. Its type and meaning are those of the Standard ML Basis for integers of 63 bits.
#[derive(Clone, Copy, PartialEq, Eq, PartialOrd, Ord, Debug)]
pub enum Primitive {
    /// `+`
    Plus,
    /// `-`
    Minus,
    /// `*`
    Times,
    /// `div`
    Quotient,
    /// `mod`
    Modulo,
    /// `~`
    Negate,
    /// `abs`
    Abs,
    /// `<`
    Less,
    /// `>`
    Greater,
    /// `<=`
    AtMost,
    /// `>=`
    AtLeast,
    /// `=`
    Equal,
    /// `<>`
    Unequal,
    /// `!`
    Deref,
    /// `:=`
    Assign,
    /// `ord`
    Ord,
    /// `chr`
    Chr,
    /// `^`
    Concat,
    /// `size`
    Size,
    /// `str`
    Str,
    /// `implode`
    Implode,
    /// `String.sub`
    Sub,
    /// `substring`
    Substring,
    /// `String.compare`
    Compare,
    /// `print`
    Print,
    /// `TextIO.inputLine`
    InputLine,
    /// `TextIO.stdIn`
    StdIn,
}
