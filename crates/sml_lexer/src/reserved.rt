//! The reserved words.

ghost use Rattle.std.specs.Prelude.{◌≡◌};
ghost use Rattle.sml_lexer.specs.Reserved.{spelling, first_spelled, reserved_of};

/// A reserved word of the Core or of the Modules.
#[derive(Clone, Copy)]
pub enum Reserved {
    KwAbstype,
    KwAnd,
    KwAndalso,
    KwAs,
    KwCase,
    KwDatatype,
    KwDo,
    KwElse,
    KwEnd,
    KwException,
    KwFn,
    KwFun,
    KwHandle,
    KwIf,
    KwIn,
    KwInfix,
    KwInfixr,
    KwLet,
    KwLocal,
    KwNonfix,
    KwOf,
    KwOp,
    KwOpen,
    KwOrelse,
    KwRaise,
    KwRec,
    KwThen,
    KwType,
    KwVal,
    KwWith,
    KwWithtype,
    KwWhile,
    KwEqtype,
    KwFunctor,
    KwInclude,
    KwSharing,
    KwSig,
    KwSignature,
    KwStruct,
    KwStructure,
    KwWhere,
    /// `(`
    KwOpenParen,
    /// `)`
    KwCloseParen,
    /// `[`
    KwOpenBracket,
    /// `]`
    KwCloseBracket,
    /// `{`
    KwOpenBrace,
    /// `}`
    KwCloseBrace,
    /// `,`
    KwComma,
    /// `:`
    KwColon,
    /// `;`
    KwSemicolon,
    /// `...`
    KwDots,
    /// `_`
    KwUnderscore,
    /// `|`
    KwBar,
    /// `=`
    KwEquals,
    /// `=>`
    KwDoubleArrow,
    /// `->`
    KwArrow,
    /// `#`
    KwHash,
    /// `:>`
    KwSeal,
}

/// All reserved words.
const ALL: [Reserved; 58] = [
    Reserved::KwAbstype,
    Reserved::KwAnd,
    Reserved::KwAndalso,
    Reserved::KwAs,
    Reserved::KwCase,
    Reserved::KwDatatype,
    Reserved::KwDo,
    Reserved::KwElse,
    Reserved::KwEnd,
    Reserved::KwException,
    Reserved::KwFn,
    Reserved::KwFun,
    Reserved::KwHandle,
    Reserved::KwIf,
    Reserved::KwIn,
    Reserved::KwInfix,
    Reserved::KwInfixr,
    Reserved::KwLet,
    Reserved::KwLocal,
    Reserved::KwNonfix,
    Reserved::KwOf,
    Reserved::KwOp,
    Reserved::KwOpen,
    Reserved::KwOrelse,
    Reserved::KwRaise,
    Reserved::KwRec,
    Reserved::KwThen,
    Reserved::KwType,
    Reserved::KwVal,
    Reserved::KwWith,
    Reserved::KwWithtype,
    Reserved::KwWhile,
    Reserved::KwEqtype,
    Reserved::KwFunctor,
    Reserved::KwInclude,
    Reserved::KwSharing,
    Reserved::KwSig,
    Reserved::KwSignature,
    Reserved::KwStruct,
    Reserved::KwStructure,
    Reserved::KwWhere,
    Reserved::KwOpenParen,
    Reserved::KwCloseParen,
    Reserved::KwOpenBracket,
    Reserved::KwCloseBracket,
    Reserved::KwOpenBrace,
    Reserved::KwCloseBrace,
    Reserved::KwComma,
    Reserved::KwColon,
    Reserved::KwSemicolon,
    Reserved::KwDots,
    Reserved::KwUnderscore,
    Reserved::KwBar,
    Reserved::KwEquals,
    Reserved::KwDoubleArrow,
    Reserved::KwArrow,
    Reserved::KwHash,
    Reserved::KwSeal,
];

impl Reserved {
    /// How it is spelled.
    pub fn spelling(&self) -> &'static [u8]
        ensures { result.now ≡ spelling self.now }
    {
        match self {
            Reserved::KwAbstype => b"abstype",
            Reserved::KwAnd => b"and",
            Reserved::KwAndalso => b"andalso",
            Reserved::KwAs => b"as",
            Reserved::KwCase => b"case",
            Reserved::KwDatatype => b"datatype",
            Reserved::KwDo => b"do",
            Reserved::KwElse => b"else",
            Reserved::KwEnd => b"end",
            Reserved::KwException => b"exception",
            Reserved::KwFn => b"fn",
            Reserved::KwFun => b"fun",
            Reserved::KwHandle => b"handle",
            Reserved::KwIf => b"if",
            Reserved::KwIn => b"in",
            Reserved::KwInfix => b"infix",
            Reserved::KwInfixr => b"infixr",
            Reserved::KwLet => b"let",
            Reserved::KwLocal => b"local",
            Reserved::KwNonfix => b"nonfix",
            Reserved::KwOf => b"of",
            Reserved::KwOp => b"op",
            Reserved::KwOpen => b"open",
            Reserved::KwOrelse => b"orelse",
            Reserved::KwRaise => b"raise",
            Reserved::KwRec => b"rec",
            Reserved::KwThen => b"then",
            Reserved::KwType => b"type",
            Reserved::KwVal => b"val",
            Reserved::KwWith => b"with",
            Reserved::KwWithtype => b"withtype",
            Reserved::KwWhile => b"while",
            Reserved::KwEqtype => b"eqtype",
            Reserved::KwFunctor => b"functor",
            Reserved::KwInclude => b"include",
            Reserved::KwSharing => b"sharing",
            Reserved::KwSig => b"sig",
            Reserved::KwSignature => b"signature",
            Reserved::KwStruct => b"struct",
            Reserved::KwStructure => b"structure",
            Reserved::KwWhere => b"where",
            Reserved::KwOpenParen => b"(",
            Reserved::KwCloseParen => b")",
            Reserved::KwOpenBracket => b"[",
            Reserved::KwCloseBracket => b"]",
            Reserved::KwOpenBrace => b"{",
            Reserved::KwCloseBrace => b"}",
            Reserved::KwComma => b",",
            Reserved::KwColon => b":",
            Reserved::KwSemicolon => b";",
            Reserved::KwDots => b"...",
            Reserved::KwUnderscore => b"_",
            Reserved::KwBar => b"|",
            Reserved::KwEquals => b"=",
            Reserved::KwDoubleArrow => b"=>",
            Reserved::KwArrow => b"->",
            Reserved::KwHash => b"#",
            Reserved::KwSeal => b":>",
        }
    }
}

/// The first of the words with this spelling, if there is one.
fn first_spelled(words: &[Reserved], text: &[u8]) -> Option<Reserved>
    ensures { result ≡ first_spelled words.now text.now }
{
    for word in words {
        if word.spelling() == text {
            return Some(*word);
        }
    }
    None
}

/// The reserved word with this spelling, if there is one.
#[tactic(auto, unfolding(crate::specs::Reserved::reserved_of))]
pub fn reserved_of(text: &[u8]) -> Option<Reserved>
    ensures { result ≡ reserved_of text.now }
{
    first_spelled(&ALL, text)
}
