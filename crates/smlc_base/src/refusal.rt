//! Why a program is refused, and where.

ghost use Rattle.std.specs.Prelude.{◌≡◌};
ghost use Rattle.smlc_base.specs.Refusals.{number_of, place_of, kind_of, word_of};

use crate::memory::NoMemory;
use crate::place::Place;
use std::alloc::{AllocError, AllocFailed};
use std::fmt;
use thiserror::Error;

/// A form of Standard ML that is outside the language, or isn't built yet.
#[derive(Clone, Copy, PartialEq, Eq, Debug)]
pub enum Banned {
    /// A form that isn't built yet.
    Later,
    Abstype,
    Eqtype,
    Functor,
    Include,
    Open,
    Sharing,
    Sig,
    Signature,
    Struct,
    Structure,
    Where,
    Withtype,
    /// `:>`
    Seal,
    /// `...`
    Dots,
    /// `#`
    Hash,
    /// Replication of a datatype.
    Datatype,
    /// A real constant.
    Real,
    /// A word constant.
    Word,
}

impl Banned {
    /// The word that is printed for it.
    pub fn word(&self) -> &'static str
        ensures { result.now ≡ word_of self.now }
    {
        match self {
            Banned::Later => "later",
            Banned::Abstype => "abstype",
            Banned::Eqtype => "eqtype",
            Banned::Functor => "functor",
            Banned::Include => "include",
            Banned::Open => "open",
            Banned::Sharing => "sharing",
            Banned::Sig => "sig",
            Banned::Signature => "signature",
            Banned::Struct => "struct",
            Banned::Structure => "structure",
            Banned::Where => "where",
            Banned::Withtype => "withtype",
            Banned::Seal => ":>",
            Banned::Dots => "...",
            Banned::Hash => "#",
            Banned::Datatype => "datatype",
            Banned::Real => "real",
            Banned::Word => "word",
        }
    }
}

/// Why a program is refused, with the place.
#[derive(Clone, Copy, PartialEq, Eq)]
pub enum Refusal {
    BadToken(Place),
    Unclosed(Place),
    LiteralRange(Place),
    Syntax(Place),
    MixedFixity(Place),
    NotInSubset(Place, Banned),
    TooLong(Place),
    TooDeep(Place),
    TooWide(Place),
    Unbound(Place),
    BadBinding(Place),
    BadType(Place),
    UndecidedRow(Place),
}

impl Refusal {
    /// The number of its kind, 1 to 13.
    pub fn number(&self) -> u32
        ensures { result ≡ number_of self.now }
    {
        match self {
            Refusal::BadToken(_) => 1,
            Refusal::Unclosed(_) => 2,
            Refusal::LiteralRange(_) => 3,
            Refusal::Syntax(_) => 4,
            Refusal::MixedFixity(_) => 5,
            Refusal::NotInSubset(_, _) => 6,
            Refusal::TooLong(_) => 7,
            Refusal::TooDeep(_) => 8,
            Refusal::TooWide(_) => 9,
            Refusal::Unbound(_) => 10,
            Refusal::BadBinding(_) => 11,
            Refusal::BadType(_) => 12,
            Refusal::UndecidedRow(_) => 13,
        }
    }

    /// The name of its kind, and behind NotInSubset the word that is banned.
    pub fn kind(&self) -> &'static str
        ensures { result.now ≡ kind_of self.now }
    {
        match self {
            Refusal::BadToken(_) => "BadToken",
            Refusal::Unclosed(_) => "Unclosed",
            Refusal::LiteralRange(_) => "LiteralRange",
            Refusal::Syntax(_) => "Syntax",
            Refusal::MixedFixity(_) => "MixedFixity",
            Refusal::NotInSubset(_, _) => "NotInSubset",
            Refusal::TooLong(_) => "TooLong",
            Refusal::TooDeep(_) => "TooDeep",
            Refusal::TooWide(_) => "TooWide",
            Refusal::Unbound(_) => "Unbound",
            Refusal::BadBinding(_) => "BadBinding",
            Refusal::BadType(_) => "BadType",
            Refusal::UndecidedRow(_) => "UndecidedRow",
        }
    }

    /// Where it is.
    pub fn place(&self) -> Place
        ensures { result ≡ place_of self.now }
    {
        match self {
            Refusal::BadToken(place) => *place,
            Refusal::Unclosed(place) => *place,
            Refusal::LiteralRange(place) => *place,
            Refusal::Syntax(place) => *place,
            Refusal::MixedFixity(place) => *place,
            Refusal::NotInSubset(place, _) => *place,
            Refusal::TooLong(place) => *place,
            Refusal::TooDeep(place) => *place,
            Refusal::TooWide(place) => *place,
            Refusal::Unbound(place) => *place,
            Refusal::BadBinding(place) => *place,
            Refusal::BadType(place) => *place,
            Refusal::UndecidedRow(place) => *place,
        }
    }
}

impl fmt::Display for Refusal {
    fn fmt<W: fmt::Write>(&self, f: &mut fmt::Formatter<W>) -> fmt::Result {
        write!(f, "refused {} {}", self.number(), self.kind())
    }
}

impl fmt::Debug for Refusal {
    fn fmt<W: fmt::Write>(&self, f: &mut fmt::Formatter<W>) -> fmt::Result {
        write!(f, "{}", self)
    }
}

/// Why a program was not compiled.
#[derive(Clone, Copy, PartialEq, Eq, Debug, Drop, Error)]
pub enum CompileError {
    #[error("{0}")]
    Refused(Refusal),
    #[error("want of memory")]
    NoMemory,
}

impl From<NoMemory> for CompileError {
    ghost use Rattle.std.specs.Prelude.{◌≡◌};
    ghost use Rattle.smlc_base.specs.declared.refusal.CompileError.TheVariants as variant;

    ghost from_gives = { λ _ e. e ≡ variant.NoMemory };

    fn from(_e: NoMemory) -> CompileError {
        CompileError::NoMemory
    }
}

impl From<AllocError> for CompileError {
    ghost use Rattle.std.specs.Prelude.{◌≡◌};
    ghost use Rattle.smlc_base.specs.declared.refusal.CompileError.TheVariants as variant;

    ghost from_gives = { λ _ e. e ≡ variant.NoMemory };

    fn from(_e: AllocError) -> CompileError {
        CompileError::NoMemory
    }
}

impl<T: Drop> From<AllocFailed<T>> for CompileError {
    ghost use Rattle.std.specs.Prelude.{◌≡◌};
    ghost use Rattle.smlc_base.specs.declared.refusal.CompileError.TheVariants as variant;

    ghost from_gives = { λ _ e. e ≡ variant.NoMemory };

    fn from(_e: AllocFailed<T>) -> CompileError {
        CompileError::NoMemory
    }
}
