//! What a routine is written in.

ghost use Rattle.std.specs.Prelude.{◌≡◌, ◌<◌};
ghost use Rattle.rt_prims.specs.Lines.{number, place};

use rv_isa::Op;

/// A routine.
#[derive(Clone, Copy)]
pub enum Routine {
    /// The end for want of arena. x12 has the words of the block that had no room.
    Full,
    /// The normal end.
    Halt,
    /// The end with the line of an uncaught exception, whose packet is in x11.
    Uncaught,
    /// Raises `Overflow`.
    Overflow,
    /// Raises `Div`.
    Div,
    /// Raises `Chr`.
    Chr,
    /// Raises `Subscript`.
    Subscript,
    Concat,
    Size,
    Sub,
    Substring,
    StrOf,
    Implode,
    Compare,
    Print,
    InputLine,
    /// The beginning of a comparison.
    Equal,
    /// A turn of a comparison over the list of pending pairs.
    Turn,
}

/// What routines know by its address.
#[derive(Clone, Copy)]
pub enum Datum {
    /// The beginning of the writable segment, where the input buffer stands.
    Segment,
    /// The save area.
    Save,
    /// The beginning of the arena.
    Arena,
    /// The end of the arena.
    ArenaEnd,
    /// The static blocks of names of exceptions.
    OverflowName,
    DivName,
    ChrName,
    SubscriptName,
    /// The static strings in front of and behind the name of an uncaught exception.
    LineFront,
    LineBack,
}

/// A line of a routine: an instruction by its format, or an address that isn't known yet.
#[derive(Clone, Copy)]
pub enum Line {
    /// rd, rs1, rs2.
    R(Op, u8, u8, u8),
    /// rd, rs1 and the immediate.
    I(Op, u8, u8, i32),
    /// rs1, rs2 and the immediate, of stores and branches.
    S(Op, u8, u8, i32),
    /// rd and the immediate.
    U(Op, u8, i32),
    /// No operand.
    Plain(Op),
    /// A jump, through x31.
    Jump(Routine),
    /// x31 becomes the address of a routine.
    Link(Routine),
    /// The register becomes the address.
    Address(u8, Datum),
}

impl Routine {
    /// Its number, in the order of the text.
    pub fn number(self) -> u32
        ensures is { result ≡ number self }
        ensures below { result < 18 }
    {
        match self {
            Routine::Full => 0,
            Routine::Halt => 1,
            Routine::Uncaught => 2,
            Routine::Overflow => 3,
            Routine::Div => 4,
            Routine::Chr => 5,
            Routine::Subscript => 6,
            Routine::Concat => 7,
            Routine::Size => 8,
            Routine::Sub => 9,
            Routine::Substring => 10,
            Routine::StrOf => 11,
            Routine::Implode => 12,
            Routine::Compare => 13,
            Routine::Print => 14,
            Routine::InputLine => 15,
            Routine::Equal => 16,
            Routine::Turn => 17,
        }
    }
}

impl Datum {
    /// Its number, behind those of the routines.
    pub fn place(self) -> u32
        ensures is { result ≡ place self }
        ensures below { result < 28 }
    {
        match self {
            Datum::Segment => 18,
            Datum::Save => 19,
            Datum::Arena => 20,
            Datum::ArenaEnd => 21,
            Datum::OverflowName => 22,
            Datum::DivName => 23,
            Datum::ChrName => 24,
            Datum::SubscriptName => 25,
            Datum::LineFront => 26,
            Datum::LineBack => 27,
        }
    }
}
