//! Routines that end a run, and those that raise an exception of the library.

use crate::line::Line::{Address, I, Plain, R, S, U};
use crate::line::{Datum, Line};
use rv_isa::Op::{Add, Addi, Andi, Beq, Bne, Ecall, Jal, Jalr, Ld, Lw, Lwu, Srli, Sub};

/// The end for want of arena.
pub const FULL: [Line; 6] = [
    Address(5, Datum::Arena),
    R(Sub, 11, 8, 5),
    I(Srli, 11, 11, 3),
    I(Addi, 10, 0, 3),
    I(Addi, 17, 0, 93),
    Plain(Ecall),
];

/// The normal end.
pub const HALT: [Line; 3] = [I(Addi, 10, 0, 0), I(Addi, 17, 0, 93), Plain(Ecall)];

/// The end with the line of an uncaught exception.
pub const UNCAUGHT: [Line; 36] = [
    I(Addi, 17, 0, 64),
    I(Lw, 5, 11, 0),
    I(Andi, 5, 5, 7),
    I(Addi, 5, 5, -5),
    S(Bne, 5, 0, 8),
    I(Ld, 11, 11, 8),
    I(Ld, 7, 11, 8),
    Address(11, Datum::LineFront),
    I(Addi, 11, 11, 8),
    I(Addi, 12, 0, 19),
    S(Beq, 12, 0, 24),
    I(Addi, 10, 0, 2),
    Plain(Ecall),
    R(Add, 11, 11, 10),
    R(Sub, 12, 12, 10),
    U(Jal, 0, -20),
    I(Addi, 11, 7, 8),
    I(Lwu, 12, 7, 4),
    S(Beq, 12, 0, 24),
    I(Addi, 10, 0, 2),
    Plain(Ecall),
    R(Add, 11, 11, 10),
    R(Sub, 12, 12, 10),
    U(Jal, 0, -20),
    Address(11, Datum::LineBack),
    I(Addi, 11, 11, 8),
    I(Addi, 12, 0, 1),
    S(Beq, 12, 0, 24),
    I(Addi, 10, 0, 2),
    Plain(Ecall),
    R(Add, 11, 11, 10),
    R(Sub, 12, 12, 10),
    U(Jal, 0, -20),
    I(Addi, 10, 0, 1),
    I(Addi, 17, 0, 93),
    Plain(Ecall),
];

/// Raises `Overflow`.
pub const OVERFLOW: [Line; 4] = [
    Address(11, Datum::OverflowName),
    I(Addi, 10, 18, 0),
    I(Ld, 31, 18, 8),
    I(Jalr, 0, 31, 0),
];

/// Raises `Div`.
pub const DIV: [Line; 4] = [
    Address(11, Datum::DivName),
    I(Addi, 10, 18, 0),
    I(Ld, 31, 18, 8),
    I(Jalr, 0, 31, 0),
];

/// Raises `Chr`.
pub const CHR: [Line; 4] = [
    Address(11, Datum::ChrName),
    I(Addi, 10, 18, 0),
    I(Ld, 31, 18, 8),
    I(Jalr, 0, 31, 0),
];

/// Raises `Subscript`.
pub const SUBSCRIPT: [Line; 4] = [
    Address(11, Datum::SubscriptName),
    I(Addi, 10, 18, 0),
    I(Ld, 31, 18, 8),
    I(Jalr, 0, 31, 0),
];
