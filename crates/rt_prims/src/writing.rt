//! Lines put into a program.

ghost use Rattle.std.specs.Prelude.{◌≡◌, ◌≤◌, ◌+◌, length, take, ℕ, OnOk, OnErr};
ghost use Rattle.std.specs.List.{All};
ghost use Rattle.rt_prims.specs.Lines.{FitsLine, labels, with_line, with_lines};

use crate::line::Line;
use rv_asm::Asm;
use rv_isa::Ins;
use smlc_base::NoMemory;

/// Puts the line last.
fn put_line(asm: &mut Asm, first: u32, line: Line) -> Result<(), NoMemory>
    requires fits { FitsLine line }
    requires made { first + labels ≤ length asm.old.places }
    requires number { first + labels ≤ 4294967296 }
    ensures ok { OnOk result (asm.new ≡ with_line first asm.old line) }
    ensures err { OnErr result (asm.new ≡ asm.old) }
{
    match line {
        Line::R(op, rd, rs1, rs2) => asm.ins(Ins::r_type(op, rd, rs1, rs2)),
        Line::I(op, rd, rs1, imm) => asm.ins(Ins::i_type(op, rd, rs1, imm)),
        Line::S(op, rs1, rs2, imm) => asm.ins(Ins::s_type(op, rs1, rs2, imm)),
        Line::U(op, rd, imm) => asm.ins(Ins::u_type(op, rd, imm)),
        Line::Plain(op) => asm.ins(Ins::plain(op)),
        Line::Jump(routine) => asm.jump(first + routine.number()),
        Line::Link(routine) => asm.address(31, first + routine.number()),
        Line::Address(rd, datum) => asm.address(rd, first + datum.place()),
    }
}

/// Puts the lines last. For want of memory it has put those in front of one of them.
pub fn put_lines(asm: &mut Asm, first: u32, lines: &[Line]) -> Result<(), NoMemory>
    requires fit { All FitsLine lines.now }
    requires made { first + labels ≤ length asm.old.places }
    requires number { first + labels ≤ 4294967296 }
    ensures ok { OnOk result (asm.new ≡ with_lines first asm.old lines.now) }
    ensures err { OnErr result ((k : ℕ) × (k ≤ length lines.now) × (asm.new ≡ with_lines first asm.old (take k lines.now))) }
{
    for line in lines {
        put_line(asm, first, *line)?;
    }
    Ok(())
}
