//! The straight code of prints: one loop of writes for each piece, and an exit.

ghost use Rattle.std.specs.Prelude.{◌≡◌, ◌+◌, ◌*◌, ◌/◌, ◌%◌, ◌<◌, ◌≤◌, ◌^◌, ◌++◌, [], ◌∷◌, pos, negsuc, length, OnOk, IfOk};
ghost use Rattle.std.specs.Int.{w32, to_le_bytes};
ghost use Rattle.rv_isa.specs.Word.{Fits, word_of, ins as ins_op};
ghost use Rattle.elf_static.specs.Layout.{IsLaidOut, round_up};
ghost use Rattle.elf_static.specs.Table.{no_entries};
ghost use Rattle.print_code.specs.Code.{bytes_of, piece_code, pieces_code, loop_code, exit_code, low_part, image_of, total, IsStraight, plan_text};
ghost use Rattle.print_code.specs.Prints.{Prints};

use elf_static::{Entries, Image, Segment};
use rv_isa::{Ins, Op, encode};
use smlc_base::{NoMemory, Row};
use std::alloc::Global;

/// The text of prints, and the lengths of its pieces that aren't empty.
#[derive(Drop)]
pub struct Printed {
    pub text: Vec<u8>,
    pub lengths: Vec<u32>,
}

/// The plan of straight code.
const PLAN: &[u8] = b"factor 1\nspill 0\n";

/// Puts an instruction's word behind the code.
fn put(code: &mut Vec<u8>, ins: Ins) -> Result<(), NoMemory>
    requires { Fits ins }
    ensures { OnOk result (code.new.items ≡ code.old.items ++ to_le_bytes w32 (word_of ins)) }
{
    let word = encode(ins);
    code.extend_from_slice(&word.to_le_bytes())?;
    Ok(())
}

fn ins(op: Op, rd: u8, rs1: u8, rs2: u8, imm: i32) -> Ins
    ensures { result ≡ record { op = op; rd = rd; rs1 = rs1; rs2 = rs2; imm = imm } }
{
    Ins {
        op,
        rd,
        rs1,
        rs2,
        imm,
    }
}

// The two parts of a number that LUI and ADDI join.
fn lui(rd: u8, n: u32) -> Ins
    requires { n < 2 ^ 31 }
    ensures { result ≡ record { op = Op.Lui; rd = rd; rs1 = 0; rs2 = 0; imm = pos n } }
{
    Ins {
        op: Op::Lui,
        rd,
        rs1: 0,
        rs2: 0,
        imm: n as i32,
    }
}

fn low(n: u32) -> Ins
    ensures { result ≡ record { op = Op.Addi; rd = 12; rs1 = 12; rs2 = 0; imm = low_part n } }
{
    let rest = (n % 4096) as i32;
    let imm = if n % 4096 < 2048 { rest } else { rest - 4096 };
    Ins {
        op: Op::Addi,
        rd: 12,
        rs1: 12,
        rs2: 0,
        imm,
    }
}

/// Puts the loop that writes a piece of so many bytes behind the code.
fn put_piece(code: &mut Vec<u8>, size: u32) -> Result<(), NoMemory>
    requires { size < 2 ^ 30 }
    ensures { OnOk result (code.new.items ≡ code.old.items ++ bytes_of (piece_code size)) }
{
    put(code, lui(12, (size + 2048) / 4096 * 4096))?;
    put(code, low(size))?;
    put_loop(code)?;
    Ok(())
}

fn put_loop(code: &mut Vec<u8>) -> Result<(), NoMemory>
    ensures { OnOk result (code.new.items ≡ code.old.items ++ bytes_of loop_code) }
{
    put(code, ins(Op::Addi, 10, 0, 0, 1))?;
    put(code, ins(Op::Addi, 17, 0, 0, 64))?;
    put(code, ins(Op::Ecall, 0, 0, 0, 0))?;
    put(code, ins(Op::Add, 11, 11, 10, 0))?;
    put(code, ins(Op::Sub, 12, 12, 10, 0))?;
    put(code, ins(Op::Bne, 0, 12, 0, -20))?;
    Ok(())
}

fn put_exit(code: &mut Vec<u8>) -> Result<(), NoMemory>
    ensures { OnOk result (code.new.items ≡ code.old.items ++ bytes_of exit_code) }
{
    put(code, ins(Op::Addi, 17, 0, 0, 93))?;
    put(code, ins(Op::Addi, 10, 0, 0, 0))?;
    put(code, ins(Op::Ecall, 0, 0, 0, 0))?;
    Ok(())
}

// The code of prints whose text stands at an address.
fn code_of(alloc: Global, base: u32, lengths: &[u32]) -> Result<Vec<u8>, NoMemory>
    requires base { base < 2 ^ 31 }
    requires lined { base % 4096 ≡ 0 }
    requires sizes { total lengths.now < 2 ^ 30 }
    ensures { IfOk result (λ code. code.items ≡ bytes_of (ins_op Op.Lui 11 0 0 (pos base) ∷ pieces_code lengths.now)) }
{
    let mut code = Vec::new(alloc);
    put(&mut code, lui(11, base))?;
    for size in lengths {
        put_piece(&mut code, *size)?;
    }
    put_exit(&mut code)?;
    Ok(code)
}

// How many pieces there are.
fn count(printed: &Printed) -> u32
    requires { IsStraight printed.now.lengths.items printed.now.text.items }
    ensures value { result ≡ length printed.now.lengths.items }
    ensures few { result ≤ 1048576 }
{
    printed.lengths.len() as u32
}

/// The image of prints.
pub fn make(alloc: Global, printed: Printed) -> Result<Image, NoMemory>
    requires { IsStraight printed.lengths.items printed.text.items }
    ensures image { IfOk result (λ image. image ≡ image_of printed.lengths.items printed.text.items) }
    ensures laid_out { IfOk result IsLaidOut }
    ensures prints { IfOk result (λ image. Prints image printed.text.items (64 * (1 + length printed.text.items))) }
{
    let image = build(alloc, printed)?;
    Ok(image)
}

fn build(alloc: Global, printed: Printed) -> Result<Image, NoMemory>
    requires { IsStraight printed.lengths.items printed.text.items }
    ensures { IfOk result (λ image. image ≡ image_of printed.lengths.items printed.text.items) }
{
    let base = data_address(count(&printed));
    let code = code_of(alloc, base, &printed.lengths)?;
    let behind = base as u64 + printed.text.len() as u64;
    let text = segment(0x1_0000, 5, code);
    let read_only = segment(base as u64, 4, printed.text);
    let image = image_with(alloc, text, read_only, writable(alloc, behind))?;
    Ok(image)
}

// Where the read-only data of so many pieces begin.
fn data_address(count: u32) -> u32
    requires { count ≤ 1048576 }
    ensures value { result ≡ 65536 + (count * 32 + 16 + 4095) / 4096 * 4096 }
    ensures near { result < 2 ^ 31 }
    ensures lined { result % 4096 ≡ 0 }
{
    0x1_0000 + (count * 32 + 16 + 4095) / 4096 * 4096
}

// A segment that is as long as its bytes.
fn segment(address: u64, flags: u32, bytes: Vec<u8>) -> Segment
    ensures { result ≡ record { address = address; flags = flags; bytes = bytes.items; size = length bytes.items } }
{
    let size = bytes.len() as u64;
    Segment {
        address,
        flags,
        bytes: Row::from_vec(bytes),
        size,
    }
}

// Memory that may be written, from the next multiple of 4,096 on.
fn writable(alloc: Global, behind: u64) -> Segment
    requires { behind < 2 ^ 63 }
    ensures { result ≡ record { address = round_up 4096 behind; flags = 6; bytes = []; size = 8192 } }
{
    Segment {
        address: (behind + 4095) / 4096 * 4096,
        flags: 6,
        bytes: Row::new(alloc),
        size: 8192,
    }
}

fn image_with(
    alloc: Global,
    text: Segment,
    read_only: Segment,
    writable: Segment,
) -> Result<Image, NoMemory>
    ensures { IfOk result (λ image. image ≡ record { entry = 65536; segments = text ∷ read_only ∷ writable ∷ []; entries = no_entries; plan = plan_text }) }
{
    let mut segments = Row::new(alloc);
    segments.push(text)?;
    segments.push(read_only)?;
    segments.push(writable)?;
    Ok(Image {
        entry: 0x1_0000,
        segments,
        entries: Entries::none(alloc),
        plan: Row::from_vec(Vec::from_slice(alloc, PLAN)?),
    })
}
