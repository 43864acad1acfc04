//! Instructions as words: the formats of the unprivileged manual, sections 2.2 and 2.3.

ghost use Rattle.std.specs.Prelude.{IfSome, pos, ◌≡◌, ◌↔◌, ◌<◌, ◌≤◌, ◌+◌, ◌*◌, ◌/◌, ◌%◌, IsTrue};
ghost use Rattle.rv_isa.specs.declared.word.Ins.{Ins};
ghost use Rattle.rv_isa.specs.declared.word.Fields.{Fields};
ghost use Rattle.rv_isa.specs.Word.{fields, parted, IsBounded, joined, IsWithin, IsBelow, unsigned, signed, laid, FitsAs, Fits, word_of, format_at, key_at, read_as, decoded, odd_low, odd_at, ins};

use crate::table::{Format, Op};

/// An instruction. An operand that its format lacks is 0. The immediate is the number that the
/// instruction stands for: that of LUI and AUIPC is a multiple of 4,096, that of a jump or a branch
/// is its offset in bytes.
#[derive(Clone, Copy, Debug, PartialEq, Eq)]
pub struct Ins {
    pub op: Op,
    pub rd: u8,
    pub rs1: u8,
    pub rs2: u8,
    pub imm: i32,
}

/// The six fields of a word, from its lowest bit up: 7 bits of opcode, then 5, 3, 5, 5 and 7.
#[derive(Clone, Copy, Debug, PartialEq, Eq)]
pub struct Fields {
    pub opcode: u32,
    pub rd: u32,
    pub funct3: u32,
    pub rs1: u32,
    pub rs2: u32,
    pub funct7: u32,
}

/// Whether the immediate is -half to half - 1.
fn is_within(half: u32, imm: i32) -> bool
    ensures { IsTrue result ↔ IsWithin half imm }
{
    let wide = imm as i64;
    -(half as i64) <= wide && wide < half as i64
}

/// Whether the immediate is 0 to limit - 1.
fn is_below(limit: u32, imm: i32) -> bool
    ensures { IsTrue result ↔ IsBelow limit imm }
{
    imm >= 0 && (imm as u32) < limit
}

/// Whether the immediate is -half to half - 1 and a multiple of the unit.
fn is_multiple(half: u32, unit: u32, imm: i32) -> bool
    requires half { half ≤ 2147483648 }
    requires unit { 0 < unit }
    ensures { IsTrue result ↔ (IsWithin half imm × (unsigned half imm % unit ≡ 0)) }
{
    is_within(half, imm) && to_unsigned(half, imm) % unit == 0
}

/// A number in two's complement, where there are 2 * half numbers.
fn to_unsigned(half: u32, imm: i32) -> u32
    requires half { half ≤ 2147483648 }
    requires within { IsWithin half imm }
    ensures { result ≡ unsigned half imm }
{
    if imm >= 0 {
        imm as u32
    } else {
        (imm as i64 + 2 * half as i64) as u32
    }
}

/// The number that stands in two's complement, where there are 2 * half numbers.
#[tactic(auto, unfolding(crate::specs::Word::signed))]
fn to_signed(half: u32, n: u32) -> i32
    requires half { half ≤ 2147483648 }
    requires below { n < 2 * half }
    ensures { result ≡ signed half n }
{
    if n < half {
        n as i32
    } else {
        (n as i64 - 2 * half as i64) as i32
    }
}

impl Ins {
    /// An instruction of the R-type.
    pub fn r_type(op: Op, rd: u8, rs1: u8, rs2: u8) -> Ins
        ensures { result ≡ ins op rd rs1 rs2 (pos 0) }
    {
        Ins {
            op,
            rd,
            rs1,
            rs2,
            imm: 0,
        }
    }

    /// An instruction of the I-type; its immediate may be a shift amount.
    pub fn i_type(op: Op, rd: u8, rs1: u8, imm: i32) -> Ins
        ensures { result ≡ ins op rd rs1 0 imm }
    {
        Ins {
            op,
            rd,
            rs1,
            rs2: 0,
            imm,
        }
    }

    /// An instruction of the S-type or the B-type.
    pub fn s_type(op: Op, rs1: u8, rs2: u8, imm: i32) -> Ins
        ensures { result ≡ ins op 0 rs1 rs2 imm }
    {
        Ins {
            op,
            rd: 0,
            rs1,
            rs2,
            imm,
        }
    }

    /// An instruction of the U-type or the J-type.
    pub fn u_type(op: Op, rd: u8, imm: i32) -> Ins
        ensures { result ≡ ins op rd 0 0 imm }
    {
        Ins {
            op,
            rd,
            rs1: 0,
            rs2: 0,
            imm,
        }
    }

    /// An instruction without operands.
    pub fn plain(op: Op) -> Ins
        ensures { result ≡ ins op 0 0 0 (pos 0) }
    {
        Ins::u_type(op, 0, 0)
    }

    fn fits_as(self, format: Format) -> bool
        ensures { IsTrue result ↔ FitsAs format self }
    {
        let imm = self.imm;
        let (rd, rs1, rs2) = (self.rd < 32, self.rs1 < 32, self.rs2 < 32);
        let (no_rd, no_rs1, no_rs2) = (self.rd == 0, self.rs1 == 0, self.rs2 == 0);
        match format {
            Format::R => rd && rs1 && rs2 && imm == 0,
            Format::I => rd && rs1 && no_rs2 && is_within(2048, imm),
            Format::S => no_rd && rs1 && rs2 && is_within(2048, imm),
            Format::B => no_rd && rs1 && rs2 && is_multiple(4096, 2, imm),
            Format::U => rd && no_rs1 && no_rs2 && is_multiple(2147483648, 4096, imm),
            Format::J => rd && no_rs1 && no_rs2 && is_multiple(1048576, 2, imm),
            Format::Shift6 => rd && rs1 && no_rs2 && is_below(64, imm),
            Format::Shift5 => rd && rs1 && no_rs2 && is_below(32, imm),
            Format::Fixed => no_rd && no_rs1 && no_rs2 && imm == 0,
        }
    }
}

/// Whether the instruction has a word: its registers are below 32, its immediate is in the range of
/// its format, and an operand that the format lacks is 0.
pub fn fits(ins: Ins) -> bool
    ensures { IsTrue result ↔ Fits ins }
{
    ins.fits_as(ins.op.shape().format)
}

impl Fields {
    /// The fields of a word.
    #[tactic(auto, unfolding(crate::specs::Word::parted))]
    fn part(word: u32) -> Fields
        ensures { result ≡ parted word }
    {
        Fields {
            opcode: word & 0x7f,
            rd: word >> 7 & 0x1f,
            funct3: word >> 12 & 7,
            rs1: word >> 15 & 0x1f,
            rs2: word >> 20 & 0x1f,
            funct7: word >> 25,
        }
    }

    /// The word with these fields.
    fn join(self) -> u32
        requires { IsBounded self }
        ensures { result ≡ joined self }
    {
        self.opcode
            | self.rd << 7
            | self.funct3 << 12
            | self.rs1 << 15
            | self.rs2 << 20
            | self.funct7 << 25
    }

    /// With these 12 bits as the I-immediate.
    fn with_i_immediate(self, n: u32) -> Fields
        ensures { result ≡ fields self.opcode self.rd self.funct3 self.rs1 (n % 32) (n / 32) }
    {
        Fields {
            rs2: n & 0x1f,
            funct7: n >> 5,
            ..self
        }
    }

    /// With these 12 bits as the S-immediate.
    fn with_s_immediate(self, n: u32) -> Fields
        ensures { result ≡ fields self.opcode (n % 32) self.funct3 self.rs1 self.rs2 (n / 32) }
    {
        Fields {
            rd: n & 0x1f,
            funct7: n >> 5,
            ..self
        }
    }

    /// With these 13 bits, of which the lowest is 0, as the B-immediate.
    fn with_b_immediate(self, n: u32) -> Fields
        requires { n < 8192 }
        ensures { result ≡ fields self.opcode (odd_low n) self.funct3 self.rs1 self.rs2 (n / 4096 * 64 + n / 32 % 64) }
    {
        Fields {
            rd: n >> 11 & 1 | (n >> 1 & 0xf) << 1,
            funct7: n >> 5 & 0x3f | n >> 12 << 6,
            ..self
        }
    }

    /// With the upper 20 of these 32 bits as the U-immediate.
    fn with_u_immediate(self, n: u32) -> Fields
        ensures { let upper = n / 4096 in result ≡ fields self.opcode self.rd (upper % 8) (upper / 8 % 32) (upper / 256 % 32) (upper / 8192) }
    {
        let upper = n >> 12;
        Fields {
            funct3: upper & 7,
            rs1: upper >> 3 & 0x1f,
            rs2: upper >> 8 & 0x1f,
            funct7: upper >> 13,
            ..self
        }
    }

    /// With these 21 bits, of which the lowest is 0, as the J-immediate.
    fn with_j_immediate(self, n: u32) -> Fields
        requires { n < 2097152 }
        ensures { result ≡ fields self.opcode self.rd (n / 4096 % 8) (n / 32768 % 32) (odd_low n) (n / 1048576 * 64 + n / 32 % 64) }
    {
        Fields {
            funct3: n >> 12 & 7,
            rs1: n >> 15 & 0x1f,
            rs2: n >> 11 & 1 | (n >> 1 & 0xf) << 1,
            funct7: n >> 5 & 0x3f | n >> 20 << 6,
            ..self
        }
    }

    /// With a shift amount of six bits.
    fn with_shift_amount(self, n: u32) -> Fields
        requires amount { n < 64 }
        requires room { self.funct7 < 128 }
        ensures { result ≡ fields self.opcode self.rd self.funct3 self.rs1 (n % 32) (self.funct7 + n / 32) }
    {
        Fields {
            rs2: n & 0x1f,
            funct7: self.funct7 + (n >> 5),
            ..self
        }
    }

    /// The fields of an instruction of a format, with the bits of a key.
    #[tactic(auto, unfolding(crate::specs::Word::parted))]
    fn lay(format: Format, key: u32, ins: Ins) -> Fields
        requires { FitsAs format ins }
        ensures { result ≡ laid format key ins }
    {
        let fixed = Fields::part(key);
        let fields = Fields {
            rd: ins.rd as u32,
            rs1: ins.rs1 as u32,
            rs2: ins.rs2 as u32,
            ..fixed
        };
        match format {
            Format::R => fields,
            Format::I => fields.with_i_immediate(to_unsigned(2048, ins.imm)),
            Format::S => fields.with_s_immediate(to_unsigned(2048, ins.imm)),
            Format::B => fields.with_b_immediate(to_unsigned(4096, ins.imm)),
            Format::U => fields.with_u_immediate(to_unsigned(2147483648, ins.imm)),
            Format::J => fields.with_j_immediate(to_unsigned(1048576, ins.imm)),
            Format::Shift6 => fields.with_shift_amount(ins.imm as u32),
            Format::Shift5 => Fields {
                rs2: ins.imm as u32,
                ..fields
            },
            Format::Fixed => fixed,
        }
    }

    /// The format of the word with these fields.
    #[tactic(auto, unfolding(crate::specs::Word::kind_at))]
    fn format(self) -> Format
        ensures { result ≡ format_at self }
    {
        let shifts = self.funct3 == 1 || self.funct3 == 5;
        match self.opcode {
            0x37 | 0x17 => Format::U,
            0x6f => Format::J,
            0x67 | 0x03 | 0x0f => Format::I,
            0x63 => Format::B,
            0x23 => Format::S,
            0x13 => if shifts { Format::Shift6 } else { Format::I },
            0x33 | 0x3b => Format::R,
            0x1b => if shifts { Format::Shift5 } else { Format::I },
            _ => Format::Fixed,
        }
    }

    /// The word of these fields with every operand of the format 0.
    fn key(self, format: Format) -> u32
        requires { IsBounded self }
        ensures { result ≡ key_at format self }
    {
        match format {
            Format::R | Format::Shift5 => self.opcode | self.funct3 << 12 | self.funct7 << 25,
            Format::I | Format::S | Format::B => self.opcode | self.funct3 << 12,
            Format::U | Format::J => self.opcode,
            Format::Shift6 => self.opcode | self.funct3 << 12 | self.funct7 >> 1 << 26,
            Format::Fixed => self.join(),
        }
    }

    /// The I-immediate.
    fn i_immediate(self) -> i32
        requires { IsBounded self }
        ensures { result ≡ signed 2048 (self.rs2 + 32 * self.funct7) }
    {
        to_signed(2048, self.rs2 | self.funct7 << 5)
    }

    /// The S-immediate.
    fn s_immediate(self) -> i32
        requires { IsBounded self }
        ensures { result ≡ signed 2048 (self.rd + 32 * self.funct7) }
    {
        to_signed(2048, self.rd | self.funct7 << 5)
    }

    /// The B-immediate.
    fn b_immediate(self) -> i32
        requires { IsBounded self }
        ensures { result ≡ signed 4096 (odd_at 4096 self.rd self.funct7) }
    {
        let n = self.rd >> 1 << 1
            | (self.funct7 & 0x3f) << 5
            | (self.rd & 1) << 11
            | self.funct7 >> 6 << 12;
        to_signed(4096, n)
    }

    /// The U-immediate.
    fn u_immediate(self) -> i32
        requires { IsBounded self }
        ensures { result ≡ signed 2147483648 (4096 * (self.funct3 + 8 * self.rs1 + 256 * self.rs2 + 8192 * self.funct7)) }
    {
        let n = self.funct3 << 12 | self.rs1 << 15 | self.rs2 << 20 | self.funct7 << 25;
        to_signed(2147483648, n)
    }

    /// The J-immediate.
    fn j_immediate(self) -> i32
        requires { IsBounded self }
        ensures { result ≡ signed 1048576 (4096 * self.funct3 + 32768 * self.rs1 + odd_at 1048576 self.rs2 self.funct7) }
    {
        let n = self.rs2 >> 1 << 1
            | (self.funct7 & 0x3f) << 5
            | (self.rs2 & 1) << 11
            | self.funct3 << 12
            | self.rs1 << 15
            | self.funct7 >> 6 << 20;
        to_signed(1048576, n)
    }

    /// The shift amount of six bits.
    fn shift_amount(self) -> i32
        requires { IsBounded self }
        ensures { result ≡ pos (self.rs2 + 32 * (self.funct7 % 2)) }
    {
        (self.rs2 | (self.funct7 & 1) << 5) as i32
    }

    /// The instruction with these fields.
    fn read(self, format: Format, op: Op) -> Ins
        requires { IsBounded self }
        ensures { result ≡ read_as format op self }
    {
        let rd = self.rd as u8;
        let rs1 = self.rs1 as u8;
        let rs2 = self.rs2 as u8;
        match format {
            Format::R => Ins::r_type(op, rd, rs1, rs2),
            Format::I => Ins::i_type(op, rd, rs1, self.i_immediate()),
            Format::S => Ins::s_type(op, rs1, rs2, self.s_immediate()),
            Format::B => Ins::s_type(op, rs1, rs2, self.b_immediate()),
            Format::U => Ins::u_type(op, rd, self.u_immediate()),
            Format::J => Ins::u_type(op, rd, self.j_immediate()),
            Format::Shift6 => Ins::i_type(op, rd, rs1, self.shift_amount()),
            Format::Shift5 => Ins::i_type(op, rd, rs1, self.rs2 as i32),
            Format::Fixed => Ins::plain(op),
        }
    }
}

/// The word of an instruction.
pub fn encode(ins: Ins) -> u32
    requires { Fits ins }
    ensures { result ≡ word_of ins }
{
    let shape = ins.op.shape();
    Fields::lay(shape.format, shape.key, ins).join()
}

/// The instruction that fits and encodes to the word, if there is one.
pub fn decode(word: u32) -> Option<Ins>
    ensures value { result ≡ decoded word }
    ensures registers { IfSome result (λ i. (i.rd < 32) × (i.rs1 < 32) × (i.rs2 < 32)) }
    ensures exact { (i : Ins) → (result ≡ Some i) ↔ (Fits i × (word_of i ≡ word)) }
{
    decode_word(word)
}

#[tactic(auto, unfolding(crate::specs::Word::decoded))]
fn decode_word(word: u32) -> Option<Ins>
    ensures { result ≡ decoded word }
{
    let fields = Fields::part(word);
    let format = fields.format();
    match Op::at(fields.key(format)) {
        Some(op) => Some(fields.read(format, op)),
        None => None,
    }
}
