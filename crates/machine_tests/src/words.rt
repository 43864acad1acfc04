//! Words that GNU as writes, one for each mnemonic, and what has no word.

use rv_isa::{Ins, Op, decode, encode, fits};

/// An instruction by its mnemonic, its three registers and its immediate, and its word. Behind it stands the line that GNU as was given.
type Row = (Op, [u8; 3], i32, u32);

const ROWS: [Row; 65] = [
    (Op::Lui, [10, 0, 0], 0x12345000, 0x12345537), // lui x10, 0x12345
    (Op::Auipc, [5, 0, 0], -4096, 0xfffff297), // auipc x5, 0xfffff
    (Op::Jal, [1, 0, 0], -8, 0xff9ff0ef), // jal x1, .-8
    (Op::Jalr, [1, 6, 0], 16, 0x010300e7), // jalr x1, 16(x6)
    (Op::Beq, [0, 10, 11], 16, 0x00b50863), // beq x10, x11, .+16
    (Op::Bne, [0, 10, 11], -16, 0xfeb518e3), // bne x10, x11, .-16
    (Op::Blt, [0, 10, 11], 4094, 0x7eb54fe3), // blt x10, x11, .+4094
    (Op::Bge, [0, 10, 11], -4096, 0x80b55063), // bge x10, x11, .-4096
    (Op::Bltu, [0, 18, 19], 2048, 0x013960e3), // bltu x18, x19, .+2048
    (Op::Bgeu, [0, 18, 19], 30, 0x01397f63), // bgeu x18, x19, .+30
    (Op::Lb, [10, 2, 0], -1, 0xfff10503), // lb x10, -1(x2)
    (Op::Lh, [11, 2, 0], 2, 0x00211583), // lh x11, 2(x2)
    (Op::Lw, [12, 2, 0], 4, 0x00412603), // lw x12, 4(x2)
    (Op::Ld, [13, 2, 0], 8, 0x00813683), // ld x13, 8(x2)
    (Op::Lbu, [14, 2, 0], 2047, 0x7ff14703), // lbu x14, 2047(x2)
    (Op::Lhu, [15, 2, 0], -2048, 0x80015783), // lhu x15, -2048(x2)
    (Op::Lwu, [16, 2, 0], 1024, 0x40016803), // lwu x16, 1024(x2)
    (Op::Sb, [0, 2, 10], -1, 0xfea10fa3), // sb x10, -1(x2)
    (Op::Sh, [0, 2, 11], 2, 0x00b11123), // sh x11, 2(x2)
    (Op::Sw, [0, 2, 12], 31, 0x00c12fa3), // sw x12, 31(x2)
    (Op::Sd, [0, 2, 13], 32, 0x02d13023), // sd x13, 32(x2)
    (Op::Addi, [10, 0, 0], 1, 0x00100513), // addi x10, x0, 1
    (Op::Slti, [28, 29, 0], 5, 0x005eae13), // slti x28, x29, 5
    (Op::Sltiu, [28, 29, 0], 6, 0x006ebe13), // sltiu x28, x29, 6
    (Op::Xori, [28, 29, 0], -1, 0xfffece13), // xori x28, x29, -1
    (Op::Ori, [28, 29, 0], 2047, 0x7ffeee13), // ori x28, x29, 2047
    (Op::Andi, [28, 29, 0], 255, 0x0ffefe13), // andi x28, x29, 255
    (Op::Slli, [28, 29, 0], 33, 0x021e9e13), // slli x28, x29, 33
    (Op::Srli, [28, 29, 0], 63, 0x03fede13), // srli x28, x29, 63
    (Op::Srai, [28, 29, 0], 32, 0x420ede13), // srai x28, x29, 32
    (Op::Add, [9, 18, 19], 0, 0x013904b3), // add x9, x18, x19
    (Op::Sub, [9, 18, 19], 0, 0x413904b3), // sub x9, x18, x19
    (Op::Sll, [9, 18, 19], 0, 0x013914b3), // sll x9, x18, x19
    (Op::Slt, [9, 18, 19], 0, 0x013924b3), // slt x9, x18, x19
    (Op::Sltu, [9, 18, 19], 0, 0x013934b3), // sltu x9, x18, x19
    (Op::Xor, [9, 18, 19], 0, 0x013944b3), // xor x9, x18, x19
    (Op::Srl, [9, 18, 19], 0, 0x013954b3), // srl x9, x18, x19
    (Op::Sra, [9, 18, 19], 0, 0x413954b3), // sra x9, x18, x19
    (Op::Or, [9, 18, 19], 0, 0x013964b3), // or x9, x18, x19
    (Op::And, [9, 18, 19], 0, 0x013974b3), // and x9, x18, x19
    (Op::Mul, [5, 6, 7], 0, 0x027302b3), // mul x5, x6, x7
    (Op::Mulh, [17, 30, 31], 0, 0x03ff18b3), // mulh x17, x30, x31
    (Op::Mulhsu, [17, 30, 31], 0, 0x03ff28b3), // mulhsu x17, x30, x31
    (Op::Mulhu, [17, 30, 31], 0, 0x03ff38b3), // mulhu x17, x30, x31
    (Op::Div, [17, 30, 31], 0, 0x03ff48b3), // div x17, x30, x31
    (Op::Divu, [17, 30, 31], 0, 0x03ff58b3), // divu x17, x30, x31
    (Op::Rem, [17, 30, 31], 0, 0x03ff68b3), // rem x17, x30, x31
    (Op::Remu, [17, 30, 31], 0, 0x03ff78b3), // remu x17, x30, x31
    (Op::Addiw, [10, 11, 0], -7, 0xff95851b), // addiw x10, x11, -7
    (Op::Slliw, [10, 11, 0], 31, 0x01f5951b), // slliw x10, x11, 31
    (Op::Srliw, [10, 11, 0], 1, 0x0015d51b), // srliw x10, x11, 1
    (Op::Sraiw, [10, 11, 0], 17, 0x4115d51b), // sraiw x10, x11, 17
    (Op::Addw, [10, 11, 12], 0, 0x00c5853b), // addw x10, x11, x12
    (Op::Subw, [10, 11, 12], 0, 0x40c5853b), // subw x10, x11, x12
    (Op::Sllw, [10, 11, 12], 0, 0x00c5953b), // sllw x10, x11, x12
    (Op::Srlw, [10, 11, 12], 0, 0x00c5d53b), // srlw x10, x11, x12
    (Op::Sraw, [10, 11, 12], 0, 0x40c5d53b), // sraw x10, x11, x12
    (Op::Mulw, [10, 11, 12], 0, 0x02c5853b), // mulw x10, x11, x12
    (Op::Divw, [10, 11, 12], 0, 0x02c5c53b), // divw x10, x11, x12
    (Op::Divuw, [10, 11, 12], 0, 0x02c5d53b), // divuw x10, x11, x12
    (Op::Remw, [10, 11, 12], 0, 0x02c5e53b), // remw x10, x11, x12
    (Op::Remuw, [10, 11, 12], 0, 0x02c5f53b), // remuw x10, x11, x12
    (Op::Fence, [0, 0, 0], 0x31, 0x0310000f), // fence rw, w
    (Op::Ecall, [0, 0, 0], 0, 0x00000073), // ecall
    (Op::Ebreak, [0, 0, 0], 0, 0x00100073), // ebreak
];

/// How many rows hold both ways.
fn agreeing(rows: &[Row]) -> usize {
    rows.iter().filter(|row| agrees(row)).count()
}

fn agrees(row: &Row) -> bool {
    let (op, [rd, rs1, rs2], imm, word) = *row;
    let ins = Ins {
        op,
        rd,
        rs1,
        rs2,
        imm,
    };
    fits(ins) && encode(ins) == word && decode(word) == Some(ins)
}

#[test]
fn words_are_those_of_an_assembler(rt: HostRuntime) {
    assert_eq!(rt; agreeing(&ROWS), ROWS.len());
}

#[test]
fn without_word(rt: HostRuntime) {
    for ins in [
        Ins::i_type(Op::Addi, 0, 0, 2048),
        Ins::i_type(Op::Addi, 32, 0, 0),
        Ins::i_type(Op::Srli, 1, 1, 64),
        Ins::i_type(Op::Sraiw, 1, 1, 32),
        Ins::s_type(Op::Beq, 0, 0, 3),
        Ins::u_type(Op::Lui, 1, 4095),
        Ins::r_type(Op::Ecall, 1, 0, 0),
    ] {
        assert!(rt; !fits(ins));
    }
}

#[test]
fn without_instruction(rt: HostRuntime) {
    // c.nop, an R-type with funct7 2, a shift by 64, SRLI with bit 30 in the word form, WFI
    for word in [
        0, 0xffffffff, 0x00000001, 0x04208133, 0x04009093, 0x0200d01b, 0x10500073,
    ] {
        assert!(rt; decode(word) == None);
    }
}
