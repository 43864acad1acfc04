//! What GNU as and ld write for a small program. What they write for distances stands in `proofs/Distances`.

use rv_asm::Asm;
use rv_isa::{Ins, Op};
use std::test::Fail;

const BYTES: [u8; 44] = [
    // addi x10, x0, 5
    0x13, 0x05, 0x50, 0x00,
    // back: addi x10, x10, -1
    0x13, 0x05, 0xf5, 0xff,
    // lla x11, data
    0x97, 0x05, 0x00, 0x00, 0x93, 0x85, 0xc5, 0x01,
    // beq x10, x0, .+12
    0x63, 0x06, 0x05, 0x00,
    // jump back, x31
    0x97, 0x0f, 0x00, 0x00, 0x67, 0x80, 0x0f, 0xff,
    // jump end, x31
    0x97, 0x0f, 0x00, 0x00, 0x67, 0x80, 0xcf, 0x00,
    // data: ecall
    0x73, 0x00, 0x00, 0x00,
    // end: ebreak
    0x73, 0x00, 0x10, 0x00,
];

#[test]
fn a_program(rt: HostRuntime) -> Result<(), Fail> {
    let mut asm = Asm::new(rt.alloc());
    let back = asm.label()?;
    let data = asm.label()?;
    let end = asm.label()?;
    asm.ins(Ins::i_type(Op::Addi, 10, 0, 5))?;
    asm.bind(back);
    asm.ins(Ins::i_type(Op::Addi, 10, 10, -1))?;
    asm.address(11, data)?;
    asm.ins(Ins::s_type(Op::Beq, 10, 0, 12))?;
    asm.jump(back)?;
    asm.jump(end)?;
    asm.bind(data);
    asm.ins(Ins::plain(Op::Ecall))?;
    asm.bind(end);
    asm.ins(Ins::plain(Op::Ebreak))?;
    let code = asm.finish(0x10000)?;
    assert!(rt; code.bytes.items() == BYTES.as_slice());
    assert!(rt; code.at.items() == [0x10004, 0x10024, 0x10028].as_slice());
    Ok(())
}
