//! Texts by number, and the worked example of a pass.

use pass_example::{Instr, Op, lower};
use smlc_base::{Name, Names};
use std::test::Fail;

#[test]
fn a_text_is_added_once(rt: HostRuntime) -> Result<(), Fail> {
    let mut names = Names::new(rt.alloc());
    let first = names.add(b"a")?;
    let second = names.add(b"b")?;
    let again = names.add(b"a")?;
    assert_eq!(rt; first, Name(0));
    assert_eq!(rt; second, Name(1));
    assert_eq!(rt; again, Name(0));
    Ok(())
}

#[test]
fn what_does_nothing_is_left_out(rt: HostRuntime) -> Result<(), Fail> {
    let program = [Op::Say(1), Op::Skip, Op::Say(2)];
    let code = lower(rt.alloc(), &program)?;
    assert_eq!(rt; code.len(), 2);
    assert_eq!(rt; code.get(0), Some(&Instr::Emit(1)));
    assert_eq!(rt; code.get(1), Some(&Instr::Emit(2)));
    Ok(())
}
