//! Each call that takes memory, with ample memory.

use sml_tree::bare::Lab;
use sml_types::{Field, Ty, TyVar, Types};
use smlc_base::Row;
use std::test::Fail;

// The types 'a, 'a -> 'a, 'a list and {1 : 'a list}.
#[test]
fn one_of_each(rt: HostRuntime) -> Result<(), Fail> {
    let mut types = Types::new(rt.alloc());
    let a = types.var(TyVar { num: 0, eq: false })?;
    assert_eq!(rt; a, Ty(0));
    let function = types.arrow(a, a)?;
    assert_eq!(rt; function, Ty(1));
    let mut args = Row::new(rt.alloc());
    args.push(a)?;
    let list = types.named(3, args)?;
    assert_eq!(rt; list, Ty(2));
    let mut fields = Row::new(rt.alloc());
    fields.push(Field {
        lab: Lab::Num(1),
        ty: list,
    })?;
    let record = types.fields(fields)?;
    assert_eq!(rt; record, Ty(3));
    assert_eq!(rt; types.forms().len(), 4);
    Ok(())
}
