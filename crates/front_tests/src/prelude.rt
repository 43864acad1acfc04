//! Names of the library, and its text.

use sml_prelude::{
    BaseType, Value, is_function, library, short_of, takes_argument, type_of, value_of,
};
use sml_tree::bare::Con;
use smlc_base::Primitive;
use std::test::Fail;

#[test]
fn looks_up(rt: HostRuntime) -> Result<(), Fail> {
    assert_eq!(rt; value_of(b"size"), Some(Value::Builtin(Primitive::Size)));
    assert_eq!(rt; value_of(b"ref"), Some(Value::Constructor(Con::Ref)));
    assert_eq!(rt; type_of(b"order"), Some(BaseType::Named(7)));
    assert_eq!(rt; short_of(b"String.^"), Some(b"^".as_slice()));
    assert!(rt; takes_argument(Con::Ref));
    assert!(rt; is_function(Primitive::Size));
    Ok(())
}

#[test]
fn has_its_text(rt: HostRuntime) -> Result<(), Fail> {
    let text = library(rt.alloc())?;
    assert_eq!(rt; text.len(), 3698);
    Ok(())
}
