//! Each call that takes memory, with ample memory.

use infer_parts::instance::instance;
use infer_parts::{covers, make_library, non_expansive};
use sml_tree::Node;
use sml_tree::bare::Con;
use sml_types::{Ty, TyVar};
use smlc_base::Row;
use std::test::Fail;

#[test]
fn the_library_has_ten_type_names(rt: HostRuntime) -> Result<(), Fail> {
    let library = make_library(rt.alloc(), 7)?;
    assert_eq!(rt; library.tables.names.len(), 10);
    assert_eq!(rt; library.types.forms().len(), 3);
    Ok(())
}

// ref 1, and its parts.
#[test]
fn a_new_cell_is_expansive(rt: HostRuntime) -> Result<(), Fail> {
    let mut nodes = Row::new(rt.alloc());
    nodes.push(Node::App(1, 2))?;
    nodes.push(Node::Constructor(Con::Ref))?;
    nodes.push(Node::Int(1))?;
    let table = non_expansive(rt.alloc(), nodes.items())?;
    assert_eq!(rt; table.iter().filter(|plain| **plain).count(), 2);
    Ok(())
}

// The argument of `::`, for the elements of a new type.
#[test]
fn the_argument_of_cons_is_copied(rt: HostRuntime) -> Result<(), Fail> {
    let library = make_library(rt.alloc(), 7)?;
    let mut types = library.types;
    let mut next = 8;
    let vars = [TyVar { num: 7, eq: false }];
    let copy = instance(rt.alloc(), &mut types, &mut next, 0, Ty(2), &vars)?;
    assert_eq!(rt; copy, Ty(5));
    assert_eq!(rt; next, 9);
    Ok(())
}

// The argument of `::` has the parameter of `list`, and no other variable.
#[test]
fn the_argument_of_cons_is_covered(rt: HostRuntime) -> Result<(), Fail> {
    let library = make_library(rt.alloc(), 7)?;
    let vars = [TyVar { num: 7, eq: false }];
    assert!(rt; covers(rt.alloc(), &library.types, &vars, Ty(2))?);
    let others = [TyVar { num: 7, eq: true }];
    assert!(rt; !covers(rt.alloc(), &library.types, &others, Ty(2))?);
    Ok(())
}
