//! Small types, one for each answer, and large ones that their forms share.

ghost use Rattle.std.specs.Prelude.{ℕ, ◌<◌, ◌≤◌, length, IfOk};

use sml_tree::bare::Lab;
use sml_types::{Equality, Field, Tables, Ty, TyVar, TypeName, Types};
use sml_unify::{Subst, UnifyError, unify};
use smlc_base::{NoMemory, Row};
use std::alloc::Global;
use std::test::Fail;

// int, string, bool and list, by number.
fn tables(alloc: Global) -> Result<Tables, NoMemory> {
    let mut names = Row::new(alloc);
    for _ in 0..4 {
        names.push(TypeName {
            text: Row::new(alloc),
            params: Row::new(alloc),
            eq: Equality::Parts,
            cons: Row::new(alloc),
        })?;
    }
    Ok(Tables { names })
}

// The type of a pair.
fn pair(alloc: Global, types: &mut Types, first: Ty, second: Ty) -> Result<Ty, NoMemory>
    requires first { first.0 < length types.old }
    requires second { second.0 < length types.old }
    ensures there { IfOk result (λ t. t.0 < length types.new) }
    ensures longer { length types.old ≤ length types.new }
{
    let mut fields = Row::new(alloc);
    fields.push(Field {
        lab: Lab::Num(1),
        ty: first,
    })?;
    fields.push(Field {
        lab: Lab::Num(2),
        ty: second,
    })?;
    types.fields(fields)
}

// A function type of 2^levels leaves, in as many forms as levels.
fn tower(types: &mut Types, bottom: Ty, levels: u32) -> Result<Ty, NoMemory>
    requires { bottom.0 < length types.old }
    ensures there { IfOk result (λ t. t.0 < length types.new) }
    ensures longer { length types.old ≤ length types.new }
{
    let mut top = bottom;
    'levels: for _ in 0..levels {
        top = types.arrow(top, top)?;
    }
    Ok(top)
}

#[test]
fn two_heads_clash(rt: HostRuntime) -> Result<(), Fail> {
    let tables = tables(rt.alloc())?;
    let mut types = Types::new(rt.alloc());
    let int = types.named(0, Row::new(rt.alloc()))?;
    let string = types.named(1, Row::new(rt.alloc()))?;
    let mut subst = Subst::new(rt.alloc());
    let answer = unify(&mut subst, &mut types, &tables, int, string);
    assert_eq!(rt; answer, Err(UnifyError::Clash));
    Ok(())
}

#[test]
fn a_variable_in_its_list_is_a_cycle(rt: HostRuntime) -> Result<(), Fail> {
    let tables = tables(rt.alloc())?;
    let mut types = Types::new(rt.alloc());
    let a = types.var(TyVar { num: 0, eq: false })?;
    let mut args = Row::new(rt.alloc());
    args.push(a)?;
    let list = types.named(3, args)?;
    let mut subst = Subst::new(rt.alloc());
    let answer = unify(&mut subst, &mut types, &tables, a, list);
    assert_eq!(rt; answer, Err(UnifyError::Cycle));
    Ok(())
}

#[test]
fn functions_admit_no_equality(rt: HostRuntime) -> Result<(), Fail> {
    let tables = tables(rt.alloc())?;
    let mut types = Types::new(rt.alloc());
    let a = types.var(TyVar { num: 0, eq: true })?;
    let int = types.named(0, Row::new(rt.alloc()))?;
    let function = types.arrow(int, int)?;
    let mut subst = Subst::new(rt.alloc());
    let answer = unify(&mut subst, &mut types, &tables, a, function);
    assert_eq!(rt; answer, Err(UnifyError::NoEquality));
    Ok(())
}

#[test]
fn pairs_are_made_equal(rt: HostRuntime) -> Result<(), Fail> {
    let tables = tables(rt.alloc())?;
    let mut types = Types::new(rt.alloc());
    let a = types.var(TyVar { num: 0, eq: false })?;
    let b = types.var(TyVar { num: 1, eq: false })?;
    let int = types.named(0, Row::new(rt.alloc()))?;
    let bool = types.named(2, Row::new(rt.alloc()))?;
    let left = pair(rt.alloc(), &mut types, a, int)?;
    let right = pair(rt.alloc(), &mut types, bool, b)?;
    let mut subst = Subst::new(rt.alloc());
    let answer = unify(&mut subst, &mut types, &tables, left, right);
    assert_eq!(rt; answer, Ok(()));
    assert!(rt; subst.bound.items() == [Some(bool), Some(int)].as_slice());
    Ok(())
}

// As trees both types have 2^40 leaves.
#[test]
fn shared_types_are_walked_once(rt: HostRuntime) -> Result<(), Fail> {
    let tables = tables(rt.alloc())?;
    let mut types = Types::new(rt.alloc());
    let a = types.var(TyVar { num: 0, eq: true })?;
    let int = types.named(0, Row::new(rt.alloc()))?;
    let left = tower(&mut types, a, 40)?;
    let right = tower(&mut types, int, 40)?;
    let mut subst = Subst::new(rt.alloc());
    let answer = unify(&mut subst, &mut types, &tables, left, right);
    assert_eq!(rt; answer, Ok(()));
    assert!(rt; subst.bound.items() == [Some(int)].as_slice());
    let answer = unify(&mut subst, &mut types, &tables, a, right);
    assert_eq!(rt; answer, Err(UnifyError::Clash));
    Ok(())
}
