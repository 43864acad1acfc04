//! The rules of constructors.

ghost use Rattle.std.specs.Prelude.{◌≡◌, ◌<◌, [], ℕ, List, Option, IfOk, length};
ghost use Rattle.sml_tree.specs.declared.bare.Bare.{Bare};
ghost use Rattle.sml_types.specs.declared.types.TyVar.{TyVar};
ghost use Rattle.sml_types.specs.Typing.{takes_argument, is_exception};
ghost use Rattle.sml_types.specs.Library.{arrow};
ghost use Rattle.sml_unify.specs.Steps.{AreBelow};
ghost use Rattle.infer_parts.specs.Rounds.{AreArgumentsThere};
ghost use Rattle.infer_state.specs.declared.settled.Settled.{Settled};
ghost use Rattle.infer_state.specs.Variables.{AreLaidOut, node_var, name_var};
ghost use Rattle.infer_nodes.specs.Posed.{StandsFor, IsMadeWith, IsPosed};
ghost use Rattle.infer_nodes.specs.Made.{AreArgumentsCovered};
ghost use Rattle.infer_nodes.specs.Asked.{PosesRule, ConAt};

use crate::exception::exn_con;
use crate::instance::data_type;
use crate::make::{REF, function, library_type};
use crate::vars::{name_ty, node_ty};
use infer_state::{Declared, Failure};
use sml_tree::bare::Con;
use sml_tree::{Bare, Node};
use sml_types::{Ty, Types};
use sml_unify::pair::Pair;
use smlc_base::{LibraryExn, NoMemory, Row};
use std::alloc::Global;

// A constructor with new variables for the parameters of its type name. What is asked of an exception's type goes into the pairs.
fn con_type(
    alloc: Global,
    bare: &Bare,
    declared: &Declared,
    types: &mut Types,
    next: &mut u32,
    con: Con,
    pairs: &mut Row<Pair>,
) -> Result<Ty, NoMemory>
    requires below { AreBelow types.old next.old }
    requires laid { AreLaidOut bare.now types.old declared.now.starts }
    requires there { AreArgumentsThere types.old declared.now.tables.names }
    requires covered { AreArgumentsCovered types.old declared.now.tables.names }
    requires empty { pairs.old ≡ [] }
    ensures { IfOk result (λ t. IsMadeWith declared.now.tables.names (λ f u. ConAt bare.now types.old declared.now.tables.names f con u) next.old types.old next.new types.new pairs.new t) }
{
    match con {
        Con::Data {
            type_name,
            number,
            takes,
        } => {
            let names = declared.tables.names.items();
            let made = data_type(alloc, types, next, names, type_name, number, takes)?;
            Ok(made)
        }
        Con::Ref => {
            let names = declared.tables.names.items();
            let made = data_type(alloc, types, next, names, REF, 0, true)?;
            Ok(made)
        }
        Con::Library(exn) => {
            let made = library_type(alloc, types, exn)?;
            Ok(made)
        }
        Con::Exn { name, takes } => {
            let made = exn_con(
                alloc,
                bare,
                declared.starts,
                types,
                next,
                name,
                takes,
                pairs,
            )?;
            Ok(made)
        }
    }
}

// What asks that a constructor has the type of a variable.
fn constructed(
    alloc: Global,
    bare: &Bare,
    declared: &Declared,
    types: &mut Types,
    next: &mut u32,
    at: Ty,
    con: Con,
) -> Result<Row<Pair>, NoMemory>
    requires below { AreBelow types.old next.old }
    requires laid { AreLaidOut bare.now types.old declared.now.starts }
    requires there { AreArgumentsThere types.old declared.now.tables.names }
    requires covered { AreArgumentsCovered types.old declared.now.tables.names }
    ensures { IfOk result (λ pairs. (v : TyVar) → StandsFor types.old at v → IsPosed declared.now.tables.names (λ f. ConAt bare.now types.old declared.now.tables.names f con (f v)) next.old types.old next.new types.new pairs) }
{
    let mut pairs = Row::new(alloc);
    let made = con_type(alloc, bare, declared, types, next, con, &mut pairs)?;
    pairs.push(Pair {
        left: at,
        right: made,
    })?;
    Ok(pairs)
}

// What asks that a constructor is a function between the types of two variables.
fn constructs(
    alloc: Global,
    bare: &Bare,
    declared: &Declared,
    types: &mut Types,
    next: &mut u32,
    from: Ty,
    to: Ty,
    con: Con,
) -> Result<Row<Pair>, NoMemory>
    requires below { AreBelow types.old next.old }
    requires laid { AreLaidOut bare.now types.old declared.now.starts }
    requires there { AreArgumentsThere types.old declared.now.tables.names }
    requires covered { AreArgumentsCovered types.old declared.now.tables.names }
    requires from { from.0 < length types.old }
    requires to { to.0 < length types.old }
    ensures { IfOk result (λ pairs. (v w : TyVar) → StandsFor types.old from v → StandsFor types.old to w → IsPosed declared.now.tables.names (λ f. ConAt bare.now types.old declared.now.tables.names f con (arrow (f v) (f w))) next.old types.old next.new types.new pairs) }
{
    let mut pairs = Row::new(alloc);
    let made = con_type(alloc, bare, declared, types, next, con, &mut pairs)?;
    let left = function(types, from, to)?;
    pairs.push(Pair { left, right: made })?;
    Ok(pairs)
}

fn takes_argument(con: Con) -> bool
    ensures { result ≡ takes_argument con }
{
    match con {
        Con::Data { takes, .. } => takes,
        Con::Ref => true,
        Con::Exn { takes, .. } => takes,
        Con::Library(LibraryExn::FailExn) => true,
        Con::Library(_) => false,
    }
}

fn is_exception(con: Con) -> bool
    ensures { result ≡ is_exception con }
{
    match con {
        Con::Exn { .. } => true,
        Con::Library(_) => true,
        _ => false,
    }
}

/// The rule of a constructor in an expression.
pub(crate) fn constructor_rule(
    alloc: Global,
    bare: &Bare,
    declared: &Declared,
    types: &mut Types,
    next: &mut u32,
    at: Ty,
    node: &Node,
) -> Result<Row<Pair>, Failure>
    requires below { AreBelow types.old next.old }
    requires laid { AreLaidOut bare.now types.old declared.now.starts }
    requires there { AreArgumentsThere types.old declared.now.tables.names }
    requires covered { AreArgumentsCovered types.old declared.now.tables.names }
    ensures { (settled : List (Option Settled)) (i : ℕ) → StandsFor types.old at (node_var bare.now i) → PosesRule bare.now declared.now settled i node.now next.old types.old next.new types.new result }
{
    let Node::Constructor(con) = node else {
        return Err(Failure::NoMemory);
    };
    let pairs = constructed(alloc, bare, declared, types, next, at, *con)?;
    Ok(pairs)
}

/// The rule of a constructor in a pattern.
pub(crate) fn pat_con_rule(
    alloc: Global,
    bare: &Bare,
    declared: &Declared,
    types: &mut Types,
    next: &mut u32,
    at: Ty,
    node: &Node,
) -> Result<Row<Pair>, Failure>
    requires below { AreBelow types.old next.old }
    requires laid { AreLaidOut bare.now types.old declared.now.starts }
    requires there { AreArgumentsThere types.old declared.now.tables.names }
    requires covered { AreArgumentsCovered types.old declared.now.tables.names }
    ensures { (settled : List (Option Settled)) (i : ℕ) → StandsFor types.old at (node_var bare.now i) → PosesRule bare.now declared.now settled i node.now next.old types.old next.new types.new result }
{
    let Node::PatCon(con) = node else {
        return Err(Failure::NoMemory);
    };
    if takes_argument(*con) {
        return Err(Failure::Untypable);
    }
    let pairs = constructed(alloc, bare, declared, types, next, at, *con)?;
    Ok(pairs)
}

/// The rule of a constructor with its argument in a pattern.
pub(crate) fn pat_app_rule(
    alloc: Global,
    bare: &Bare,
    declared: &Declared,
    types: &mut Types,
    next: &mut u32,
    at: Ty,
    node: &Node,
) -> Result<Row<Pair>, Failure>
    requires below { AreBelow types.old next.old }
    requires laid { AreLaidOut bare.now types.old declared.now.starts }
    requires there { AreArgumentsThere types.old declared.now.tables.names }
    requires covered { AreArgumentsCovered types.old declared.now.tables.names }
    requires at { at.0 < length types.old }
    ensures { (settled : List (Option Settled)) (i : ℕ) → StandsFor types.old at (node_var bare.now i) → PosesRule bare.now declared.now settled i node.now next.old types.old next.new types.new result }
{
    let Node::PatApp(con, pat) = node else {
        return Err(Failure::NoMemory);
    };
    if !takes_argument(*con) {
        return Err(Failure::Untypable);
    }
    let from = node_ty(bare, declared.starts, types, *pat)?;
    let pairs = constructs(alloc, bare, declared, types, next, from, at, *con)?;
    Ok(pairs)
}

/// The rule of an exception that gets a further name.
pub(crate) fn same_exception_rule(
    alloc: Global,
    bare: &Bare,
    declared: &Declared,
    types: &mut Types,
    next: &mut u32,
    node: &Node,
) -> Result<Row<Pair>, Failure>
    requires below { AreBelow types.old next.old }
    requires laid { AreLaidOut bare.now types.old declared.now.starts }
    requires there { AreArgumentsThere types.old declared.now.tables.names }
    requires covered { AreArgumentsCovered types.old declared.now.tables.names }
    ensures { (settled : List (Option Settled)) (i : ℕ) → PosesRule bare.now declared.now settled i node.now next.old types.old next.new types.new result }
{
    let Node::SameException(name, con) = node else {
        return Err(Failure::NoMemory);
    };
    if !is_exception(*con) {
        return Err(Failure::Untypable);
    }
    let own = name_ty(bare, declared.starts, types, *name)?;
    let pairs = constructed(alloc, bare, declared, types, next, own, *con)?;
    Ok(pairs)
}
