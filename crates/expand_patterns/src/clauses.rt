//! The clauses of functions, and the bindings of their names.

ghost use Rattle.std.specs.Prelude.{◌≡◌, ◌==◌, if◌then◌else◌, [], ◌∷◌, OnOk};
ghost use Rattle.sml_tree.specs.declared.tree_node.TreeNode.TheVariants as node;
ghost use Rattle.smlc_base.specs.declared.refusal.Refusal.TheVariants as refusal;
ghost use Rattle.sml_expansion.specs.Terms.{Term, node_of};
ghost use Rattle.sml_expansion.specs.Sources.{IsAt};
ghost use Rattle.sml_expansion.specs.Makings.{breaks};
ghost use Rattle.sml_expansion.specs.Clauses.{name_refusals, clause_refusals, binds_function, binds_functions};
ghost use Rattle.expand_patterns.specs.Expands.{Binds};

use crate::heads::{arguments_in, first_clause, head, name_of};
use crate::identifiers::binds_short;
use sml_expansion::{Bound, Ident, Parsed, Walk};
use sml_tree::TreeNode;
use smlc_base::{NoMemory, Place, Refusal};

/// The name of a clause is that of its function, and isn't long.
fn refuse_name(walk: &mut Walk, function: Ident, ident: Ident)
    ensures { walk.new ≡ record walk.old { made = (breaks (name_refusals function ident) walk.old.made).1 } }
{
    if ident.long || ident.key != function.key {
        walk.made.refuse(Refusal::BadBinding(ident.place));
    }
}

/// A clause has as many arguments as the first.
fn refuse_count(walk: &mut Walk, arguments: u32, count: u32, place: Place)
    ensures { walk.new ≡ record walk.old { made = (breaks (if arguments == count then [] else refusal.BadBinding place ∷ []) walk.old.made).1 } }
{
    if arguments != count {
        walk.made.refuse(Refusal::BadBinding(place));
    }
}

/// A clause is for its function's name, and has as many arguments.
fn refuse_clause(
    parsed: &Parsed,
    walk: &mut Walk,
    function: Ident,
    count: u32,
    at: u32,
) -> Result<(), NoMemory>
    ensures { OnOk result ((t : Term) → IsAt parsed.now at t → (node_of t ≡ node.MoreClauses → ⊥) → walk.new ≡ record walk.old { made = (breaks (clause_refusals parsed.now.names function count t) walk.old.made).1 }) }
{
    let head = head(parsed, at);
    refuse_name(walk, function, parsed.ident(name_of(parsed, head)));
    let arguments = arguments_in(parsed, head)?;
    refuse_count(walk, arguments, count, parsed.place(at));
    Ok(())
}

/// Each clause is for its function's name, and has as many arguments.
fn refuse_clauses(
    parsed: &Parsed,
    walk: &mut Walk,
    function: Ident,
    count: u32,
    at: u32,
) -> Result<(), NoMemory>
    ensures { OnOk result ((t : Term) → IsAt parsed.now at t → walk.new ≡ record walk.old { made = (breaks (clause_refusals parsed.now.names function count t) walk.old.made).1 }) }
{
    let mut rest = at;
    while let TreeNode::MoreClauses = parsed.node(rest) {
        let (first, others) = parsed.two(rest);
        refuse_clauses(parsed, walk, function, count, first)?;
        rest = others;
    }
    refuse_clause(parsed, walk, function, count, rest)
}

/// The binding of a function's name.
fn binds_function(
    parsed: &Parsed,
    walk: &mut Walk,
    bound: &mut Vec<Bound>,
    at: u32,
) -> Result<(), NoMemory>
    ensures { OnOk result ((t : Term) → IsAt parsed.now at t → Binds parsed.now.names (λ s. binds_function s.names t) walk.old walk.new bound.old.items bound.new.items) }
{
    let head = head(parsed, first_clause(parsed, at));
    let function = parsed.ident(name_of(parsed, head));
    let count = arguments_in(parsed, head)?;
    refuse_clauses(parsed, walk, function, count, at)?;
    binds_short(parsed, walk, bound, function)
}

/// The bindings of the functions of a declaration.
pub fn binds_functions(
    parsed: &Parsed,
    walk: &mut Walk,
    bound: &mut Vec<Bound>,
    at: u32,
) -> Result<(), NoMemory>
    ensures { OnOk result ((t : Term) → IsAt parsed.now at t → Binds parsed.now.names (λ s. binds_functions s.names t) walk.old walk.new bound.old.items bound.new.items) }
{
    let mut rest = at;
    while let TreeNode::MoreFunBinds = parsed.node(rest) {
        let (first, others) = parsed.two(rest);
        binds_function(parsed, walk, bound, first)?;
        rest = others;
    }
    binds_function(parsed, walk, bound, rest)
}
