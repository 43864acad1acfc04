//! What other crates expand.

ghost use Rattle.std.specs.Prelude.{◌≡◌, IfOk, OnOk};
ghost use Rattle.sml_expansion.specs.Terms.{Term, two};
ghost use Rattle.sml_expansion.specs.Sources.{IsAt};
ghost use Rattle.smlc_base.specs.declared.place.Place.{Place};
ghost use Rattle.sml_tree.specs.declared.tree_node.TreeNode.TheVariants as node;
ghost use Rattle.sml_expansion.specs.Bindings.{type_dec, datatype_dec, exception_dec};
ghost use Rattle.sml_expansion.specs.Types.{labels, type_of};
ghost use Rattle.sml_expansion.specs.Expressions.{decs};
ghost use Rattle.sml_expansion.specs.Patterns.{whole, patterns, env_of};
ghost use Rattle.sml_derive.specs.Steps.{scope, made, writes_pattern, seen, unseen, forgotten, declared, hidden, Binds, Declares};

use crate::number::number;
use sml_expansion::{Bound, Parsed, Walk};
use sml_tree::bare::Lab;
use smlc_base::{NoMemory, Place};

/// The labels of rows.
pub fn labels(parsed: &Parsed, walk: &Walk, at: u32) -> Result<Vec<(Lab, Place)>, NoMemory>
    ensures { IfOk result (λ labs. (t : Term) → IsAt parsed.now at t → labs.items ≡ labels parsed.now.names t) }
{
    expand_types::labels::labels(walk.allocator(), parsed, at)
}

/// A type as it is written.
pub fn type_of(parsed: &Parsed, walk: &mut Walk, at: u32) -> Result<u32, NoMemory>
    ensures walk { OnOk result ((t : Term) → IsAt parsed.now at t → walk.new ≡ made (type_of (scope parsed.now walk.old) t) walk.old) }
    ensures number { IfOk result (λ number. (t : Term) → IsAt parsed.now at t → number ≡ (type_of (scope parsed.now walk.old) t walk.old.made).0) }
{
    expand_types::type_of(parsed, &walk.bindings, &mut walk.made, at)
}

/// A pattern in which no name stands twice, with the variables that it binds.
pub fn whole_pattern(parsed: &Parsed, walk: &mut Walk, at: u32) -> Result<Vec<Bound>, NoMemory>
    ensures walk { OnOk result ((t : Term) → IsAt parsed.now at t → walk.new ≡ writes_pattern (whole (patterns (scope parsed.now walk.old) t)) walk.old) }
    ensures vars { IfOk result (λ vars. (t : Term) → IsAt parsed.now at t → vars.items ≡ (whole (patterns (scope parsed.now walk.old) t) walk.old.made).0.vars) }
{
    let mut vars = Vec::new(walk.allocator());
    expand_patterns::whole(parsed, walk, &mut vars, at)?;
    Ok(vars)
}

/// Variables come into scope.
pub fn see(walk: &mut Walk, vars: &[Bound]) -> Result<(), NoMemory>
    ensures { OnOk result (walk.new ≡ seen (env_of vars.now) walk.old) }
{
    expand_patterns::put_in_force(walk, vars)
}

/// The variables since so many bindings go out of scope.
pub fn unsee(walk: &mut Walk, around: usize)
    ensures { walk.new ≡ unseen around walk.old }
{
    walk.bindings.values.undo_to(around);
}

/// What was bound since there were so many values and types goes out of scope.
pub fn forget(walk: &mut Walk, values: usize, types: usize)
    ensures { walk.new ≡ forgotten values types walk.old }
{
    walk.bindings.values.undo_to(values);
    walk.bindings.types.undo_to(types);
}

/// What was bound between two numbers of values and two numbers of types goes out of scope.
pub fn hide(
    walk: &mut Walk,
    values: usize,
    inner_values: usize,
    types: usize,
    inner_types: usize,
) -> Result<(), NoMemory>
    ensures { OnOk result (walk.new ≡ record { made = walk.old.made; bindings = record { values = hidden values inner_values walk.old.bindings.values; types = hidden types inner_types walk.old.bindings.types; tyvars = walk.old.bindings.tyvars }; marks = walk.old.marks }) }
{
    walk.bindings.values.cut(values, inner_values)?;
    walk.bindings.types.cut(types, inner_types)
}

/// A `type` declaration.
pub fn type_dec(parsed: &Parsed, walk: &mut Walk, place: Place, at: u32) -> Result<(), NoMemory>
    ensures { OnOk result ((t : Term) → IsAt parsed.now at t → walk.new ≡ declared (type_dec (scope parsed.now walk.old) place t) walk.old) }
{
    expand_types::type_dec(parsed, walk, place, at)
}

/// A `datatype` declaration.
pub fn datatype_dec(parsed: &Parsed, walk: &mut Walk, place: Place, at: u32) -> Result<(), NoMemory>
    ensures { OnOk result ((t : Term) → IsAt parsed.now at t → walk.new ≡ declared (datatype_dec (scope parsed.now walk.old) place t) walk.old) }
{
    expand_types::datatype_dec(parsed, walk, place, at)
}

/// An `exception` declaration.
pub fn exception_dec(
    parsed: &Parsed,
    walk: &mut Walk,
    place: Place,
    at: u32,
) -> Result<u32, NoMemory>
    ensures { IfOk result (λ trees. (t : Term) → IsAt parsed.now at t → Declares (exception_dec (scope parsed.now walk.old) place t) walk.old walk.new trees) }
{
    let shown = expand_types::exception_dec(parsed, walk, place, at)?;
    number(shown.len())
}

/// The patterns of a list, with the variables that they bind.
pub fn pattern(
    parsed: &Parsed,
    walk: &mut Walk,
    vars: &mut Vec<Bound>,
    at: u32,
) -> Result<(), NoMemory>
    ensures { OnOk result ((t : Term) → IsAt parsed.now at t → Binds (patterns (scope parsed.now walk.old) t) walk.old walk.new vars.old.items vars.new.items) }
{
    expand_patterns::patterns::patterns(parsed, walk, vars, at)?;
    Ok(())
}
