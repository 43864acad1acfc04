//! What a body uses as values itself.

ghost use Rattle.std.specs.Prelude.{◌≡◌, ◌∷◌, [], OnOk};
ghost use Rattle.sml_tree.specs.Sets.{union, union_over};
ghost use Rattle.cps_ir.specs.Free.{vars, vars_all, vars_tests, vars_wanted};
ghost use Rattle.cps_free.specs.Same.{AreSame};
ghost use Rattle.used_values.specs.Own.{own_bind, own_rules, own_end, own_body};

use cps_ir::{Atom, Bind, Body, End, Rule, Test, Wanted};
use smlc_base::NoMemory;
use std::collections::BTreeSet;

fn insert(set: &mut BTreeSet<u32>, x: u32) -> Result<(), NoMemory>
    ensures { OnOk result (AreSame set.new.keys (union (x ∷ []) set.old.keys)) }
{
    set.insert(x)?;
    Ok(())
}

fn use_atom(set: &mut BTreeSet<u32>, atom: &Atom) -> Result<(), NoMemory>
    ensures { OnOk result (AreSame set.new.keys (union (vars atom.now) set.old.keys)) }
{
    match atom {
        Atom::Var(x) => insert(set, *x),
        Atom::Constant(_) => Ok(()),
    }
}

fn use_atoms(set: &mut BTreeSet<u32>, atoms: &[Atom]) -> Result<(), NoMemory>
    ensures { OnOk result (AreSame set.new.keys (union (vars_all atoms.now) set.old.keys)) }
{
    for atom in atoms {
        use_atom(set, atom)?;
    }
    Ok(())
}

fn use_wanted(set: &mut BTreeSet<u32>, want: &Wanted) -> Result<(), NoMemory>
    ensures { OnOk result (AreSame set.new.keys (union (vars_wanted want.now) set.old.keys)) }
{
    match want {
        Wanted::Exn { name, .. } => use_atom(set, name),
        _ => Ok(()),
    }
}

fn use_tests(set: &mut BTreeSet<u32>, tests: &[Test]) -> Result<(), NoMemory>
    ensures { OnOk result (AreSame set.new.keys (union (vars_tests tests.now) set.old.keys)) }
{
    for test in tests {
        use_wanted(set, &test.want)?;
    }
    Ok(())
}

fn use_rules(set: &mut BTreeSet<u32>, rules: &[Rule]) -> Result<(), NoMemory>
    ensures { OnOk result (AreSame set.new.keys (union (own_rules rules.now) set.old.keys)) }
{
    for rule in rules {
        use_tests(set, rule.tests.items())?;
    }
    Ok(())
}

fn use_bind(set: &mut BTreeSet<u32>, bind: &Bind) -> Result<(), NoMemory>
    ensures { OnOk result (AreSame set.new.keys (union (own_bind bind.now) set.old.keys)) }
{
    match bind {
        Bind::Make { atoms, .. } => use_atoms(set, atoms.items()),
        Bind::Pick { of, .. } => use_atom(set, of),
        Bind::Prim { atoms, .. } => use_atoms(set, atoms.items()),
        Bind::Fix(_) => Ok(()),
        Bind::Handler(_) => Ok(()),
        Bind::SetHandler(atom) => use_atom(set, atom),
    }
}

fn use_binds(set: &mut BTreeSet<u32>, binds: &[Bind]) -> Result<(), NoMemory>
    ensures { OnOk result (AreSame set.new.keys (union (union_over own_bind binds.now) set.old.keys)) }
{
    for bind in binds {
        use_bind(set, bind)?;
    }
    Ok(())
}

// The function part of a call is no value.
fn use_end(set: &mut BTreeSet<u32>, end: &End) -> Result<(), NoMemory>
    ensures { OnOk result (AreSame set.new.keys (union (own_end end.now) set.old.keys)) }
{
    match end {
        End::Equal {
            left,
            right,
            next,
            ..
        } => {
            use_atom(set, next)?;
            use_atom(set, right)?;
            use_atom(set, left)
        }
        End::Call { atoms, .. } => use_atoms(set, atoms.items()),
        End::Match { subject, rules, .. } => {
            use_rules(set, rules.items())?;
            use_atom(set, subject)
        }
        End::Throw(packet) => use_atom(set, packet),
        End::Halt => Ok(()),
    }
}

/// What a body uses itself.
pub(crate) fn use_body(set: &mut BTreeSet<u32>, body: &Body) -> Result<(), NoMemory>
    ensures { OnOk result (AreSame set.new.keys (union (own_body body.now) set.old.keys)) }
{
    use_end(set, &body.end)?;
    use_binds(set, body.binds.items())
}
