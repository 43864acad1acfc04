//! What a body binds and uses, from its end up.

ghost use Rattle.std.specs.Prelude.{◌≡◌, [], ◌∷◌, OnOk, map};
ghost use Rattle.sml_tree.specs.Sets.{union, union_over, without, row_at};
ghost use Rattle.cps_ir.specs.Free.{vars, vars_all, vars_tests, vars_wanted};
ghost use Rattle.cps_free.specs.Same.{AreSame};
ghost use Rattle.cps_free.specs.Rows.{function_free, names, rules_free, end_free, bind_free};

use crate::frees::row;
use crate::set::{insert, insert_but, remove};
use cps_ir::{Atom, Bind, End, Function, Rule, Test, Wanted};
use smlc_base::{NoMemory, Row};
use std::collections::BTreeSet;

fn use_atom(set: &mut BTreeSet<u32>, atom: &Atom) -> Result<(), NoMemory>
    ensures { OnOk result (AreSame set.new.keys (union (vars atom.now) set.old.keys)) }
{
    match atom {
        Atom::Var(x) => insert(set, *x),
        Atom::Constant(_) => Ok(()),
    }
}

fn use_atoms(set: &mut BTreeSet<u32>, atoms: &[Atom]) -> Result<(), NoMemory>
    ensures { OnOk result (AreSame set.new.keys (union (vars_all atoms.now) set.old.keys)) }
{
    for atom in atoms {
        use_atom(set, atom)?;
    }
    Ok(())
}

fn use_wanted(set: &mut BTreeSet<u32>, want: &Wanted) -> Result<(), NoMemory>
    ensures { OnOk result (AreSame set.new.keys (union (vars_wanted want.now) set.old.keys)) }
{
    match want {
        Wanted::Exn { name, .. } => use_atom(set, name),
        _ => Ok(()),
    }
}

fn use_tests(set: &mut BTreeSet<u32>, tests: &[Test]) -> Result<(), NoMemory>
    ensures { OnOk result (AreSame set.new.keys (union (vars_tests tests.now) set.old.keys)) }
{
    for test in tests {
        use_wanted(set, &test.want)?;
    }
    Ok(())
}

fn use_rules(set: &mut BTreeSet<u32>, rules: &[Rule], frees: &[Row<u32>]) -> Result<(), NoMemory>
    ensures { OnOk result (AreSame set.new.keys (rules_free (row_at frees.now) rules.now set.old.keys)) }
{
    for rule in rules {
        insert_but(set, row(frees, rule.body), &[])?;
        use_tests(set, rule.tests.items())?;
    }
    Ok(())
}

/// What the end of a body uses, where the set is empty.
pub(crate) fn use_end(
    set: &mut BTreeSet<u32>,
    end: &End,
    frees: &[Row<u32>],
) -> Result<(), NoMemory>
    requires { set.old.keys ≡ [] }
    ensures { OnOk result (AreSame set.new.keys (end_free (row_at frees.now) end.now)) }
{
    match end {
        End::Equal {
            left,
            right,
            next,
            ..
        } => {
            use_atom(set, next)?;
            use_atom(set, right)?;
            use_atom(set, left)
        }
        End::Call { function, atoms } => {
            use_atoms(set, atoms.items())?;
            use_atom(set, function)
        }
        End::Match {
            subject,
            rules,
            otherwise,
        } => {
            insert_but(set, row(frees, *otherwise), &[])?;
            use_rules(set, rules.items(), frees)?;
            use_atom(set, subject)
        }
        End::Throw(packet) => use_atom(set, packet),
        End::Halt => Ok(()),
    }
}

fn use_functions(
    set: &mut BTreeSet<u32>,
    functions: &[Function],
    frees: &[Row<u32>],
) -> Result<(), NoMemory>
    ensures { OnOk result (AreSame set.new.keys (union (union_over (function_free (row_at frees.now)) functions.now) set.old.keys)) }
{
    for function in functions {
        insert_but(set, row(frees, function.body), function.params.items())?;
    }
    Ok(())
}

fn remove_names(set: &mut BTreeSet<u32>, functions: &[Function])
    ensures { AreSame set.new.keys (without set.old.keys (map (λ f. f.name) functions.now)) }
{
    for function in functions {
        remove(set, function.name);
    }
}

/// What is free in front of a binding, from what is free behind it.
pub(crate) fn step_back(
    set: &mut BTreeSet<u32>,
    bind: &Bind,
    frees: &[Row<u32>],
) -> Result<(), NoMemory>
    ensures { OnOk result (AreSame set.new.keys (bind_free (row_at frees.now) bind.now set.old.keys)) }
{
    match bind {
        Bind::Make { var, atoms, .. } => {
            remove(set, *var);
            use_atoms(set, atoms.items())
        }
        Bind::Pick { var, of, .. } => {
            remove(set, *var);
            use_atom(set, of)
        }
        Bind::Prim { var, atoms, .. } => {
            remove(set, *var);
            use_atoms(set, atoms.items())
        }
        Bind::Fix(functions) => {
            use_functions(set, functions.items(), frees)?;
            remove_names(set, functions.items());
            Ok(())
        }
        Bind::Handler(var) => {
            remove(set, *var);
            Ok(())
        }
        Bind::SetHandler(atom) => use_atom(set, atom),
    }
}
