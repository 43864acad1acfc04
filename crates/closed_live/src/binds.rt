//! What a body binds and uses, from its end up.

ghost use Rattle.std.specs.Prelude.{◌≡◌, [], ◌++◌, OnOk};
ghost use Rattle.sml_tree.specs.Sets.{row_at};
ghost use Rattle.place_laws.specs.Live.{without_all, used_by, all_used_by, used_by_makers, used_by_want, used_by_tests, names_of};
ghost use Rattle.closed_live.specs.Same.{AreSame};
ghost use Rattle.closed_live.specs.Rows.{rules_live, end_live, bind_live};

use crate::lives::row;
use crate::set::{insert, insert_all, remove};
use closure_ir::{Bind, End, Maker, Operand, Rule, Test, Wanted};
use smlc_base::{NoMemory, Row};
use std::collections::BTreeSet;

fn use_operand(set: &mut BTreeSet<u32>, operand: &Operand) -> Result<(), NoMemory>
    ensures { OnOk result (AreSame set.new.keys (used_by operand.now ++ set.old.keys)) }
{
    match operand {
        Operand::Path { var, .. } => insert(set, *var),
        _ => Ok(()),
    }
}

fn use_operands(set: &mut BTreeSet<u32>, operands: &[Operand]) -> Result<(), NoMemory>
    ensures { OnOk result (AreSame set.new.keys (all_used_by operands.now ++ set.old.keys)) }
{
    for operand in operands {
        use_operand(set, operand)?;
    }
    Ok(())
}

fn use_makers(set: &mut BTreeSet<u32>, makers: &[Maker]) -> Result<(), NoMemory>
    ensures { OnOk result (AreSame set.new.keys (used_by_makers makers.now ++ set.old.keys)) }
{
    for maker in makers {
        use_operands(set, maker.fields.items())?;
    }
    Ok(())
}

fn use_wanted(set: &mut BTreeSet<u32>, want: &Wanted) -> Result<(), NoMemory>
    ensures { OnOk result (AreSame set.new.keys (used_by_want want.now ++ set.old.keys)) }
{
    match want {
        Wanted::Exn { name, .. } => use_operand(set, name),
        _ => Ok(()),
    }
}

fn use_tests(set: &mut BTreeSet<u32>, tests: &[Test]) -> Result<(), NoMemory>
    ensures { OnOk result (AreSame set.new.keys (used_by_tests tests.now ++ set.old.keys)) }
{
    for test in tests {
        use_wanted(set, &test.want)?;
    }
    Ok(())
}

fn use_rules(
    set: &mut BTreeSet<u32>,
    subject: &Operand,
    rules: &[Rule],
    lives: &[Row<u32>],
) -> Result<(), NoMemory>
    ensures { OnOk result (AreSame set.new.keys (rules_live (row_at lives.now) subject.now rules.now ++ set.old.keys)) }
{
    for rule in rules {
        insert_all(set, row(lives, rule.body))?;
        use_tests(set, rule.tests.items())?;
        use_operand(set, subject)?;
    }
    Ok(())
}

/// What lives before the end of a body, where the set is empty.
pub(crate) fn use_end(
    set: &mut BTreeSet<u32>,
    end: &End,
    lives: &[Row<u32>],
) -> Result<(), NoMemory>
    requires { set.old.keys ≡ [] }
    ensures { OnOk result (AreSame set.new.keys (end_live (row_at lives.now) end.now)) }
{
    match end {
        End::Equal {
            left,
            right,
            next,
            ..
        } => {
            use_operand(set, next)?;
            use_operand(set, right)?;
            use_operand(set, left)
        }
        End::Call {
            function,
            operands,
            ..
        } => {
            use_operands(set, operands.items())?;
            use_operand(set, function)
        }
        End::Match {
            subject,
            rules,
            otherwise,
        } => {
            insert_all(set, row(lives, *otherwise))?;
            use_rules(set, subject, rules.items(), lives)
        }
        End::Throw(packet) => use_operand(set, packet),
        End::Halt => Ok(()),
    }
}

fn remove_names(set: &mut BTreeSet<u32>, makers: &[Maker])
    ensures { AreSame set.new.keys (without_all (names_of makers.now) set.old.keys) }
{
    for maker in makers {
        remove(set, maker.var);
    }
}

/// What lives before a binding, from what lives behind it.
pub(crate) fn step_back(set: &mut BTreeSet<u32>, bind: &Bind) -> Result<(), NoMemory>
    ensures { OnOk result (AreSame set.new.keys (bind_live bind.now set.old.keys)) }
{
    match bind {
        Bind::Make(makers) => {
            remove_names(set, makers.items());
            use_makers(set, makers.items())
        }
        Bind::Let { var, value } => {
            remove(set, *var);
            use_operand(set, value)
        }
        Bind::Prim { var, operands, .. } => {
            remove(set, *var);
            use_operands(set, operands.items())
        }
        Bind::Handler(var) => {
            remove(set, *var);
            Ok(())
        }
        Bind::SetHandler(value) => use_operand(set, value),
    }
}
