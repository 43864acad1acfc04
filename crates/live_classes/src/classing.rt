//! Classes.

ghost use Rattle.std.specs.Prelude.{◌≡◌, ◌&&◌, cond, nat_le, map, length, [], ◌∷◌, ◌++◌, None, IfOk, OnOk};
ghost use Rattle.sml_tree.specs.Sets.{row_at};
ghost use Rattle.cps_ir.specs.Program.{code_at};
ghost use Rattle.cps_ir.specs.Slim.{layouts};
ghost use Rattle.lifetime_users.specs.Users.{begins_with, bindings, classes as classes_in};
ghost use Rattle.live_classes.specs.Keys.{is_lead, class_with, key_at, classes_by};

use crate::groups::{group, group_all};
use crate::homes::{homes, variables};
use crate::keys::key;
use cps_free::row;
use cps_ir::Cps;
use cps_survey::Survey;
use lifetime_users::{Class, ClassRows};
use smlc_base::{Label, NoMemory, Row};
use std::alloc::Global;
use variable_users::users_of_variables;

fn begins(group: &[u32], x: u32) -> bool
    ensures { result ≡ begins_with x group.now }
{
    match group.first() {
        Some(first) => x == *first,
        None => false,
    }
}

fn is_large(group: &[u32], users: &[u32]) -> bool
    ensures { result ≡ (nat_le 3 (length group.now) && nat_le 2 (length users.now)) }
{
    3 <= group.len() && 2 <= users.len()
}

fn leads(x: u32, group: &[u32], users: &[u32]) -> bool
    ensures { result ≡ is_lead x group.now users.now }
{
    begins(group, x) && is_large(group, users)
}

fn labels(alloc: Global, users: &[u32]) -> Result<Vec<Label>, NoMemory>
    ensures { IfOk result (λ v. v.items ≡ map (λ l. record { 0 = l }) users.now) }
{
    let mut labels = Vec::new(alloc);
    for user in users {
        labels.push(Label(*user))?;
    }
    Ok(labels)
}

fn class(alloc: Global, group: &[u32], users: &[u32]) -> Result<Class, NoMemory>
    ensures { IfOk result (λ k. k ≡ class_with group.now users.now) }
{
    let vars = group.iter().copied().collect(alloc)?;
    let labels = labels(alloc, users)?;
    Ok(Class {
        vars: Row::from_vec(vars),
        users: Row::from_vec(labels),
    })
}

// A class comes where its first variable comes.
fn add_class(
    alloc: Global,
    found: &mut Vec<Class>,
    x: u32,
    group: &[u32],
    users: &[u32],
) -> Result<(), NoMemory>
    ensures { OnOk result (found.new.items ≡ found.old.items ++ cond (is_lead x group.now users.now) (class_with group.now users.now ∷ []) []) }
{
    if leads(x, group, users) {
        found.push(class(alloc, group, users)?)?;
    }
    Ok(())
}

// The classes among these variables, by the tables of homes and of users.
fn classes_among(
    alloc: Global,
    homes: &[Option<u32>],
    users: &[Row<u32>],
    variables: &[u32],
) -> Result<Vec<Class>, NoMemory>
    ensures { IfOk result (λ v. v.items ≡ classes_by (key_at homes.now users.now) (row_at users.now) variables.now variables.now) }
{
    let groups = group_all(alloc, homes, users, variables)?;
    let mut found = Vec::new(alloc);
    for x in variables {
        let key = key(alloc, homes, users, *x)?;
        add_class(alloc, &mut found, *x, group(&groups, &key), row(users, *x))?;
    }
    Ok(found)
}

/// The classes of a program, of which this is the survey.
pub fn classes(alloc: Global, program: &Cps, survey: &Survey) -> Result<ClassRows, NoMemory>
    requires layouts { survey.now.layouts ≡ layouts (code_at program.now.bodies 0) }
    requires bindings { survey.now.bindings ≡ bindings None (code_at program.now.bodies 0) }
    ensures { IfOk result (λ k. k.of ≡ classes_in (code_at program.now.bodies 0)) }
{
    let _ = program.bodies();
    let n = program.variables() as usize;
    let bindings = survey.bindings.items();
    let homes = homes(alloc, bindings, n)?;
    let users = users_of_variables(alloc, survey.layouts.items(), n)?;
    let variables = variables(alloc, bindings)?;
    let found = classes_among(alloc, &homes, &users, &variables)?;
    Ok(ClassRows {
        of: Row::from_vec(found),
    })
}
