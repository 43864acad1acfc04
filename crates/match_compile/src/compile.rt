//! The tests and names of a pattern, by a walk with a list of tasks.

ghost use Rattle.std.specs.Prelude.{◌≡◌, List, [], ◌∷◌, ◌++◌, reverse, IfOk, OnOk, Bool, slice_get};
ghost use Rattle.sml_tree.specs.BareParts.{IsNumbered};
ghost use Rattle.match_laws.specs.Compile.{slot_of, test, named, con_tests, rule_of};
ghost use Rattle.match_compile.specs.Walk.{task, own_tests, own_names, field_tasks, tasks_in, tests_at, names_at, tasks_at};

use crate::constructors::tag;
use sml_tree::bare::{Con, Field, Node};
use sml_types::Tables;
use smlc_base::{Name, Named, NoMemory, Path, Row, RuleTests, Test, Want};
use std::alloc::Global;

/// A pattern that is still to be walked over, and the way to what it is matched with.
#[derive(Drop)]
pub struct Task {
    pub node: u32,
    pub path: Path,
}

// A way with one step more.
fn longer(alloc: Global, path: &Path, step: u32) -> Result<Path, NoMemory>
    ensures { IfOk result (λ r. r ≡ path.now ++ step ∷ []) }
{
    let mut steps = Path::from_steps(alloc, path.steps())?;
    steps.push(step)?;
    Ok(steps)
}

fn add_test(alloc: Global, found: &mut Vec<Test>, path: &Path, want: Want) -> Result<(), NoMemory>
    ensures { OnOk result (found.new.items ≡ found.old.items ++ test path.now want ∷ []) }
{
    let path = Path::from_steps(alloc, path.steps())?;
    found.push(Test { path, want })?;
    Ok(())
}

fn add_name(alloc: Global, found: &mut Vec<Named>, path: &Path, name: Name) -> Result<(), NoMemory>
    ensures { OnOk result (found.new.items ≡ found.old.items ++ named name path.now ∷ []) }
{
    let path = Path::from_steps(alloc, path.steps())?;
    found.push(Named { name, path })?;
    Ok(())
}

// The test of a constructor.
fn add_con(
    alloc: Global,
    tables: &Tables,
    found: &mut Vec<Test>,
    path: &Path,
    con: Con,
    applied: bool,
) -> Result<(), NoMemory>
    ensures { OnOk result (found.new.items ≡ found.old.items ++ con_tests tables.now.names applied con path.now) }
{
    match con {
        Con::Data {
            type_name,
            number,
            takes,
        } => add_test(
            alloc,
            found,
            path,
            Want::Tag(tag(tables, type_name, number, takes)),
        ),
        Con::Ref => Ok(()),
        Con::Exn { name, takes: _ } => add_test(alloc, found, path, Want::Exn { name, applied }),
        Con::Library(exn) => add_test(alloc, found, path, Want::Library { exn, applied }),
    }
}

// The tests of a pattern itself.
fn add_tests(
    alloc: Global,
    tables: &Tables,
    found: &mut Vec<Test>,
    node: &Node,
    path: &Path,
) -> Result<(), NoMemory>
    ensures { OnOk result (found.new.items ≡ found.old.items ++ own_tests tables.now.names node.now path.now) }
{
    match node {
        Node::PatInt(n) => add_test(alloc, found, path, Want::Num(*n)),
        Node::PatChar(c) => add_test(alloc, found, path, Want::Num(i64::from(*c))),
        Node::PatText(t) => add_test(alloc, found, path, Want::Text(*t)),
        Node::PatCon(con) => add_con(alloc, tables, found, path, *con, false),
        Node::PatApp(con, _) => add_con(alloc, tables, found, path, *con, true),
        _ => Ok(()),
    }
}

// The name of a pattern itself.
fn add_names(
    alloc: Global,
    found: &mut Vec<Named>,
    node: &Node,
    path: &Path,
) -> Result<(), NoMemory>
    ensures { OnOk result (found.new.items ≡ found.old.items ++ own_names node.now path.now) }
{
    match node {
        Node::PatVar(x) => add_name(alloc, found, path, *x),
        Node::PatAs(x, _) => add_name(alloc, found, path, *x),
        Node::PatAsCon(x, _) => add_name(alloc, found, path, *x),
        _ => Ok(()),
    }
}

fn push(work: &mut Vec<Task>, node: u32, path: Path) -> Result<(), NoMemory>
    ensures { OnOk result (work.new.items ≡ work.old.items ++ task node path ∷ []) }
{
    work.push(Task { node, path })?;
    Ok(())
}

fn push_fields(
    alloc: Global,
    work: &mut Vec<Task>,
    fields: &[Field],
    path: &Path,
) -> Result<(), NoMemory>
    ensures { OnOk result (work.new.items ≡ work.old.items ++ reverse (field_tasks fields.now path.now)) }
{
    let mut i = fields.len();
    while i > 0 {
        i -= 1;
        let way = longer(alloc, path, fields[i].slot)?;
        push(work, fields[i].node, way)?;
    }
    Ok(())
}

// The field that a constructor's argument is.
fn slot(con: Con) -> u32
    ensures { result ≡ slot_of con }
{
    match con {
        Con::Data {
            type_name: _,
            number: _,
            takes: _,
        } => 0,
        Con::Ref => 0,
        Con::Exn { name: _, takes: _ } => 1,
        Con::Library(_) => 1,
    }
}

// A pattern in the same place.
fn push_same(alloc: Global, work: &mut Vec<Task>, node: u32, path: &Path) -> Result<(), NoMemory>
    ensures { OnOk result (work.new.items ≡ work.old.items ++ task node path.now ∷ []) }
{
    let way = Path::from_steps(alloc, path.steps())?;
    push(work, node, way)
}

// The parts of a pattern, the first one last.
fn push_parts(alloc: Global, work: &mut Vec<Task>, node: &Node, path: &Path) -> Result<(), NoMemory>
    ensures { OnOk result (work.new.items ≡ work.old.items ++ reverse (tasks_in node.now path.now)) }
{
    match node {
        Node::PatApp(con, q) => {
            let way = longer(alloc, path, slot(*con))?;
            push(work, *q, way)
        }
        Node::PatRecord(fields) => push_fields(alloc, work, fields.items(), path),
        Node::PatTyped(q, _) => push_same(alloc, work, *q, path),
        Node::PatAs(_, q) => push_same(alloc, work, *q, path),
        Node::PatAsCon(_, q) => push_same(alloc, work, *q, path),
        _ => Ok(()),
    }
}

// One turn of the walk: what the task's node has itself, and its parts as tasks.
fn turn(
    alloc: Global,
    nodes: &[Node],
    tables: &Tables,
    found: &mut Vec<Test>,
    bound: &mut Vec<Named>,
    work: &mut Vec<Task>,
    task: &Task,
) -> Result<(), NoMemory>
    ensures found { OnOk result (found.new.items ≡ found.old.items ++ tests_at tables.now.names (slice_get nodes.now task.now.node) task.now.path) }
    ensures bound { OnOk result (bound.new.items ≡ bound.old.items ++ names_at (slice_get nodes.now task.now.node) task.now.path) }
    ensures work { OnOk result (work.new.items ≡ work.old.items ++ reverse (tasks_at (slice_get nodes.now task.now.node) task.now.path)) }
{
    match nodes.get(task.node as usize) {
        Some(node) => {
            add_tests(alloc, tables, found, node, &task.path)?;
            add_names(alloc, bound, node, &task.path)?;
            push_parts(alloc, work, node, &task.path)
        }
        None => Ok(()),
    }
}

/// The tests and the names of the pattern at a node, by the tables of the type names.
pub fn compile_pattern(
    alloc: Global,
    nodes: &[Node],
    tables: &Tables,
    pat: u32,
) -> Result<RuleTests, NoMemory>
    requires { IsNumbered nodes.now }
    ensures { IfOk result (λ r. r ≡ rule_of tables.now.names nodes.now pat) }
{
    let mut found = Vec::new(alloc);
    let mut bound = Vec::new(alloc);
    let mut work = Vec::new(alloc);
    push(&mut work, pat, Path::new(alloc))?;
    while let Some(task) = work.pop() {
        turn(
            alloc, nodes, tables, &mut found, &mut bound, &mut work, &task,
        )?;
    }
    Ok(RuleTests {
        tests: Row::from_vec(found),
        names: Row::from_vec(bound),
    })
}
