//! The counts at each form of a body.

ghost use Rattle.std.specs.Prelude.{◌≡◌, length};
ghost use Rattle.contract_census.specs.Counting.{noted, use_atom, use_atoms, use_wanted, use_tests, use_rules, bind_functions, call_atom, count_bind, count_end};

use crate::counts::{Count, Event};
use cps_ir::{Atom, Bind, End, Function, Rule, Test, Variable, Wanted};

/// An event of a variable.
pub(crate) fn note(counts: &mut Vec<Count>, x: Variable, event: Event)
    ensures { counts.new.items ≡ noted event x counts.old.items }
{
    let i = x as usize;
    if i < counts.len() {
        counts[i] = counts[i].after(event);
    }
}

fn use_atom(counts: &mut Vec<Count>, atom: Atom)
    ensures { counts.new.items ≡ use_atom atom counts.old.items }
{
    match atom {
        Atom::Var(x) => note(counts, x, Event::Used),
        Atom::Constant(_) => {}
    }
}

fn use_atoms(counts: &mut Vec<Count>, atoms: &[Atom])
    ensures { counts.new.items ≡ use_atoms atoms.now counts.old.items }
{
    for atom in atoms {
        use_atom(counts, *atom);
    }
}

fn use_wanted(counts: &mut Vec<Count>, want: &Wanted)
    ensures { counts.new.items ≡ use_wanted want.now counts.old.items }
{
    match want {
        Wanted::Exn { name, .. } => use_atom(counts, *name),
        _ => {}
    }
}

fn use_tests(counts: &mut Vec<Count>, tests: &[Test])
    ensures { counts.new.items ≡ use_tests tests.now counts.old.items }
{
    for test in tests {
        use_wanted(counts, &test.want);
    }
}

fn use_rules(counts: &mut Vec<Count>, rules: &[Rule])
    ensures { counts.new.items ≡ use_rules rules.now counts.old.items }
{
    for rule in rules {
        use_tests(counts, rule.tests.items());
    }
}

fn bind_functions(counts: &mut Vec<Count>, functions: &[Function], within: Option<Variable>)
    ensures { counts.new.items ≡ bind_functions within functions.now counts.old.items }
{
    for function in functions {
        let parameters = function.params.len();
        note(counts, function.name, Event::Bound { within, parameters });
    }
}

fn call_atom(counts: &mut Vec<Count>, function: Atom, within: Option<Variable>, atoms: usize)
    ensures { counts.new.items ≡ call_atom within function atoms counts.old.items }
{
    match function {
        Atom::Var(f) => note(counts, f, Event::Called { within, atoms }),
        Atom::Constant(_) => {}
    }
}

/// What a binding uses and binds.
pub(crate) fn count_bind(counts: &mut Vec<Count>, bind: &Bind, within: Option<Variable>)
    ensures { counts.new.items ≡ count_bind within bind.now counts.old.items }
{
    match bind {
        Bind::Make { atoms, .. } => use_atoms(counts, atoms.items()),
        Bind::Pick { of, .. } => use_atom(counts, *of),
        Bind::Prim { atoms, .. } => use_atoms(counts, atoms.items()),
        Bind::Fix(functions) => bind_functions(counts, functions.items(), within),
        Bind::Handler(_) => {}
        Bind::SetHandler(atom) => use_atom(counts, *atom),
    }
}

/// What the end of a body uses and calls.
pub(crate) fn count_end(counts: &mut Vec<Count>, end: &End, within: Option<Variable>)
    ensures { counts.new.items ≡ count_end within end.now counts.old.items }
{
    match end {
        End::Equal {
            left,
            right,
            next,
            ..
        } => {
            use_atom(counts, *left);
            use_atom(counts, *right);
            use_atom(counts, *next);
        }
        End::Call { function, atoms } => {
            call_atom(counts, *function, within, atoms.len());
            use_atom(counts, *function);
            use_atoms(counts, atoms.items());
        }
        End::Match { subject, rules, .. } => {
            use_atom(counts, *subject);
            use_rules(counts, rules.items());
        }
        End::Throw(packet) => use_atom(counts, *packet),
        End::Halt => {}
    }
}
