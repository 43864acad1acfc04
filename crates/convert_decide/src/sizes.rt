//! How many variables a term takes at most.

ghost use Rattle.std.specs.Prelude.{◌≡◌, ◌+◌, IfOk, length};
ghost use Rattle.convert_laws.specs.Convert.{new_steps, steps_of, size_cases, size_parts, size_binds, size_group, size_term};
ghost use Rattle.convert_decide.specs.Table.{fact_in};

use crate::table::{Fact, fact_in};
use lambda_ir::{Bind, Case, Part, Term};
use sml_tree::bare::RecBinding;
use smlc_base::{Named, NoMemory};

/// The sum, if it fits.
pub fn sum(m: u32, n: u32) -> Result<u32, NoMemory>
    ensures { IfOk result (λ s. s ≡ m + n) }
{
    match m.checked_add(n) {
        Some(total) => Ok(total),
        None => Err(NoMemory),
    }
}

fn fits(n: usize) -> Result<u32, NoMemory>
    ensures { IfOk result (λ m. m ≡ n) }
{
    match u32::try_from(n) {
        Ok(m) => Ok(m),
        Err(_) => Err(NoMemory),
    }
}

/// How many steps a way has from where it leaves the one before it.
pub fn new_steps(gone: &[u32], path: &[u32]) -> usize
    ensures { result ≡ new_steps gone.now path.now }
{
    let [step, later @ ..] = path else {
        return 0;
    };
    let [before, gone @ ..] = gone else {
        return path.len();
    };
    if *step == *before {
        new_steps(gone, later)
    } else {
        path.len()
    }
}

/// How many fields are picked for names.
pub fn steps_of(names: &[Named]) -> Result<u32, NoMemory>
    ensures { IfOk result (λ n. n ≡ steps_of names.now) }
{
    let mut total = 0;
    let mut gone: &[u32] = &[];
    for named in names {
        let path = named.path.steps();
        total = sum(total, fits(new_steps(gone, path))?)?;
        gone = path;
    }
    Ok(total)
}

fn size_of(facts: &[Fact], term: u32) -> u32
    ensures { result ≡ (fact_in facts.now term).size }
{
    fact_in(facts, term).size
}

/// How many variables a rule takes at most.
pub fn case_size(facts: &[Fact], case: &Case) -> Result<u32, NoMemory>
    ensures { IfOk result (λ n. n ≡ steps_of case.now.names + (fact_in facts.now case.now.body).size) }
{
    sum(steps_of(case.names.items())?, size_of(facts, case.body))
}

/// How many variables rules take at most.
pub fn cases_size(facts: &[Fact], cases: &[Case]) -> Result<u32, NoMemory>
    ensures { IfOk result (λ n. n ≡ size_cases (λ c. (fact_in facts.now c).size) cases.now) }
{
    let mut total = 0;
    for case in cases {
        total = sum(total, case_size(facts, case)?)?;
    }
    Ok(total)
}

fn parts_size(facts: &[Fact], parts: &[Part]) -> Result<u32, NoMemory>
    ensures { IfOk result (λ n. n ≡ size_parts (λ c. (fact_in facts.now c).size) parts.now) }
{
    let mut total = 0;
    for part in parts {
        total = sum(total, sum(2, size_of(facts, part.node))?)?;
    }
    Ok(total)
}

fn bind_size(facts: &[Fact], bind: &Bind) -> Result<u32, NoMemory>
    ensures { IfOk result (λ n. n ≡ 2 + (steps_of bind.now.names + (fact_in facts.now bind.now.right).size)) }
{
    let names = steps_of(bind.names.items())?;
    sum(2, sum(names, size_of(facts, bind.right))?)
}

fn binds_size(facts: &[Fact], binds: &[Bind]) -> Result<u32, NoMemory>
    ensures { IfOk result (λ n. n ≡ size_binds (λ c. (fact_in facts.now c).size) binds.now) }
{
    let mut total = 0;
    for bind in binds {
        total = sum(total, bind_size(facts, bind)?)?;
    }
    Ok(total)
}

fn group_size(facts: &[Fact], bindings: &[RecBinding]) -> Result<u32, NoMemory>
    ensures { IfOk result (λ n. n ≡ size_group (λ c. (fact_in facts.now c).size) bindings.now) }
{
    let mut total = 0;
    for binding in bindings {
        total = sum(total, sum(1, size_of(facts, binding.right))?)?;
    }
    Ok(total)
}

fn match_size(facts: &[Fact], own: u32, subject: u32, cases: &[Case]) -> Result<u32, NoMemory>
    ensures { IfOk result (λ n. n ≡ own + ((fact_in facts.now subject).size + size_cases (λ c. (fact_in facts.now c).size) cases.now)) }
{
    let rules = cases_size(facts, cases)?;
    sum(own, sum(size_of(facts, subject), rules)?)
}

fn fn_size(facts: &[Fact], cases: &[Case]) -> Result<u32, NoMemory>
    ensures { IfOk result (λ n. n ≡ 3 + size_cases (λ c. (fact_in facts.now c).size) cases.now) }
{
    sum(3, cases_size(facts, cases)?)
}

fn tuple_size(facts: &[Fact], parts: &[Part]) -> Result<u32, NoMemory>
    ensures { IfOk result (λ n. n ≡ 1 + size_parts (λ c. (fact_in facts.now c).size) parts.now) }
{
    sum(1, parts_size(facts, parts)?)
}

fn app_size(facts: &[Fact], function: u32, argument: u32) -> Result<u32, NoMemory>
    ensures { IfOk result (λ n. n ≡ 8 + ((fact_in facts.now function).size + (fact_in facts.now argument).size)) }
{
    sum(8, sum(size_of(facts, function), size_of(facts, argument))?)
}

/// How many variables a term takes at most, by what its parts take.
pub fn term_size(facts: &[Fact], term: &Term) -> Result<u32, NoMemory>
    ensures { IfOk result (λ n. n ≡ size_term (λ c. (fact_in facts.now c).size) term.now) }
{
    match term {
        Term::Tuple(parts) => tuple_size(facts, parts.items()),
        Term::App(f, a) => app_size(facts, *f, *a),
        Term::Match(e, cases) => match_size(facts, 2, *e, cases.items()),
        Term::Fn(cases) => fn_size(facts, cases.items()),
        Term::Raise(e) => sum(2, size_of(facts, *e)),
        Term::Handle(e, cases) => match_size(facts, 5, *e, cases.items()),
        Term::Same(e) => Ok(size_of(facts, *e)),
        Term::Let(d, e) => sum(size_of(facts, *d), size_of(facts, *e)),
        Term::Binds(binds) => binds_size(facts, binds.items()),
        Term::Group(bindings) => group_size(facts, bindings.items()),
        Term::NewExn(_) => Ok(1),
        _ => Ok(0),
    }
}
