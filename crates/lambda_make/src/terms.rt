//! The terms of a tree, node by node.

ghost use Rattle.std.specs.Prelude.{◌≡◌, List, [], ◌∷◌, ◌++◌, map, IfOk};
ghost use Rattle.sml_tree.specs.BareParts.{IsNumbered};
ghost use Rattle.match_laws.specs.Compile.{case_of, cases_of, bind_of};
ghost use Rattle.lambda_laws.specs.Make.{part_of, term_of};

use lambda_ir::{Bind, Case, Part, Term};
use match_compile::compile_pattern;
use sml_tree::bare::{Binding, Field, Node, RecBinding, Rule};
use sml_types::Tables;
use smlc_base::{NoMemory, Row};
use std::alloc::Global;

fn case(alloc: Global, nodes: &[Node], tables: &Tables, rule: Rule) -> Result<Case, NoMemory>
    requires { IsNumbered nodes.now }
    ensures { IfOk result (λ c. c ≡ case_of tables.now.names nodes.now rule) }
{
    let compiled = compile_pattern(alloc, nodes, tables, rule.pat)?;
    Ok(Case {
        tests: compiled.tests,
        names: compiled.names,
        body: rule.body,
    })
}

fn cases(
    alloc: Global,
    nodes: &[Node],
    tables: &Tables,
    rules: &[Rule],
) -> Result<Row<Case>, NoMemory>
    requires { IsNumbered nodes.now }
    ensures { IfOk result (λ r. r ≡ cases_of tables.now.names nodes.now rules.now) }
{
    let mut found = Row::new(alloc);
    for rule in rules {
        found.push(case(alloc, nodes, tables, *rule)?)?;
    }
    Ok(found)
}

fn bind(alloc: Global, nodes: &[Node], tables: &Tables, binding: Binding) -> Result<Bind, NoMemory>
    requires { IsNumbered nodes.now }
    ensures { IfOk result (λ b. b ≡ bind_of tables.now.names nodes.now binding) }
{
    let compiled = compile_pattern(alloc, nodes, tables, binding.pat)?;
    Ok(Bind {
        tests: compiled.tests,
        names: compiled.names,
        right: binding.right,
    })
}

fn binds(
    alloc: Global,
    nodes: &[Node],
    tables: &Tables,
    bindings: &[Binding],
) -> Result<Row<Bind>, NoMemory>
    requires { IsNumbered nodes.now }
    ensures { IfOk result (λ r. r ≡ map (bind_of tables.now.names nodes.now) bindings.now) }
{
    let mut found = Row::new(alloc);
    for binding in bindings {
        found.push(bind(alloc, nodes, tables, *binding)?)?;
    }
    Ok(found)
}

fn parts(alloc: Global, fields: &[Field]) -> Result<Row<Part>, NoMemory>
    ensures { IfOk result (λ r. r ≡ map part_of fields.now) }
{
    let mut found = Row::new(alloc);
    for field in fields {
        found.push(Part {
            slot: field.slot,
            node: field.node,
        })?;
    }
    Ok(found)
}

fn group(alloc: Global, bindings: &[RecBinding]) -> Result<Row<RecBinding>, NoMemory>
    ensures { IfOk result (λ r. r ≡ bindings.now) }
{
    let found = Vec::from_slice(alloc, bindings)?;
    Ok(Row::from_vec(found))
}

// The term of a node.
fn term(alloc: Global, nodes: &[Node], tables: &Tables, node: &Node) -> Result<Term, NoMemory>
    requires { IsNumbered nodes.now }
    ensures { IfOk result (λ t. t ≡ term_of tables.now.names nodes.now node.now) }
{
    match node {
        Node::Int(n) => Ok(Term::Int(*n)),
        Node::Char(c) => Ok(Term::Char(*c)),
        Node::Text(t) => Ok(Term::Text(*t)),
        Node::Var(x) => Ok(Term::Var(*x)),
        Node::Constructor(c) => Ok(Term::Constructor(*c)),
        Node::Builtin(f) => Ok(Term::Builtin(*f)),
        Node::Record(fields) => Ok(Term::Tuple(parts(alloc, fields.items())?)),
        Node::App(f, a) => Ok(Term::App(*f, *a)),
        Node::Case(e, rules) => {
            let row = cases(alloc, nodes, tables, rules.items())?;
            Ok(Term::Match(*e, row))
        }
        Node::Fn(rules) => Ok(Term::Fn(cases(alloc, nodes, tables, rules.items())?)),
        Node::Raise(e) => Ok(Term::Raise(*e)),
        Node::Handle(e, rules) => {
            let row = cases(alloc, nodes, tables, rules.items())?;
            Ok(Term::Handle(*e, row))
        }
        Node::Typed(e, _) => Ok(Term::Same(*e)),
        Node::Let(d, e) => Ok(Term::Let(*d, *e)),
        Node::Finish => Ok(Term::Finish),
        Node::Val(_, bindings) => Ok(Term::Binds(binds(alloc, nodes, tables, bindings.items())?)),
        Node::ValRec(_, bindings) => Ok(Term::Group(group(alloc, bindings.items())?)),
        Node::Type(_) => Ok(Term::Nothing),
        Node::Datatype(_) => Ok(Term::Nothing),
        Node::Exception(x, _) => Ok(Term::NewExn(*x)),
        Node::SameException(x, c) => Ok(Term::SameExn(*x, *c)),
        Node::NoException(x) => Ok(Term::NewExn(*x)),
        _ => Ok(Term::Gone),
    }
}

/// The terms that stand for the nodes of a tree, by number.
pub fn terms(alloc: Global, nodes: &[Node], tables: &Tables) -> Result<Row<Term>, NoMemory>
    requires { IsNumbered nodes.now }
    ensures { IfOk result (λ r. r ≡ map (term_of tables.now.names nodes.now) nodes.now) }
{
    let mut found = Row::new(alloc);
    for node in nodes {
        found.push(term(alloc, nodes, tables, node)?)?;
    }
    Ok(found)
}
