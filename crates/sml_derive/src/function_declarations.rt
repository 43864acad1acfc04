//! Declarations of functions.

ghost use Rattle.std.specs.Prelude.{◌≡◌, ◌≢◌, ◌++◌, ◌∷◌, [], IfOk, OnOk};
ghost use Rattle.smlc_base.specs.declared.place.Place.{Place};
ghost use Rattle.sml_tree.specs.Parts.{parts_of};
ghost use Rattle.sml_tree.specs.declared.bare.Node.TheVariants as bare;
ghost use Rattle.sml_tree.specs.declared.tree_node.TreeNode.TheVariants as node;
ghost use Rattle.sml_expansion.specs.declared.mark.Mark.TheVariants.{Open, Close};
ghost use Rattle.sml_expansion.specs.Terms.{Term, two};
ghost use Rattle.sml_expansion.specs.Sources.{IsAt, node_at};
ghost use Rattle.sml_expansion.specs.Bare.{variable_nodes, tuple_unless_one, fields};
ghost use Rattle.sml_expansion.specs.Labels.{numbers};
ghost use Rattle.sml_expansion.specs.Marks.{marks};
ghost use Rattle.sml_expansion.specs.Makings.{gives};
ghost use Rattle.sml_expansion.specs.TypeVariables.{numbers_of};
ghost use Rattle.sml_expansion.specs.Expressions.{decs, functions, rec_bindings};
ghost use Rattle.sml_derive.specs.Forms.{times};
ghost use Rattle.sml_derive.specs.FunctionDeclarations.{names_of, function_of, head_of, fns_begin, fn_end, function_begins, function_ends};
ghost use Rattle.sml_derive.specs.Steps.{Declares, Writes, scope, made, marked, behind, writes_pattern};

use crate::expressions::expression;
use crate::forms;
use crate::identifiers::Stands;
use crate::number::{add, one_tree};
use crate::parts::{see, type_of, unsee};
use crate::value_declarations::{rec_row, see_tyvars, unsee_tyvars};
use expand_patterns::{arguments_in, binds_functions, first_clause, head, whole_arguments};
use expand_types::type_variables::numbers_of;
use sml_expansion::labels::tuple_fields;
use sml_expansion::once::vars_once;
use sml_expansion::{Bound, Parsed, Walk};
use sml_tree::TreeNode;
use sml_tree::bare::Node;
use smlc_base::{Name, NoMemory, Place};

/// A `fun` declaration: one tree.
#[cycle(phrases)]
pub(crate) fn fun_dec(parsed: &Parsed, walk: &mut Walk, at: u32) -> Result<u32, NoMemory>
    requires { parts_of (node_at parsed.now at) ≡ 2 }
    ensures { IfOk result (λ trees. (p : Place) (vs b : Term) → IsAt parsed.now at (two node.Fun p vs b) → Declares (decs (scope parsed.now walk.old) (two node.Fun p vs b)) walk.old walk.new trees) }
{
    let place = parsed.place(at);
    let (explicit, body) = parsed.two(at);
    let around = walk.bindings.tyvars.len();
    let vars = see_tyvars(parsed, walk, explicit, body)?;
    let names = function_names(parsed, walk, body)?;
    see(walk, &names)?;
    walk.open()?;
    walk.open()?;
    functions(parsed, walk, body)?;
    close_rec_dec(walk, place, &vars, &names)?;
    unsee_tyvars(walk, around);
    Ok(1)
}

/// The names of functions, of which none stands twice.
fn function_names(parsed: &Parsed, walk: &mut Walk, at: u32) -> Result<Vec<Bound>, NoMemory>
    ensures walk { OnOk result ((b : Term) → IsAt parsed.now at b → walk.new ≡ made (names_of parsed.now.names b) walk.old) }
    ensures names { IfOk result (λ names. (b : Term) → IsAt parsed.now at b → names.items ≡ (names_of parsed.now.names b walk.old.made).0) }
{
    let mut names = Vec::new(walk.allocator());
    binds_functions(parsed, walk, &mut names, at)?;
    vars_once(&mut walk.made, &names)?;
    Ok(names)
}

/// The end of a recursive declaration.
pub(crate) fn close_rec_dec(
    walk: &mut Walk,
    place: Place,
    vars: &[(u32, u32)],
    names: &[Bound],
) -> Result<(), NoMemory>
    ensures { OnOk result (walk.new ≡ marked (Close (bare.ValRec (numbers_of vars.now) (rec_bindings names.now)) place ∷ []) walk.old) }
{
    let numbers = numbers_of(walk.allocator(), vars)?;
    let bindings = rec_row(walk.allocator(), names)?;
    walk.close(Node::ValRec(numbers, bindings), place)
}

/// The functions of a declaration.
#[cycle(phrases)]
fn functions(parsed: &Parsed, walk: &mut Walk, at: u32) -> Result<(), NoMemory>
    ensures { OnOk result ((t : Term) → IsAt parsed.now at t → walk.new ≡ behind (function_of (scope parsed.now walk.old) t) walk.old) }
{
    let mut next = at;
    while let TreeNode::MoreFunBinds = parsed.node(next) {
        let (first, rest) = parsed.two(next);
        functions(parsed, walk, first)?;
        next = rest;
    }
    function(parsed, walk, next)
}

/// A function.
#[cycle(phrases)]
fn function(parsed: &Parsed, walk: &mut Walk, at: u32) -> Result<(), NoMemory>
    requires { node_at parsed.now at ≢ node.MoreFunBinds }
    ensures { OnOk result ((t : Term) → IsAt parsed.now at t → walk.new ≡ behind (function_of (scope parsed.now walk.old) t) walk.old) }
{
    let place = parsed.place(at);
    let count = arguments_in(parsed, head(parsed, first_clause(parsed, at)))?;
    let names = walk.made.new_names(b"v", count)?;
    open_function(walk, place, &names)?;
    clauses(parsed, walk, at)?;
    close_function(walk, place, count)
}

/// Before the rules of a function with these variables.
fn open_function(walk: &mut Walk, place: Place, names: &[u32]) -> Result<(), NoMemory>
    ensures { OnOk result (walk.new ≡ marked (function_begins place names.now) walk.old) }
{
    open_fns(walk, place, names)?;
    walk.open()?;
    argument(walk, place, names)
}

/// The beginnings of `fn`s with these variables.
fn open_fns(walk: &mut Walk, place: Place, names: &[u32]) -> Result<(), NoMemory>
    ensures { OnOk result (walk.new ≡ marked (fns_begin place names.now) walk.old) }
{
    for name in names {
        walk.open()?;
        walk.leaf(Node::PatVar(Name(*name)), place)?;
    }
    Ok(())
}

/// What a function's rules are tried on: its one variable, or a tuple of them.
fn argument(walk: &mut Walk, place: Place, names: &[u32]) -> Result<(), NoMemory>
    ensures { OnOk result (walk.new ≡ marked (marks (tuple_unless_one place (variable_nodes place names.now))) walk.old) }
{
    if names.len() == 1 {
        variables(walk, place, names)?;
        Ok(())
    } else {
        walk.open()?;
        let trees = variables(walk, place, names)?;
        forms::close_tuple(walk, place, trees)
    }
}

/// Variables, one behind the other.
fn variables(walk: &mut Walk, place: Place, names: &[u32]) -> Result<u32, NoMemory>
    ensures { IfOk result (λ trees. Writes (gives (variable_nodes place names.now)) walk.old walk.new trees) }
{
    let mut trees = 0;
    for name in names {
        walk.leaf(Node::Var(Name(*name)), place)?;
        trees = add(trees, 1)?;
    }
    Ok(trees)
}

/// Behind the rules of a function with so many variables.
fn close_function(walk: &mut Walk, place: Place, count: u32) -> Result<(), NoMemory>
    ensures { OnOk result (walk.new ≡ marked (function_ends place count) walk.old) }
{
    forms::close_case(walk, place)?;
    close_fns(walk, place, count)
}

/// The ends of so many `fn`s.
fn close_fns(walk: &mut Walk, place: Place, count: u32) -> Result<(), NoMemory>
    ensures { OnOk result (walk.new ≡ marked (times count (fn_end place)) walk.old) }
{
    for _ in 0..count {
        forms::close_fn(walk, place)?;
    }
    Ok(())
}

/// The rules of a function's clauses.
#[cycle(phrases)]
fn clauses(parsed: &Parsed, walk: &mut Walk, at: u32) -> Result<(), NoMemory>
    ensures { OnOk result ((t : Term) → IsAt parsed.now at t → walk.new ≡ behind (functions (scope parsed.now walk.old) t) walk.old) }
{
    let mut next = at;
    while let TreeNode::MoreClauses = parsed.node(next) {
        let (first, rest) = parsed.two(next);
        clauses(parsed, walk, first)?;
        next = rest;
    }
    clause(parsed, walk, next)
}

/// The rule of a clause.
#[cycle(phrases)]
fn clause(parsed: &Parsed, walk: &mut Walk, at: u32) -> Result<(), NoMemory>
    requires { node_at parsed.now at ≢ node.MoreClauses }
    ensures { OnOk result ((t : Term) → IsAt parsed.now at t → walk.new ≡ behind (functions (scope parsed.now walk.old) t) walk.old) }
{
    match parsed.node(at) {
        TreeNode::Clause => {
            let (left, body) = parsed.two(at);
            let around = walk.bindings.values.len();
            let vars = head_pattern(parsed, walk, parsed.place(at), left)?;
            see(walk, &vars)?;
            expression(parsed, walk, Stands::Elsewhere, body)?;
            unsee(walk, around);
            Ok(())
        }
        TreeNode::TypedClause => {
            let (left, written, body) = parsed.three(at);
            let around = walk.bindings.values.len();
            let vars = head_pattern(parsed, walk, parsed.place(at), left)?;
            let ty = type_of(parsed, walk, written)?;
            see(walk, &vars)?;
            walk.open()?;
            expression(parsed, walk, Stands::Elsewhere, body)?;
            walk.close(Node::Typed(0, ty), parsed.place(body))?;
            unsee(walk, around);
            Ok(())
        }
        TreeNode::MoreFunBinds => {
            let (first, rest) = parsed.two(at);
            functions(parsed, walk, first)?;
            functions(parsed, walk, rest)
        }
        _ => Ok(()),
    }
}

/// The pattern of a clause's arguments, with the variables that it binds.
fn head_pattern(
    parsed: &Parsed,
    walk: &mut Walk,
    place: Place,
    at: u32,
) -> Result<Vec<Bound>, NoMemory>
    ensures walk { OnOk result ((t : Term) → IsAt parsed.now at t → walk.new ≡ writes_pattern (head_of (scope parsed.now walk.old) place t) walk.old) }
    ensures vars { IfOk result (λ vars. (t : Term) → IsAt parsed.now at t → vars.items ≡ (head_of (scope parsed.now walk.old) place t walk.old.made).0.vars) }
{
    let mut vars = Vec::new(walk.allocator());
    let count = arguments_in(parsed, at)?;
    if count == 1 {
        let trees = whole_arguments(parsed, walk, &mut vars, at)?;
        one_tree(trees)?;
    } else {
        walk.open()?;
        let trees = whole_arguments(parsed, walk, &mut vars, at)?;
        close_pattern(walk, place, trees)?;
    }
    Ok(vars)
}

/// The end of a tuple pattern with other than one part: a check that only a tree outside the grammar fails.
fn close_pattern(walk: &mut Walk, place: Place, count: u32) -> Result<(), NoMemory>
    ensures several { OnOk result (count ≢ 1) }
    ensures walk { OnOk result (walk.new ≡ marked (Close (bare.PatRecord (fields (numbers 0 count))) place ∷ []) walk.old) }
{
    if count == 1 {
        Err(NoMemory)
    } else {
        let fields = tuple_fields(walk.allocator(), count)?;
        walk.close(Node::PatRecord(fields), place)
    }
}
