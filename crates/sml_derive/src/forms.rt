//! Nodes of derived forms: what stands before, between and behind their parts.

ghost use Rattle.std.specs.Prelude.{◌≡◌, OnOk, ◌++◌, ◌∷◌, [], codes};
ghost use Rattle.sml_tree.specs.declared.bare.Node.TheVariants as bare;
ghost use Rattle.sml_expansion.specs.declared.mark.Mark.TheVariants.{Open, Close};
ghost use Rattle.sml_expansion.specs.Forests.{grown, none};
ghost use Rattle.sml_expansion.specs.Marks.{marks};
ghost use Rattle.sml_expansion.specs.Makings.{gives};
ghost use Rattle.sml_expansion.specs.Bare.{tuple_node, eta_node, con_true, con_false, con_pattern, con_nil, con_node, wild_node, fields};
ghost use Rattle.sml_expansion.specs.Labels.{numbers};
ghost use Rattle.sml_expansion.specs.Types.{labs_of};
ghost use Rattle.sml_derive.specs.Steps.{behind, marked};
ghost use Rattle.sml_derive.specs.Forms.{new_eta, times, case_end, let_end, cons_begins, cons_end, while_begins, turn_begins, call_node, turn_ends, while_ends};

use sml_expansion::Walk;
use sml_expansion::labels::{fields, tuple_fields};
use sml_tree::bare::{Con, Lab, Node, RecBinding};
use smlc_base::{Name, NoMemory, Place, Row};

pub(crate) const TRUE: Con = Con::Data {
    type_name: 4,
    number: 1,
    takes: false,
};

pub(crate) const FALSE: Con = Con::Data {
    type_name: 4,
    number: 0,
    takes: false,
};

pub(crate) const NIL: Con = Con::Data {
    type_name: 5,
    number: 0,
    takes: false,
};

pub(crate) const CONS: Con = Con::Data {
    type_name: 5,
    number: 1,
    takes: true,
};

/// `()`
pub(crate) fn unit(walk: &mut Walk, place: Place) -> Result<(), NoMemory>
    ensures { OnOk result (walk.new ≡ behind (gives (tuple_node place none)) walk.old) }
{
    let fields = Row::new(walk.allocator());
    walk.leaf(Node::Record(fields), place)
}

/// The function that applies a primitive or a constructor.
pub(crate) fn eta(walk: &mut Walk, place: Place, node: Node) -> Result<(), NoMemory>
    ensures { OnOk result (walk.new ≡ behind (new_eta place (grown node place none)) walk.old) }
{
    let variable = walk.made.new_name(b"v")?;
    walk.open()?;
    walk.leaf(Node::PatVar(Name(variable)), place)?;
    walk.open()?;
    walk.leaf(node, place)?;
    walk.leaf(Node::Var(Name(variable)), place)?;
    walk.close(Node::App(0, 0), place)?;
    close_fn(walk, place)
}

/// The end of a `fn`.
pub(crate) fn close_fn(walk: &mut Walk, place: Place) -> Result<(), NoMemory>
    ensures { OnOk result (walk.new ≡ marked (Close (bare.Fn []) place ∷ []) walk.old) }
{
    let rules = Row::new(walk.allocator());
    walk.close(Node::Fn(rules), place)
}

/// The end of a `case`.
pub(crate) fn close_case(walk: &mut Walk, place: Place) -> Result<(), NoMemory>
    ensures { OnOk result (walk.new ≡ marked (Close (bare.Case 0 []) place ∷ []) walk.old) }
{
    let rules = Row::new(walk.allocator());
    walk.close(Node::Case(0, rules), place)
}

/// The end of a `handle`.
pub(crate) fn close_handle(walk: &mut Walk, place: Place) -> Result<(), NoMemory>
    ensures { OnOk result (walk.new ≡ marked (Close (bare.Handle 0 []) place ∷ []) walk.old) }
{
    let rules = Row::new(walk.allocator());
    walk.close(Node::Handle(0, rules), place)
}

/// The end of a conditional whose third part is written.
pub(crate) fn close_andalso(walk: &mut Walk, place: Place) -> Result<(), NoMemory>
    ensures { OnOk result (walk.new ≡ marked (marks (con_pattern place con_false) ++ (marks (con_node place con_false) ++ (Close (bare.Case 0 []) place ∷ []))) walk.old) }
{
    walk.leaf(Node::PatCon(FALSE), place)?;
    walk.leaf(Node::Constructor(FALSE), place)?;
    close_case(walk, place)
}

/// Between the first part of an `orelse` and the second.
pub(crate) fn or_true(walk: &mut Walk, place: Place) -> Result<(), NoMemory>
    ensures { OnOk result (walk.new ≡ marked (marks (con_pattern place con_true) ++ (marks (con_node place con_true) ++ marks (con_pattern place con_false))) walk.old) }
{
    walk.leaf(Node::PatCon(TRUE), place)?;
    walk.leaf(Node::Constructor(TRUE), place)?;
    walk.leaf(Node::PatCon(FALSE), place)
}

/// Between the condition and the first branch.
pub(crate) fn if_true(walk: &mut Walk, place: Place) -> Result<(), NoMemory>
    ensures { OnOk result (walk.new ≡ marked (marks (con_pattern place con_true)) walk.old) }
{
    walk.leaf(Node::PatCon(TRUE), place)
}

/// Between the branches.
pub(crate) fn if_false(walk: &mut Walk, place: Place) -> Result<(), NoMemory>
    ensures { OnOk result (walk.new ≡ marked (marks (con_pattern place con_false)) walk.old) }
{
    walk.leaf(Node::PatCon(FALSE), place)
}

/// The end of a tuple with so many fields.
pub(crate) fn close_tuple(walk: &mut Walk, place: Place, count: u32) -> Result<(), NoMemory>
    ensures { OnOk result (walk.new ≡ marked (Close (bare.Record (fields (numbers 0 count))) place ∷ []) walk.old) }
{
    let row = tuple_fields(walk.allocator(), count)?;
    walk.close(Node::Record(row), place)
}

/// The end of a record with these labels.
pub(crate) fn close_record(
    walk: &mut Walk,
    place: Place,
    labs: Vec<(Lab, Place)>,
) -> Result<(), NoMemory>
    ensures { OnOk result (walk.new ≡ marked (Close (bare.Record (fields (labs_of labs.items))) place ∷ []) walk.old) }
{
    let row = fields(walk.allocator(), labs)?;
    walk.close(Node::Record(row), place)
}

/// The pattern `_`.
pub(crate) fn wild(walk: &mut Walk, place: Place) -> Result<(), NoMemory>
    ensures { OnOk result (walk.new ≡ marked (marks (wild_node place)) walk.old) }
{
    walk.leaf(Node::Wild, place)
}

/// The ends of so many `case`s.
pub(crate) fn close_cases(walk: &mut Walk, place: Place, count: u32) -> Result<(), NoMemory>
    ensures { OnOk result (walk.new ≡ marked (times count (case_end place)) walk.old) }
{
    for _ in 0..count {
        close_case(walk, place)?;
    }
    Ok(())
}

/// The beginning of a list with an item.
pub(crate) fn open_cons(walk: &mut Walk, place: Place) -> Result<(), NoMemory>
    ensures { OnOk result (walk.new ≡ marked (cons_begins place) walk.old) }
{
    walk.open()?;
    walk.leaf(Node::Constructor(CONS), place)?;
    walk.open()
}

/// The end of a list with an item.
pub(crate) fn close_cons(walk: &mut Walk, place: Place) -> Result<(), NoMemory>
    ensures { OnOk result (walk.new ≡ marked (cons_end place) walk.old) }
{
    close_tuple(walk, place, 2)?;
    walk.close(Node::App(0, 0), place)
}

/// The end of a list behind its last item.
pub(crate) fn close_list(walk: &mut Walk, place: Place) -> Result<(), NoMemory>
    ensures { OnOk result (walk.new ≡ marked (marks (con_node place con_nil) ++ cons_end place) walk.old) }
{
    walk.leaf(Node::Constructor(NIL), place)?;
    close_cons(walk, place)
}

/// The ends of the lists around it.
pub(crate) fn close_conses(walk: &mut Walk, place: Place, count: u32) -> Result<(), NoMemory>
    ensures { OnOk result (walk.new ≡ marked (times count (cons_end place)) walk.old) }
{
    for _ in 0..count {
        close_cons(walk, place)?;
    }
    Ok(())
}

/// The beginning of a loop: its function, before the condition.
pub(crate) fn open_while(walk: &mut Walk, place: Place) -> Result<(), NoMemory>
    ensures { OnOk result (walk.new ≡ marked (while_begins place) walk.old) }
{
    walk.open()?;
    walk.open()?;
    walk.open()?;
    let fields = Row::new(walk.allocator());
    walk.leaf(Node::PatRecord(fields), place)?;
    walk.open()
}

/// Between the condition of a loop and its body.
pub(crate) fn begin_turn(walk: &mut Walk, place: Place) -> Result<(), NoMemory>
    ensures { OnOk result (walk.new ≡ marked (turn_begins place) walk.old) }
{
    walk.leaf(Node::PatCon(TRUE), place)?;
    walk.open()
}

/// The call of a loop's function.
fn turn_again(walk: &mut Walk, place: Place, name: u32) -> Result<(), NoMemory>
    ensures { OnOk result (walk.new ≡ marked (marks (call_node place name)) walk.old) }
{
    walk.open()?;
    walk.leaf(Node::Var(Name(name)), place)?;
    let fields = Row::new(walk.allocator());
    walk.leaf(Node::Record(fields), place)?;
    walk.close(Node::App(0, 0), place)
}

/// The end of the recursive declaration of one function.
fn close_rec(walk: &mut Walk, place: Place, name: u32) -> Result<(), NoMemory>
    ensures { OnOk result (walk.new ≡ marked (Close (bare.ValRec [] (record { name = record { 0 = name }; right = 0 } ∷ [])) place ∷ []) walk.old) }
{
    let tyvars = Row::new(walk.allocator());
    let mut bindings = Row::new(walk.allocator());
    bindings.push(RecBinding {
        name: Name(name),
        right: 0,
    })?;
    walk.close(Node::ValRec(tyvars, bindings), place)
}

/// Behind a body of a loop: the turn's end.
fn close_turn(walk: &mut Walk, place: Place, name: u32) -> Result<(), NoMemory>
    ensures { OnOk result (walk.new ≡ marked (turn_ends place name) walk.old) }
{
    wild(walk, place)?;
    turn_again(walk, place, name)?;
    close_case(walk, place)?;
    if_false(walk, place)?;
    walk.leaf(Node::Record(Row::new(walk.allocator())), place)?;
    close_case(walk, place)
}

/// Behind the body of a loop.
pub(crate) fn close_while(walk: &mut Walk, place: Place, name: u32) -> Result<(), NoMemory>
    ensures { OnOk result (walk.new ≡ marked (while_ends place name) walk.old) }
{
    close_turn(walk, place, name)?;
    close_fn(walk, place)?;
    close_rec(walk, place, name)?;
    turn_again(walk, place, name)?;
    walk.close(Node::Let(0, 0), place)
}

/// The ends of so many `let`s.
pub(crate) fn close_lets(walk: &mut Walk, place: Place, count: u32) -> Result<(), NoMemory>
    ensures { OnOk result (walk.new ≡ marked (times count (let_end place)) walk.old) }
{
    for _ in 0..count {
        walk.close(Node::Let(0, 0), place)?;
    }
    Ok(())
}
