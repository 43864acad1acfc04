//! The labels of rows.

ghost use Rattle.std.specs.Prelude.{◌≡◌, ◌++◌, ◌≢◌, IfOk, OnOk};
ghost use Rattle.sml_expansion.specs.Terms.{Term, leaf};
ghost use Rattle.sml_expansion.specs.Sources.{IsAt, node_at};
ghost use Rattle.sml_expansion.specs.Types.{labels};
ghost use Rattle.expand_types.specs.Forms.{row_form};
ghost use Rattle.expand_types.specs.declared.labels.RowForm.TheVariants.{Rows};

use sml_expansion::Parsed;
use sml_tree::TreeNode;
use sml_tree::bare::Lab;
use smlc_base::{NoMemory, Place, Row};
use std::alloc::Global;

/// Where the labels of a node are.
#[derive(Clone, Copy, PartialEq, Eq, Debug)]
enum RowForm {
    /// In both parts.
    Rows,
    /// In the only part, in the first of two, or in the first of three.
    FirstOfOne,
    FirstOfTwo,
    FirstOfThree,
    /// At the node itself, if it is a label.
    Here,
}

fn row_form(node: TreeNode) -> RowForm
    ensures { result ≡ row_form node }
{
    match node {
        TreeNode::MoreRows => RowForm::Rows,
        TreeNode::MorePatRows => RowForm::Rows,
        TreeNode::MoreTyRows => RowForm::Rows,
        TreeNode::PunRow => RowForm::FirstOfOne,
        TreeNode::Row => RowForm::FirstOfTwo,
        TreeNode::PatRow => RowForm::FirstOfTwo,
        TreeNode::TypedPunRow => RowForm::FirstOfTwo,
        TreeNode::PunRowAs => RowForm::FirstOfTwo,
        TreeNode::TyRow => RowForm::FirstOfTwo,
        TreeNode::TypedPunRowAs => RowForm::FirstOfThree,
        _ => RowForm::Here,
    }
}

/// The label of a node puts itself last; no other node has one.
fn push_label(
    parsed: &Parsed,
    node: TreeNode,
    place: Place,
    labs: &mut Vec<(Lab, Place)>,
) -> Result<(), NoMemory>
    ensures { OnOk result (labs.new.items ≡ labs.old.items ++ labels parsed.now.names (leaf node place)) }
{
    match node {
        TreeNode::Label(name) => {
            let text = Vec::from_slice(*labs.allocator(), parsed.text(name.0))?;
            labs.push((Lab::Text(Row::from_vec(text)), place))?;
        }
        TreeNode::LabelNumber(number) => labs.push((Lab::Num(number), place))?,
        _ => {}
    }
    Ok(())
}

/// The labels of rows, behind those that are there.
#[cycle(labels)]
fn push_labels(parsed: &Parsed, at: u32, labs: &mut Vec<(Lab, Place)>) -> Result<(), NoMemory>
    ensures { OnOk result ((t : Term) → IsAt parsed.now at t → labs.new.items ≡ labs.old.items ++ labels parsed.now.names t) }
{
    let mut rest = at;
    while let RowForm::Rows = row_form(parsed.node(rest)) {
        let (first, behind) = parsed.two(rest);
        push_labels(parsed, first, labs)?;
        rest = behind;
    }
    push_row(parsed, rest, labs)
}

/// The labels of what is no list of rows.
#[cycle(labels)]
fn push_row(parsed: &Parsed, at: u32, labs: &mut Vec<(Lab, Place)>) -> Result<(), NoMemory>
    requires { row_form (node_at parsed.now at) ≢ Rows }
    ensures { OnOk result ((t : Term) → IsAt parsed.now at t → labs.new.items ≡ labs.old.items ++ labels parsed.now.names t) }
{
    let node = parsed.node(at);
    match row_form(node) {
        RowForm::FirstOfOne => push_labels(parsed, parsed.one(at), labs),
        RowForm::FirstOfTwo => push_labels(parsed, parsed.two(at).0, labs),
        RowForm::FirstOfThree => push_labels(parsed, parsed.three(at).0, labs),
        RowForm::Here => push_label(parsed, node, parsed.place(at), labs),
        RowForm::Rows => Ok(()),
    }
}

/// The labels of the rows of an expression, a pattern or a type, with their places.
pub fn labels(alloc: Global, parsed: &Parsed, at: u32) -> Result<Vec<(Lab, Place)>, NoMemory>
    ensures { IfOk result (λ labs. (t : Term) → IsAt parsed.now at t → labs.items ≡ labels parsed.now.names t) }
{
    let mut labs = Vec::new(alloc);
    push_labels(parsed, at, &mut labs)?;
    Ok(labs)
}
