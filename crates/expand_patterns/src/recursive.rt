//! The names of recursive bindings.

ghost use Rattle.std.specs.Prelude.{◌≡◌, [], ◌∷◌, OnOk};
ghost use Rattle.smlc_base.specs.declared.refusal.Refusal.TheVariants as refusal;
ghost use Rattle.sml_expansion.specs.Terms.{Term, place_at};
ghost use Rattle.sml_expansion.specs.Sources.{IsAt};
ghost use Rattle.sml_expansion.specs.Bindings.{rec_ident, rec_name, rec_names};
ghost use Rattle.expand_patterns.specs.Expands.{Binds};
ghost use Rattle.expand_patterns.specs.Names.{is_vid, refused_vars};

use crate::identifiers::{binds, no_long};
use crate::patterns::patterns;
use sml_expansion::{Bound, Ident, Parsed, Walk};
use sml_tree::TreeNode;
use smlc_base::{NoMemory, Refusal};

/// An identifier that a recursive binding names.
fn rec_ident(
    parsed: &Parsed,
    walk: &mut Walk,
    bound: &mut Vec<Bound>,
    ident: Ident,
) -> Result<(), NoMemory>
    ensures { OnOk result (Binds parsed.now.names (λ s. rec_ident s ident) walk.old walk.new bound.old.items bound.new.items) }
{
    if ident.long {
        let meaning = parsed.value(&walk.bindings, ident.key);
        walk.made.refuse(no_long(meaning, ident));
        Ok(())
    } else {
        binds(parsed, walk, bound, ident)?;
        Ok(())
    }
}

/// A pattern that is no identifier: what it binds.
fn refused_vars(
    parsed: &Parsed,
    walk: &mut Walk,
    bound: &mut Vec<Bound>,
    at: u32,
) -> Result<(), NoMemory>
    ensures { OnOk result ((w : Term) → IsAt parsed.now at w → Binds parsed.now.names (λ s. refused_vars s w) walk.old walk.new bound.old.items bound.new.items) }
{
    walk.made.refuse(Refusal::BadBinding(parsed.place(at)));
    let from = walk.marks.len();
    patterns(parsed, walk, bound, at)?;
    walk.marks.truncate(from);
    Ok(())
}

/// Whether a node is an identifier without `op`.
fn is_vid(node: TreeNode) -> bool
    ensures { result ≡ is_vid node }
{
    match node {
        TreeNode::Vid(_) | TreeNode::VidEquals | TreeNode::LongVid(_) => true,
        _ => false,
    }
}

/// The name of a recursive binding, whose pattern stands in a whole one.
fn rec_name(
    parsed: &Parsed,
    walk: &mut Walk,
    bound: &mut Vec<Bound>,
    whole: u32,
    at: u32,
) -> Result<(), NoMemory>
    ensures { OnOk result ((w t : Term) → IsAt parsed.now whole w → IsAt parsed.now at t → Binds parsed.now.names (λ s. rec_name s w t) walk.old walk.new bound.old.items bound.new.items) }
{
    match parsed.node(at) {
        TreeNode::TypedPat => rec_name(parsed, walk, bound, whole, parsed.two(at).0),
        TreeNode::Op => rec_ident(parsed, walk, bound, parsed.ident(parsed.one(at))),
        node => {
            if is_vid(node) {
                rec_ident(parsed, walk, bound, parsed.ident(at))
            } else {
                refused_vars(parsed, walk, bound, whole)
            }
        }
    }
}

/// The names of the recursive bindings of a value declaration, whose bindings stand behind a `rec` or not.
pub fn rec_names(
    parsed: &Parsed,
    walk: &mut Walk,
    bound: &mut Vec<Bound>,
    inside: bool,
    at: u32,
) -> Result<(), NoMemory>
    ensures { OnOk result ((t : Term) → IsAt parsed.now at t → Binds parsed.now.names (λ s. rec_names s inside t) walk.old walk.new bound.old.items bound.new.items) }
{
    let mut behind = inside;
    let mut rest = at;
    loop {
        match parsed.node(rest) {
            TreeNode::Rec => {
                behind = true;
                rest = parsed.one(rest);
            }
            TreeNode::MoreValBinds => {
                let (first, others) = parsed.two(rest);
                rec_names(parsed, walk, bound, behind, first)?;
                rest = others;
            }
            TreeNode::ValBind => {
                if behind {
                    let pattern = parsed.two(rest).0;
                    return rec_name(parsed, walk, bound, pattern, pattern);
                }
                return Ok(());
            }
            _ => return Ok(()),
        }
    }
}
