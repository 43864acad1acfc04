//! What stands behind a declaration is noted.

ghost use Rattle.std.specs.Prelude.{◌≡◌, suc, IfOk, slice_get};
ghost use Rattle.sml_tree.specs.BareParts.{IsNumbered};
ghost use Rattle.sml_infer.specs.Going.{now, IsGoing, Keeps};
ghost use Rattle.sml_infer.specs.Asking.{body_at, IsNoted};

use crate::inference::Inference;
use infer_state::Declared;
use sml_tree::{Bare, Node};
use smlc_base::NoMemory;

// What stands behind the declaration of a `let`.
fn body_of(bare: &Bare, node: u32) -> Option<u32>
    ensures { result ≡ body_at (slice_get bare.now.nodes node) }
{
    match bare.nodes.items().get(node as usize) {
        Some(Node::Let(_, body)) => Some(*body),
        _ => None,
    }
}

// Notes a `let` at what stands behind its declaration.
fn put(behind: &mut Vec<Option<u32>>, body: u32, node: u32) -> Result<(), NoMemory>
    ensures { IfOk result (λ _. IsNoted behind.old.items body node behind.new.items) }
{
    let at = body as usize;
    if at >= behind.len() || behind[at].is_some() {
        return Err(NoMemory);
    }
    behind[at] = Some(node);
    Ok(())
}

/// Notes the next node at what stands behind its declaration, if it is a `let`.
pub(crate) fn note(bare: &Bare, declared: &Declared, work: &mut Inference) -> Result<(), NoMemory>
    requires numbered { IsNumbered bare.now.nodes }
    requires going { IsGoing bare.now work.old.count declared.now (now work.old) (suc work.old.done) work.old.done (suc work.old.done) }
    ensures going { IfOk result (λ _. IsGoing bare.now work.old.count declared.now (now work.new) (suc work.old.done) (suc work.old.done) (suc work.old.done)) }
    ensures count { work.new.count ≡ work.old.count }
    ensures done { work.new.done ≡ work.old.done }
    ensures kept { IfOk result (λ _. Keeps (now work.old) (now work.new)) }
{
    let Some(body) = body_of(bare, work.done) else {
        return Ok(());
    };
    put(&mut work.behind, body, work.done)
}
