//! The nodes of a tree, where they begin, and which are the roots.

ghost use Rattle.std.specs.Prelude.{◌≡◌, [], ℕ, List, Some, IfOk, get_or, reverse};
ghost use Rattle.sml_tree.specs.Tree.{roots as roots_of};
ghost use Rattle.sml_fixity.specs.Nodes.{bare as bare_of, node_of as node_spec, places, start_of as start_spec, starts_of};

use sml_lexer::Token;
use sml_syntax::forms::Made;
use sml_tree::TreeNode;
use smlc_base::{NoMemory, Place};
use std::alloc::Global;

fn node_of(made: Made) -> TreeNode
    ensures { result ≡ node_spec made }
{
    match made {
        Made::Inner(node) => node,
        Made::Lead(node, _) => node,
    }
}

/// The nodes alone.
pub fn bare(alloc: Global, made: &[Made]) -> Result<Vec<TreeNode>, NoMemory>
    ensures { IfOk result (λ nodes. nodes.items ≡ bare_of made.now) }
{
    let mut nodes = Vec::new(alloc);
    for one in made {
        nodes.push(node_of(*one))?;
    }
    Ok(nodes)
}

// Where a node begins, where the last of the stack are the places of its parts.
fn start_of(tokens: &[Token], end: Place, stack: &[Place], made: Made) -> Place
    ensures { result ≡ start_spec (places tokens.now end) end (reverse stack.now) made }
{
    match made {
        Made::Lead(_, left) => {
            let at = (tokens.len() + 1).saturating_sub(left);
            if at < tokens.len() {
                tokens[at].place
            } else {
                end
            }
        }
        Made::Inner(node) => {
            let back = (node.parts() as usize).saturating_sub(1);
            if back < stack.len() {
                stack[stack.len() - 1 - back]
            } else {
                end
            }
        }
    }
}

/// Where each node begins.
pub fn starts(
    alloc: Global,
    tokens: &[Token],
    end: Place,
    made: &[Made],
) -> Result<Vec<Place>, NoMemory>
    ensures { IfOk result (λ starts. starts.items ≡ starts_of (places tokens.now end) end [] made.now) }
{
    let mut starts = Vec::new(alloc);
    let mut stack = Vec::new(alloc);
    for one in made {
        let start = start_of(tokens, end, &stack, *one);
        stack.truncate(stack.len().saturating_sub(node_of(*one).parts() as usize));
        stack.push(start)?;
        starts.push(start)?;
    }
    Ok(starts)
}

/// The numbers of the nodes that are no parts.
pub fn roots(alloc: Global, nodes: &[TreeNode]) -> Result<Vec<u32>, NoMemory>
    ensures { IfOk result (λ r. (numbers : List ℕ) → roots_of 0 [] nodes.now ≡ Some numbers → r.items ≡ numbers) }
{
    let mut stack = Vec::new(alloc);
    for (i, node) in nodes.iter().enumerate() {
        if i > u32::MAX as usize {
            return Err(NoMemory);
        }
        stack.truncate(stack.len().saturating_sub(node.parts() as usize));
        stack.push(i as u32)?;
    }
    Ok(stack)
}
