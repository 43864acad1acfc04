//! The depths of declarations.

ghost use Rattle.std.specs.Prelude.{◌≡◌, ◌<◌, ◌+◌, ◌^◌, [], ℕ, IfOk, nat_lt, reverse};
ghost use Rattle.std.specs.List.{position_from};
ghost use Rattle.sml_tree.specs.Depth.{adds as adds_of, depth_of as depth_spec, depths as depths_of, greatest as greatest_of};

use sml_tree::TreeNode;
use smlc_base::NoMemory;
use std::alloc::Global;

/// The greatest depth of a declaration.
const LIMIT: u64 = 1024;

// How many phrases a form adds above its parts.
fn adds(node: TreeNode) -> u64
    ensures { result ≡ adds_of node }
{
    match node {
        TreeNode::NoDecs
        | TreeNode::MoreDecs
        | TreeNode::MoreVids
        | TreeNode::NoTyVars
        | TreeNode::TyVarSeq
        | TreeNode::MoreTyVars
        | TreeNode::ValBind
        | TreeNode::MoreValBinds
        | TreeNode::Rec
        | TreeNode::MoreFunBinds
        | TreeNode::MoreClauses
        | TreeNode::Clause
        | TreeNode::TypedClause
        | TreeNode::Head
        | TreeNode::MoreAtpats
        | TreeNode::TypBind
        | TreeNode::MoreTypBinds
        | TreeNode::DatBind
        | TreeNode::MoreDatBinds
        | TreeNode::ConBind
        | TreeNode::ConBindOf
        | TreeNode::MoreConBinds
        | TreeNode::ExBind
        | TreeNode::ExBindOf
        | TreeNode::ExBindIs
        | TreeNode::MoreExBinds
        | TreeNode::Op
        | TreeNode::Row
        | TreeNode::MoreRows
        | TreeNode::MoreItems
        | TreeNode::MoreSeq
        | TreeNode::Rule
        | TreeNode::MoreRules
        | TreeNode::MorePats
        | TreeNode::PatRow
        | TreeNode::PunRow
        | TreeNode::TypedPunRow
        | TreeNode::PunRowAs
        | TreeNode::TypedPunRowAs
        | TreeNode::MorePatRows
        | TreeNode::MoreFactors
        | TreeNode::TyRow
        | TreeNode::MoreTyRows
        | TreeNode::MoreTys => 0,
        TreeNode::ParenHead => 2,
        _ => 1,
    }
}

fn greatest(depths: &[u64]) -> u64
    ensures { result ≡ greatest_of (reverse depths.now) }
{
    let mut most = 0;
    for depth in depths {
        if *depth > most {
            most = *depth;
        }
    }
    most
}

// The depth of a phrase with parts of these depths.
fn depth_of(node: TreeNode, parts: &[u64]) -> u64
    requires { greatest_of (reverse parts.now) + 2 < 2 ^ 64 }
    ensures { result ≡ depth_spec node (reverse parts.now) }
{
    match (node, parts) {
        (TreeNode::ParenHeadArgs, [head @ .., args]) => {
            let within = 2 + greatest(head);
            if *args > within { *args } else { within }
        }
        _ => adds(node) + greatest(parts),
    }
}

/// The depths of the declarations of a program, in order.
pub fn depths(alloc: Global, nodes: &[TreeNode]) -> Result<Vec<u64>, NoMemory>
    ensures { IfOk result (λ depths. depths.items ≡ depths_of [] nodes.now) }
{
    let mut stack = Vec::new(alloc);
    for node in nodes {
        let from = stack.len().saturating_sub(node.parts() as usize);
        let depth = depth_of(*node, &stack[from..]);
        stack.truncate(from);
        stack.push(depth)?;
    }
    Ok(stack)
}

/// The first declaration that is too deep.
pub fn too_deep(depths: &[u64]) -> Option<usize>
    ensures { result ≡ position_from (nat_lt 1024) 0 depths.now }
{
    depths.iter().position(|depth| *depth > LIMIT)
}
