//! Functions in the tree.

ghost use Rattle.std.specs.Prelude.{◌<◌, IfSome};
ghost use Rattle.sml_expansion.specs.Terms.{Term};
ghost use Rattle.sml_expansion.specs.Sources.{IsAt};
ghost use Rattle.sml_derive.specs.Functions.{Finds, match_in};

use sml_expansion::Parsed;
use sml_tree::TreeNode;

/// The match of a `fn`, perhaps parenthesised.
pub(crate) fn fn_match(parsed: &Parsed, at: u32) -> Option<u32>
    ensures is { (t : Term) → IsAt parsed.now at t → Finds parsed.now (match_in t) result }
    ensures below { IfSome result (λ body. body < at) }
{
    match parsed.node(at) {
        TreeNode::Fn => Some(parsed.one(at)),
        TreeNode::Paren => fn_match(parsed, parsed.one(at)),
        _ => None,
    }
}
