ghost use Rattle.std.specs.Prelude.{◌≡◌, ◌≤◌, length};
ghost use Rattle.model.specs.Asks.{decides, is_some, trailing, uses_trailing_commas};
ghost use Rattle.tree.specs.Steps.{spot};
ghost use Rattle.tree.specs.Trees.{state};
ghost use Rattle.style.specs.Found.{found};

use crate::levels::first_by_level;
use table::{Kind, Place};
use tree::{Class, Node};

/// Whether a comma stands behind the node, with trivia alone between.
fn has_comma(member: Node<'_>) -> bool
    ensures { result ≡ is_some (trailing (spot member.entry).here.after) }
{
    let behind = member.following().find(|node| !node.is_gap());
    behind.is_some_and(|node| node.class() == Class::Comma)
}

/// Whether the node decides, and what: an array or an object with Whitespace among its children and a member decides whether a comma
/// stands behind its last member.
fn decision_at(node: Node<'_>) -> Option<bool>
    ensures { found result ≡ decides (spot node.entry).here.own.sort (spot node.entry).kids }
{
    if !matches!(node.kind(), Kind::Array | Kind::Object) {
        return None;
    }
    if !node.children().any(|child| child.is_blank()) {
        return None;
    }
    let members = node.children().filter(|child| child.is_value());
    members.last().map(has_comma)
}

/// Whether trailing commas are used: what the first container decides that does, the node itself, then level by level below it; no
/// where none does. The queue has a place for each record of the tree.
pub fn uses_trailing_commas_in(node: Node<'_>, queue: &mut [Place]) -> bool
    requires { (state node.tree.now).records ≤ length queue.old }
    ensures { result ≡ uses_trailing_commas (spot node.entry).here.own.sort (spot node.entry).kids }
{
    first_by_level(node, queue, decision_at).unwrap_or(false)
}
