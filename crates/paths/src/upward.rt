//! From a node up to the root: its ordinal and its path.

ghost use Rattle.std.specs.Prelude.{◌≡◌, ◌≤◌, [], ◌++◌, length, drop, Some};
ghost use Rattle.model.specs.Asks.{is_value, or_given, tally};
ghost use Rattle.tree.specs.Steps.{spot};
ghost use Rattle.paths.specs.Ways.{path_of, measured, Few};

use tree::Node;

/// How many values and members stand before the node among its siblings. A call of its own, so that its loop has the registers to itself.
#[inline(never)]
pub fn ordinal(node: Node<'_>) -> usize
    ensures { result ≡ tally is_value (spot node.entry).here.before }
{
    node.preceding()
        .filter(|sibling| sibling.is_value())
        .count()
}

/// How many ordinals the node's path has; the root, names, tokens and trivia have no path.
pub fn path_length(node: Node<'_>) -> Option<usize>
    ensures steps { result ≡ measured (path_of node.entry) }
    ensures few { Few result }
{
    if !node.is_value() {
        return None;
    }
    let parent = node.parent()?;
    Some(parent.ancestors().count())
}

/// Writes the node's path, which has so many steps, at the start of the list.
pub fn write_path(node: Node<'_>, steps: usize, list: &mut [usize])
    requires known { measured (path_of node) ≡ Some steps }
    requires room { steps ≤ length list.old }
    ensures { list.new ≡ or_given (path_of node.entry) [] ++ drop steps list.old }
{
    // from the last ordinal back, since the walk goes up
    let mut at = node;
    for (left, parent) in (0..steps).rev().zip(node.ancestors()) {
        list[left] = ordinal(at);
        at = parent;
    }
}
