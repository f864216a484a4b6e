//! From the root down to the node at a path.

ghost use Rattle.std.specs.Prelude.{◌≡◌, ℕ, List};
ghost use Rattle.std.specs.Option.{option_map};
ghost use Rattle.model.specs.Nodes.{parts};
ghost use Rattle.model.specs.Asks.{at as part_at, at_path, spot_handle};
ghost use Rattle.tree.specs.Steps.{spot};
ghost use Rattle.paths.specs.Ways.{landed};

use tree::Node;

/// The child of the node that is its value or member of this ordinal.
fn part(node: Node<'_>, ordinal: usize) -> Option<Node<'_>>
    ensures { (q : List ℕ) → part_at (parts (spot node.entry).kids) ordinal q ≡ landed result q }
{
    node.children()
        .filter(|child| child.is_value())
        .nth(ordinal)
}

/// The node at the path, if there is one.
pub fn node_at<'a>(root: Node<'a>, path: &[usize]) -> Option<Node<'a>>
    ensures { option_map (λ n. spot_handle (spot n)) result ≡ at_path (parts (spot root.entry).kids) path.now }
{
    let mut node = part(root, 0)?;
    for ordinal in path {
        node = part(node, *ordinal)?;
    }
    Some(node)
}
