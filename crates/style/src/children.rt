ghost use Rattle.std.specs.Prelude.{◌+◌, ◌≤◌, length};
ghost use Rattle.model.specs.Asks.{width};
ghost use Rattle.tree.specs.Steps.{spot};
ghost use Rattle.tree.specs.Trees.{kids};
ghost use Rattle.worklist.specs.Listed.{listed, taken, room};
ghost use Rattle.style.specs.Standing.{Filled};

use table::Place;
use tree::Node;
use worklist::WorkList;

/// Puts the node's children into the queue, in order.
pub(crate) fn push_children(node: Node<'_>, queue: &mut WorkList<Place>)
    requires { taken queue.old + (length (listed queue.old) + width (spot node).kids) ≤ room queue.old }
    ensures { Filled (kids node.entry.tree.now) (spot node.entry).kids queue.old queue.new }
{
    for child in node.children() {
        queue.push(child.place());
    }
}
