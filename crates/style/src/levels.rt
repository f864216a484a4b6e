ghost use Rattle.std.specs.Prelude.{◌≡◌, ◌≤◌, List, length, ◌∷◌};
ghost use Rattle.model.specs.Nodes.{Nodes, Sort};
ghost use Rattle.model.specs.Asks.{first_of, layers};
ghost use Rattle.tree.specs.Steps.{spot};
ghost use Rattle.tree.specs.Trees.{state};
ghost use Rattle.style.specs.Found.{Answers};

use crate::children::push_children;
use table::Place;
use tree::Node;
use worklist::WorkList;

/// What is answered first where `ask` is asked of the node, then level by level of the nodes below it. The queue has a place for each
/// record of the tree; it is lent, and holds places alone, since a question takes no memory of its own.
pub(crate) fn first_by_level<T: Copy, F: Fn(Node<'_>) -> Option<T>>(
    node: Node<'_>,
    queue: &mut [Place],
    ask: F,
) -> Option<T>
    requires callable { F.IsAlwaysCallable ask }
    requires space { (state node.tree.now).records ≤ length queue.old }
    ensures { (h : Sort → Nodes → List T) → Answers (F.post ask) h → let s = spot node.entry in result ≡ first_of (h s.here.own.sort s.kids ∷ layers h s.kids) }
{
    let tree = node.tree();
    let mut waiting = WorkList::new(queue);
    waiting.push(node.place());
    // No `for`: the queue grows while it is emptied.
    while let Some(place) = waiting.pop_front() {
        let asked = tree.node(place);
        if let Some(answer) = ask(asked) {
            return Some(answer);
        }
        push_children(asked, &mut waiting);
    }
    None
}
