//! How long the printing is.

ghost use Rattle.std.specs.Prelude.{◌≡◌, length};
ghost use Rattle.model.specs.Nodes.{print as printed};
ghost use Rattle.tree.specs.Walks.{nodes_left};

use tree::Siblings;

/// How many bytes the siblings print, with all below them.
pub fn size_from(siblings: Siblings<'_>) -> usize
    ensures { result ≡ length (printed (nodes_left siblings.entry)) }
{
    let mut size = 0;
    for node in siblings {
        size += node.spelling().len();
        if node.is_box() {
            size += size_from(node.children());
        }
    }
    size
}
