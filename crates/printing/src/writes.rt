//! The printing itself.

ghost use Rattle.std.specs.Prelude.{◌≡◌, ◌+◌, ◌≤◌, length};
ghost use Rattle.model.specs.Nodes.{print as printed};
ghost use Rattle.tree.specs.Walks.{nodes_left};
ghost use Rattle.printing.specs.Buffers.{over};

use crate::buffers::put;
use tree::Siblings;

/// Writes what the siblings print, with all below them, into the buffer from `start` on, and says where it ends.
pub fn write_from(siblings: Siblings<'_>, out: &mut [u8], start: usize) -> usize
    requires { start + length (printed (nodes_left siblings)) ≤ length out.old }
    ensures out { out.new ≡ over out.old start (printed (nodes_left siblings.entry)) }
    ensures end { result ≡ start + length (printed (nodes_left siblings.entry)) }
{
    let mut end = start;
    for node in siblings {
        end = put(out, end, node.spelling());
        if node.is_box() {
            end = write_from(node.children(), out, end);
        }
    }
    end
}
