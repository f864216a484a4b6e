//! Walks back over the Whitespace before a node.

ghost use Rattle.std.specs.Prelude.{◌≡◌, ◌≤◌, length};
ghost use Rattle.std.specs.Option.{option_map};
ghost use Rattle.model.specs.Asks.{indent_text};
ghost use Rattle.tree.specs.Steps.{spot};
ghost use Rattle.printing.specs.Buffers.{over};
ghost use Rattle.indents.specs.Blanks.{blanks};

use printing::buffers::put;
use tree::{Class, Node};

/// The node that stands right behind the indent of the node's line; absent if there is no Whitespace, or something else stands before the node too.
#[tactic(auto, using(tree::proofs::Listed::begin_back))]
pub fn indent_end(node: Node<'_>) -> Option<Node<'_>>
    ensures { option_map (λ n. blanks (spot n).here.before) result ≡ indent_text (spot node.entry) }
{
    let mut behind = node;
    let mut end = None;
    for sibling in node.preceding() {
        match sibling.class() {
            // kept once it is known: `or` would write it anew at every turn
            Class::Blank => {
                if end.is_none() {
                    end = Some(behind);
                }
            }
            Class::Break => return end,
            Class::Remark => end = None,
            Class::Comma | Class::Mark | Class::Value => return None,
        }
        behind = sibling;
    }
    end
}

/// How many bytes the Whitespace right before the node has.
pub fn blanks_size(node: Node<'_>) -> usize
    ensures { result ≡ length (blanks (spot node.entry).here.before) }
{
    node.preceding()
        .take_while(|sibling| sibling.is_blank())
        .map(|sibling| sibling.spelling().len())
        .sum()
}

/// Writes the Whitespace right before the node at the start of the buffer, the nearest last, so that it ends at `size`: from the end back, as the walk goes.
#[tactic(auto, using(tree::proofs::Listed::begin_back))]
pub fn write_blanks(node: Node<'_>, out: &mut [u8], size: usize)
    requires size { size ≡ length (blanks (spot node).here.before) }
    requires room { size ≤ length out.old }
    ensures { out.new ≡ over out.old 0 (blanks (spot node.entry).here.before) }
{
    let mut end = size;
    for sibling in node.preceding() {
        if !sibling.is_blank() {
            return;
        }
        let bytes = sibling.spelling();
        end -= bytes.len();
        let _ = put(out, end, bytes);
    }
}
