//! The property of an object that has a name.

ghost use Rattle.std.specs.Prelude.{◌≡◌, ◌&&◌};
ghost use Rattle.grammar.specs.Pieces.{inner, name_of};
ghost use Rattle.model.specs.Nodes.{pieces};
ghost use Rattle.model.specs.Asks.{is_property, same_bytes};
ghost use Rattle.tree.specs.Steps.{spot};

use table::Kind;
use tree::Node;

/// What stands between the quotes.
fn between(quoted: &[u8]) -> &[u8]
    ensures { result.now ≡ inner quoted.now }
{
    match quoted {
        [_, inside @ .., _] => inside,
        _ => b"",
    }
}

/// Whether the node is a property of this name.
pub fn is_named(node: Node<'_>, name: &[u8]) -> bool
    ensures { result ≡ (is_property (spot node.entry).here.own.sort && same_bytes (name_of (pieces (spot node.entry).kids)) name.now) }
{
    matches!(node.kind(), Kind::Property)
        && node
            .first()
            .is_some_and(|title| between(title.spelling()) == name)
}
