//! What the reader's leaves and containers become in the table.

ghost use Rattle.std.specs.Prelude.{◌≡◌, ℕ, List};
ghost use Rattle.text.specs.Events.{box_for, leaf_for};
ghost use Rattle.loader.specs.Kinds.{box_kind, leaf_kind};

use table::Kind;
use text::sink::{Container, LeafKind};

/// The kind of a leaf's node.
pub fn kind_of(leaf: LeafKind) -> Kind
    ensures { (t : List ℕ) → result ≡ leaf_kind (leaf_for leaf t) }
{
    match leaf {
        LeafKind::Null => Kind::Null,
        LeafKind::Boolean(value) => Kind::Boolean(value),
        LeafKind::Number => Kind::Number,
        LeafKind::String => Kind::String,
        LeafKind::Name => Kind::Name,
        LeafKind::Token(token) => Kind::Token(token.byte() as char),
        LeafKind::Whitespace => Kind::Whitespace,
        LeafKind::Newline(newline) => Kind::Newline(newline),
        LeafKind::LineComment => Kind::LineComment,
        LeafKind::BlockComment => Kind::BlockComment,
    }
}

/// The kind of a container's node.
pub fn container_kind(container: Container) -> Kind
    ensures { result ≡ box_kind (box_for container) }
{
    match container {
        Container::Array => Kind::Array,
        Container::Object => Kind::Object,
        Container::Property => Kind::Property,
    }
}
