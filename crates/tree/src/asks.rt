//! What a node is.

ghost use Rattle.std.specs.Prelude.{◌≡◌, ℕ, ◌||◌, List};
ghost use Rattle.model.specs.Nodes.{class as class_of};
ghost use Rattle.model.specs.Asks.{holds, is_array, is_blank, is_gap, is_property, is_root, is_some, is_value, spelt, spot_handle, text, width};
ghost use Rattle.tree.specs.Sorts.{sort_for, handle_for};
ghost use Rattle.tree.specs.Classes.{plain};
ghost use Rattle.tree.specs.Steps.{is_box, spot};

use crate::class::{Class, boolean_bytes, class_of, token_bytes};
use crate::node::Node;
use table::{Handle, Kind};

impl<'a> Node<'a> {
    /// How many siblings stand before the node.
    pub fn child_index(self) -> usize
        ensures { result ≡ width (spot self.entry).here.before }
    {
        self.tree.table.child_index(self.place)
    }

    /// The node's handle.
    pub fn handle(self) -> Handle
        ensures { handle_for result ≡ spot_handle (spot self.entry) }
    {
        Handle {
            place: self.place,
            number: self.tree.table.own(self.place).number,
        }
    }

    /// What the node is, but for its bytes.
    pub fn kind(self) -> Kind
        ensures { (t : List ℕ) × (sort_for result t ≡ (spot self.entry).here.own.sort) }
    {
        self.tree.table.own(self.place).kind
    }

    /// What the node is among its siblings.
    pub fn class(self) -> Class
        ensures { result ≡ plain (class_of (spot self.entry).here.own.sort) }
    {
        class_of(self.kind())
    }

    /// Whether the node is the root, an array, an object or a property.
    pub fn is_container(self) -> bool
        ensures { result ≡ holds (spot self.entry).here.own.sort }
    {
        matches!(
            self.kind(),
            Kind::Root | Kind::Array | Kind::Object | Kind::Property
        )
    }

    /// Whether the node is the root or a property, which hold one value at most.
    pub fn has_one_value(self) -> bool
        ensures { result ≡ is_root (spot self.entry).here.own.sort || is_property (spot self.entry).here.own.sort }
    {
        matches!(self.kind(), Kind::Root | Kind::Property)
    }

    /// Whether the node is an array.
    pub fn is_array(self) -> bool
        ensures { result ≡ is_array (spot self.entry).here.own.sort }
    {
        matches!(self.kind(), Kind::Array)
    }

    /// Whether the node is an array, an object or a property.
    pub fn is_box(self) -> bool
        ensures { result ≡ is_box (spot self.entry).here.own.sort }
    {
        matches!(self.kind(), Kind::Array | Kind::Object | Kind::Property)
    }

    /// Whether the node's bytes are kept in the store.
    pub fn is_stored(self) -> bool
        ensures { result ≡ is_some (text (spot self.entry).here.own.sort) }
    {
        matches!(
            self.kind(),
            Kind::Number
                | Kind::String
                | Kind::Name
                | Kind::Whitespace
                | Kind::LineComment
                | Kind::BlockComment
        )
    }

    /// Whether the node is a value or a member.
    pub fn is_value(self) -> bool
        ensures { result ≡ is_value (class_of (spot self.entry).here.own.sort) }
    {
        self.class() == Class::Value
    }

    /// Whether the node is Whitespace.
    pub fn is_blank(self) -> bool
        ensures { result ≡ is_blank (class_of (spot self.entry).here.own.sort) }
    {
        self.class() == Class::Blank
    }

    /// Whether the node is trivia.
    pub fn is_gap(self) -> bool
        ensures { result ≡ is_gap (class_of (spot self.entry).here.own.sort) }
    {
        matches!(self.class(), Class::Blank | Class::Break | Class::Remark)
    }

    /// What the node prints itself.
    #[tactic(auto, using(crate::proofs::Seen::in_table, crate::proofs::Seen::part_is))]
    pub fn spelling(self) -> &'a [u8]
        ensures { result.now ≡ spelt (spot self.entry).here.own.sort }
    {
        let own = self.tree.table.own(self.place);
        match own.kind {
            Kind::Root | Kind::Array | Kind::Object | Kind::Property => b"",
            Kind::Null => b"null",
            Kind::Boolean(value) => boolean_bytes(value),
            Kind::Token(token) => token_bytes(token),
            Kind::Newline(newline) => newline.spelling(),
            Kind::Name
            | Kind::Number
            | Kind::String
            | Kind::Whitespace
            | Kind::LineComment
            | Kind::BlockComment => self.tree.stored(own),
        }
    }
}
