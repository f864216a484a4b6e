//! Steps from a node to its neighbours, its children and its parent.

ghost use Rattle.std.specs.Prelude.{◌≡◌, IfSome};
ghost use Rattle.std.specs.Option.{option_map};
ghost use Rattle.tree.specs.Steps.{spot, rest, back, spot_above, ahead, behind, upward, later_spots, earlier_spots, child_spots, ancestor_spots};

use crate::node::Node;

impl<'a> Node<'a> {
    /// The sibling after the node.
    pub fn next(self) -> Option<Node<'a>>
        ensures tree { IfSome result (λ n. n.tree.now ≡ self.entry.tree.now) }
        ensures siblings { rest result ≡ (spot self.entry).here.after }
        ensures spots { ahead result ≡ later_spots (spot self.entry) }
    {
        let place = self.tree.table.next(self.place)?;
        Some(self.tree.node(place))
    }

    /// The sibling before the node.
    pub fn previous(self) -> Option<Node<'a>>
        ensures tree { IfSome result (λ n. n.tree.now ≡ self.entry.tree.now) }
        ensures siblings { back result ≡ (spot self.entry).here.before }
        ensures spots { behind result ≡ earlier_spots (spot self.entry) }
    {
        let place = self.tree.table.previous(self.place)?;
        Some(self.tree.node(place))
    }

    /// The node's first child.
    pub fn first(self) -> Option<Node<'a>>
        ensures tree { IfSome result (λ n. n.tree.now ≡ self.entry.tree.now) }
        ensures children { rest result ≡ (spot self.entry).kids }
        ensures spots { ahead result ≡ child_spots (spot self.entry) }
    {
        let place = self.tree.table.first(self.place)?;
        Some(self.tree.node(place))
    }

    /// The node's parent.
    pub fn parent(self) -> Option<Node<'a>>
        ensures tree { IfSome result (λ n. n.tree.now ≡ self.entry.tree.now) }
        ensures above { option_map spot result ≡ spot_above (spot self.entry) (spot self.entry).ups }
        ensures spots { upward result ≡ ancestor_spots (spot self.entry) }
    {
        let place = self.tree.table.parent(self.place)?;
        Some(self.tree.node(place))
    }
}
