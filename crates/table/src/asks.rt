ghost use Rattle.std.specs.Prelude.{◌≡◌, ◌<◌, length, Some, None};
ghost use Rattle.forest.specs.Forest.{count, size};
ghost use Rattle.forest.specs.Asks.{own_in, parent_in, prev_in, next_in, first_in, last_in, index_in};
ghost use Rattle.table.specs.Nodes.{at};
ghost use Rattle.table.specs.Tables.{tree, free, holds_in, records as records_of};

use crate::node::{Handle, Node, Own, Place};
use crate::table::Table;

// A place is a number that outlasts an edit, so each question asks for itself that its node is there; crate tree's `Node` carries that fact for all callers above.
impl Table {
    /// How many nodes there are.
    pub fn living(&self) -> usize
        ensures { result ≡ size (tree self.now) }
    {
        self.records() - self.vacant()
    }

    /// How many records there are, of nodes and free places.
    #[tactic(auto, unfolding(crate::specs::Tables::records))]
    pub fn records(&self) -> usize
        ensures { result ≡ records_of self.now }
    {
        self.nodes.len()
    }

    /// How many places are free.
    #[tactic(auto, using(crate::proofs::Seen::spare_long))]
    pub fn vacant(&self) -> usize
        ensures { result ≡ length (free self.now) }
    {
        self.spare.len()
    }

    /// Whether the handle's place has the node with the handle's number.
    pub fn holds(&self, handle: Handle) -> bool
        ensures { result ≡ holds_in handle.place handle.number (tree self.now) }
    {
        match self.nodes.get(handle.place as usize) {
            None => false,
            Some(node) => handle.number != 0 && node.own.number == handle.number,
        }
    }

    /// The node's record.
    #[tactic(auto, using(crate::proofs::Seen::there_in, crate::proofs::Seen::nodes_long))]
    fn node(&self, place: Place) -> &Node
        requires { 0 < count place (tree self.now) }
        ensures { result.now ≡ at self.now.nodes.items place }
    {
        &self.nodes[place as usize]
    }

    /// The node's own data.
    #[tactic(auto, using(crate::proofs::Seen::own_is))]
    pub fn own(&self, place: Place) -> Own
        requires { 0 < count place (tree self.now) }
        ensures { Some result ≡ own_in place (tree self.now) }
    {
        self.node(place).own
    }

    /// The node's parent; the root has none.
    #[tactic(auto, using(crate::proofs::Seen::parent_is))]
    pub fn parent(&self, place: Place) -> Option<Place>
        requires { 0 < count place (tree self.now) }
        ensures { result ≡ parent_in place None (tree self.now) }
    {
        self.node(place).parent.target()
    }

    /// The sibling before the node.
    #[tactic(auto, using(crate::proofs::Seen::prev_is))]
    pub fn previous(&self, place: Place) -> Option<Place>
        requires { 0 < count place (tree self.now) }
        ensures { result ≡ prev_in place None (tree self.now) }
    {
        self.node(place).prev.target()
    }

    /// The sibling after the node.
    #[tactic(auto, using(crate::proofs::Seen::next_is))]
    pub fn next(&self, place: Place) -> Option<Place>
        requires { 0 < count place (tree self.now) }
        ensures { result ≡ next_in place (tree self.now) }
    {
        self.node(place).next.target()
    }

    /// The node's first child.
    #[tactic(auto, using(crate::proofs::Seen::first_is))]
    pub fn first(&self, place: Place) -> Option<Place>
        requires { 0 < count place (tree self.now) }
        ensures { result ≡ first_in place (tree self.now) }
    {
        self.node(place).first.target()
    }

    /// The node's last child.
    #[tactic(auto, using(crate::proofs::Seen::last_is))]
    pub fn last(&self, place: Place) -> Option<Place>
        requires { 0 < count place (tree self.now) }
        ensures { result ≡ last_in place (tree self.now) }
    {
        self.node(place).last.target()
    }

    // An iterator over the siblings before a node, to be counted, would be a type of its own with one use, and
    // `successors` does not say that it ends.
    /// How many siblings stand before the node.
    pub fn child_index(&self, place: Place) -> usize
        requires { 0 < count place (tree self.now) }
        ensures { result ≡ index_in place 0 (tree self.now) }
    {
        let mut index = 0;
        let mut at = place;
        while let Some(before) = self.previous(at) {
            index += 1;
            at = before;
        }
        index
    }
}
