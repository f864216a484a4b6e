//! From a tree to its nodes, and what it counts.

ghost use Rattle.std.specs.Prelude.{◌≡◌, ◌+◌, ◌≤◌, vec_len};
ghost use Rattle.tree.specs.Sorts.{handle_for, bytes_in};
ghost use Rattle.tree.specs.Trees.{kids, state};
ghost use Rattle.tree.specs.Places.{spot_of, Stands};
ghost use Rattle.tree.specs.Steps.{spot, root_spot, Names, Found};

use crate::node::Node;
use crate::tree::Tree;
use refusal::Refusal;
use table::{Handle, Own, Place};

/// Where the root stands in every table.
const ROOT: Place = 0;

impl Tree {
    /// Whether the handle names a node.
    pub fn names(&self, handle: Handle) -> bool
        ensures { Names result (handle_for handle) (kids self.now) }
    {
        self.table.holds(handle)
    }

    /// The root.
    pub fn root(&self) -> Node<'_>
        ensures tree { result.tree.now ≡ self.now }
        ensures spot { spot result ≡ root_spot (kids self.now) }
    {
        self.node(ROOT)
    }

    /// The node that the handle names; a handle that names none is Gone.
    pub fn find(&self, handle: Handle) -> Result<Node<'_>, Refusal>
        ensures { Found result (handle_for handle) self.now }
    {
        if !self.names(handle) {
            return Err(Refusal::Gone);
        }
        Ok(self.node(handle.place))
    }

    /// The node at the place. A queue of nodes holds their places alone, in room that its caller lends.
    pub fn node(&self, place: Place) -> Node<'_>
        requires { Stands place (kids self.now) }
        ensures tree { result.tree.now ≡ self.now }
        ensures place { result.place ≡ place }
        ensures spot { spot result ≡ spot_of place (kids self.now) }
    {
        Node { tree: self, place }
    }

    /// The part of the store that is a node's.
    pub(crate) fn stored(&self, own: Own) -> &[u8]
        requires { own.start + own.len ≤ vec_len self.now.store }
        ensures { result.now ≡ bytes_in self.now.store.items own }
    {
        let start = own.start as usize;
        &self.store[start..start + own.len as usize]
    }

    /// How many records the table has.
    pub fn records(&self) -> usize
        ensures { result ≡ (state self.now).records }
    {
        self.table.records()
    }

    /// How many edits were accepted.
    pub fn edits(&self) -> u32
        ensures { result ≡ (state self.now).edits }
    {
        self.edits
    }
}
