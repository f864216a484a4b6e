//! A node of a tree: a tree and a place where one of its nodes stands.

ghost use Rattle.std.specs.Prelude.{◌≡◌};
ghost use Rattle.tree.specs.Places.{Stands};
ghost use Rattle.tree.specs.Trees.{kids};

use crate::tree::Tree;
use table::Place;

/// A node of a tree.
#[derive(Clone, Copy)]
pub struct Node<'a> {
    pub(crate) tree: &'a Tree,
    pub(crate) place: Place,
    ghost stands: { Stands place (kids tree.now) },
}

impl<'a> Node<'a> {
    /// The tree that the node is of.
    pub fn tree(self) -> &'a Tree
        ensures { result.now ≡ self.entry.tree.now }
    {
        self.tree
    }

    /// Where the node stands in the node table.
    pub fn place(self) -> Place
        ensures { result ≡ self.entry.place }
    {
        self.place
    }
}
