//! Walks from a node along its siblings and up to the root.

ghost use Rattle.std.specs.Prelude.{◌≡◌, ◌<◌, length};
ghost use Rattle.std.specs.Iterator.{YieldsFirstBy, item_count};
ghost use Rattle.tree.specs.Steps.{spot, later_spots, earlier_spots, child_spots, ancestor_spots};
ghost use Rattle.tree.specs.Walks.{siblings_left, preceding_left, ancestors_left};

use crate::node::Node;

// The three differ in their step alone: one walk over any step would be a type parameter and a trait for three short bodies.
// Each keeps the node that it came to, and reads a link only when it is asked for another.

/// Where a walk along siblings goes on: at the first child of a node, or at the sibling behind a node.
#[derive(Clone, Copy)]
enum Onward<'a> {
    Into(Node<'a>),
    Past(Node<'a>),
}

/// A walk along siblings, in order.
#[derive(Drop)]
pub struct Siblings<'a> {
    from: Onward<'a>,
}

/// A walk along the siblings before a node, nearest first.
#[derive(Drop)]
pub struct Preceding<'a> {
    at: Node<'a>,
}

/// A walk up from a node, the parent first.
#[derive(Drop)]
pub struct Ancestors<'a> {
    at: Node<'a>,
}

impl<'a> Iterator for Siblings<'a> {
    type Item = Node<'a>;

    ghost next_gives = { YieldsFirstBy spot siblings_left };

    ghost remaining = { item_count siblings_left };

    fn next(&mut self) -> Option<Node<'a>> {
        let node = match self.from {
            Onward::Into(above) => above.first()?,
            Onward::Past(before) => before.next()?,
        };
        self.from = Onward::Past(node);
        Some(node)
    }
}

impl<'a> Iterator for Preceding<'a> {
    type Item = Node<'a>;

    ghost next_gives = { YieldsFirstBy spot preceding_left };

    ghost remaining = { item_count preceding_left };

    fn next(&mut self) -> Option<Node<'a>> {
        let sibling = self.at.previous()?;
        self.at = sibling;
        Some(sibling)
    }
}

impl<'a> Iterator for Ancestors<'a> {
    type Item = Node<'a>;

    ghost next_gives = { YieldsFirstBy spot ancestors_left };

    ghost remaining = { item_count ancestors_left };

    fn next(&mut self) -> Option<Node<'a>> {
        let parent = self.at.parent()?;
        self.at = parent;
        Some(parent)
    }
}

impl<'a> Node<'a> {
    /// The node's children.
    pub fn children(self) -> Siblings<'a>
        ensures spots { siblings_left result ≡ child_spots (spot self.entry) }
        ensures few { length (siblings_left result) < 65535 }
    {
        let from = Onward::Into(self);
        Siblings { from }
    }

    /// The siblings behind the node.
    pub fn following(self) -> Siblings<'a>
        ensures spots { siblings_left result ≡ later_spots (spot self.entry) }
        ensures few { length (siblings_left result) < 65535 }
    {
        let from = Onward::Past(self);
        Siblings { from }
    }

    /// The siblings before the node, nearest first.
    pub fn preceding(self) -> Preceding<'a>
        ensures spots { preceding_left result ≡ earlier_spots (spot self.entry) }
        ensures few { length (preceding_left result) < 65535 }
    {
        Preceding { at: self }
    }

    /// The nodes above the node, its parent first.
    pub fn ancestors(self) -> Ancestors<'a>
        ensures spots { ancestors_left result ≡ ancestor_spots (spot self.entry) }
        ensures few { length (ancestors_left result) < 65535 }
    {
        Ancestors { at: self }
    }
}
