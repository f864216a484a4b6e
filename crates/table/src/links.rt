//! The writes that link a leaf in or cut a node off. The records are lent without the table, whose fact does not hold on the way.

ghost use Rattle.std.specs.Prelude.{◌≡◌, ◌<◌, length, ◌≢◌};
ghost use Rattle.table.specs.Nodes.{up_of, prev_of, next_of, first_of};
ghost use Rattle.table.specs.Writes.{link_after, link_first, unlinked};

use crate::link::Link;
use crate::node::{Node, Own, Place};

/// Fills the place with a leaf, and links it in right after the sibling.
pub fn link_after(nodes: &mut [Node], sibling: Place, place: Place, own: Own)
    requires sibling_within { sibling < length nodes.old }
    requires place_within { place < length nodes.old }
    requires next_within { (next_of nodes.old sibling ≢ 65535) → next_of nodes.old sibling < length nodes.old }
    requires parent_within { up_of nodes.old sibling < length nodes.old }
    ensures { nodes.new ≡ link_after nodes.old sibling place own }
{
    let link = Link::to(place);
    let old = nodes[sibling as usize];
    nodes[place as usize] = Node {
        parent: old.parent,
        prev: Link::to(sibling),
        next: old.next,
        ..Node::alone(own)
    };
    nodes[sibling as usize].next = link;
    match old.next.target() {
        None => nodes[old.parent.index()].last = link,
        Some(after) => nodes[after as usize].prev = link,
    }
}

/// Fills the place with a leaf, and links it in as the first child of the parent.
pub fn link_first(nodes: &mut [Node], parent: Place, place: Place, own: Own)
    requires parent_within { parent < length nodes.old }
    requires place_within { place < length nodes.old }
    requires first_within { (first_of nodes.old parent ≢ 65535) → first_of nodes.old parent < length nodes.old }
    ensures { nodes.new ≡ link_first nodes.old parent place own }
{
    let link = Link::to(place);
    let first = nodes[parent as usize].first;
    nodes[place as usize] = Node {
        parent: Link::to(parent),
        next: first,
        ..Node::alone(own)
    };
    nodes[parent as usize].first = link;
    match first.target() {
        None => nodes[parent as usize].last = link,
        Some(second) => nodes[second as usize].prev = link,
    }
}

/// Cuts the node at the place, with all below it, off from its parent and its siblings.
pub fn unlink(nodes: &mut [Node], place: Place)
    requires place_within { place < length nodes.old }
    requires next_within { (next_of nodes.old place ≢ 65535) → next_of nodes.old place < length nodes.old }
    requires prev_within { (prev_of nodes.old place ≢ 65535) → prev_of nodes.old place < length nodes.old }
    requires parent_within { up_of nodes.old place < length nodes.old }
    ensures { nodes.new ≡ unlinked nodes.old place }
{
    let old = nodes[place as usize];
    match old.prev.target() {
        None => nodes[old.parent.index()].first = old.next,
        Some(before) => nodes[before as usize].next = old.next,
    }
    match old.next.target() {
        None => nodes[old.parent.index()].last = old.prev,
        Some(after) => nodes[after as usize].prev = old.prev,
    }
    nodes[place as usize].next = Link::NOWHERE;
}
