ghost use Rattle.std.specs.Prelude.{◌≡◌, ◌+◌, ◌<◌, ◌≤◌, length, vec_len, vec_capacity, ◌≢◌};
ghost use Rattle.forest.specs.Forest.{size};
ghost use Rattle.forest.specs.Links.{target as leads};
ghost use Rattle.table.specs.Nodes.{first_of, last_of, forest_at};
ghost use Rattle.table.specs.Sound.{Loose, Released};
ghost use Rattle.table.specs.Writes.{spliced, cleared, afterwards};

use crate::link::Link;
use crate::node::{Node, Place};

/// Makes the place free, and answers which node is to be given back next: the first child of the node there, if it has one, whose
/// last sibling now leads to what came after the node.
pub fn detach(nodes: &mut [Node], place: Place) -> Option<Place>
    requires place_within { place < length nodes.old }
    requires last_within { (first_of nodes.old place ≢ 65535) → last_of nodes.old place < length nodes.old }
    ensures nodes { nodes.new ≡ cleared (spliced nodes.old place) place }
    ensures next { result ≡ leads (afterwards nodes.old place) }
{
    let old = nodes[place as usize];
    let first = old.first.target();
    if first.is_some() {
        nodes[old.last.index()].next = old.next;
    }
    nodes[place as usize].own.number = 0;
    first.or(old.next.target())
}

/// Gives back each place of the forest that begins where the link leads, which nothing else leads to. The children of a node come to
/// stand before its later siblings, so that the walk needs neither a stack nor a recursion.
pub fn release(nodes: &mut [Node], spare: &mut Vec<Place>, start: Link)
    requires loose { Loose nodes.old start.0 (forest_at nodes.old start.0) }
    requires room { vec_len spare.old + size (forest_at nodes.old start.0) ≤ vec_capacity spare.old }
    ensures released { Released nodes.old spare.old.items (forest_at nodes.old start.0) nodes.new spare.new.items }
    ensures capacity { vec_capacity spare.new ≡ vec_capacity spare.old }
{
    let mut step = start.target();
    while let Some(place) = step {
        step = detach(nodes, place);
        spare.push_reserved(place);
    }
}
