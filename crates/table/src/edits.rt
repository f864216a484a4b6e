ghost use Rattle.std.specs.Prelude.{◌≡◌, ◌<◌, [], ◌∷◌, ◌++◌, reverse, length, vec_len, vec_capacity, ◌≢◌};
ghost use Rattle.forest.specs.Forest.{count};
ghost use Rattle.forest.specs.Edits.{ins_after, ins_first, ins_last, delete, family};
ghost use Rattle.table.specs.Tables.{tree, free};

use crate::link::Link;
use crate::links::{link_after, link_first, unlink};
use crate::node::{Own, Place};
use crate::release::release;
use crate::table::Table;

/// Takes the place on top of the stack.
fn take(spare: &mut Vec<Place>) -> Place
    requires { 0 < vec_len spare.old }
    ensures items { spare.old.items ≡ spare.new.items ++ result ∷ [] }
    ensures capacity { vec_capacity spare.new ≡ vec_capacity spare.old }
{
    spare.pop().unwrap()
}

// `insert_after` and `insert_first` differ in the definition that they meet and in what they ask: one generic function would take both as parameters and be no plainer.
impl Table {
    /// Puts a new node right after the node `sibling`, which is not the root, and says at which place.
    pub fn insert_after(&mut self, sibling: Place, own: Own) -> Place
        requires there { 0 < count sibling (tree self.old) }
        requires inner { sibling ≢ 0 }
        requires numbered { own.number ≢ 0 }
        requires room { 0 < length (free self.old) }
        ensures forest { tree self.new ≡ ins_after sibling result own (tree self.old) }
        ensures taken { free self.old ≡ result ∷ free self.new }
    {
        let place = take(&mut self.spare);
        link_after(&mut self.nodes, sibling, place, own);
        place
    }

    /// Puts a new node before all children of the node `parent`, and says at which place.
    pub fn insert_first(&mut self, parent: Place, own: Own) -> Place
        requires there { 0 < count parent (tree self.old) }
        requires numbered { own.number ≢ 0 }
        requires room { 0 < length (free self.old) }
        ensures forest { tree self.new ≡ ins_first parent result own (tree self.old) }
        ensures taken { free self.old ≡ result ∷ free self.new }
    {
        let place = take(&mut self.spare);
        link_first(&mut self.nodes, parent, place, own);
        place
    }

    /// Puts a new node behind all children of the node `parent`, and says at which place.
    pub fn append(&mut self, parent: Place, own: Own) -> Place
        requires there { 0 < count parent (tree self.old) }
        requires numbered { own.number ≢ 0 }
        requires room { 0 < length (free self.old) }
        ensures forest { tree self.new ≡ ins_last parent result own (tree self.old) }
        ensures taken { free self.old ≡ result ∷ free self.new }
    {
        match self.last(parent) {
            None => self.insert_first(parent, own),
            Some(sibling) => self.insert_after(sibling, own),
        }
    }

    /// Removes the node at `place`, which is not the root, with all below it. Their places lie on the stack in text order, so
    /// that the last of them is the next to be taken.
    pub fn remove(&mut self, place: Place)
        requires there { 0 < count place (tree self.old) }
        requires inner { place ≢ 0 }
        ensures forest { tree self.new ≡ delete place (tree self.old) }
        ensures given { free self.new ≡ reverse (family place (tree self.old)) ++ free self.old }
    {
        let nodes = self.nodes.as_mut_slice();
        unlink(nodes, place);
        release(nodes, &mut self.spare, Link::to(place));
    }
}
