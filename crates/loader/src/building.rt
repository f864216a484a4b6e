ghost use Rattle.std.specs.Prelude.{◌≡◌, ◌+◌, ◌<◌, ◌≤◌, ◌++◌, length, vec_len, vec_capacity};
ghost use Rattle.forest.specs.Forest.{size};
ghost use Rattle.table.specs.Tables.{tree, free as free_of};
ghost use Rattle.tree.specs.Well.{Well};
ghost use Rattle.tree.specs.Trees.{state};
ghost use Rattle.loader.specs.Sites.{Began, added, built_state, place_for, site_of};

use crate::builder::Builder;
use crate::error::LoadError;
use std::alloc::Global;
use table::{Kind, Own, Place, Table};
use tree::Tree;

/// Puts the bytes behind those that are stored. Each is pushed, since no `extend` of the library promises both that it does not
/// fail where there is room and that the room stays.
fn push_all(store: &mut Vec<u8>, bytes: &[u8])
    requires { vec_len store.old + length bytes.now ≤ vec_capacity store.old }
    ensures items { store.new.items ≡ store.old.items ++ bytes.now }
    ensures len { vec_len store.new ≡ vec_len store.old + length bytes.now }
    ensures capacity { vec_capacity store.new ≡ vec_capacity store.old }
{
    for b in bytes {
        store.push_reserved(*b);
    }
}

impl Builder {
    /// The root alone, in a table of so many records, with room for so many bytes.
    pub fn new(heap: Global, records: usize, room: usize) -> Result<Builder, LoadError>
        requires some { 0 < records }
        requires few { records ≤ 65535 }
        requires large { room ≤ 1048576 }
        ensures { Began records room result }
    {
        let root = Own {
            number: 1,
            kind: Kind::Root,
            start: 0,
            len: 0,
        };
        let table = Table::new(heap, records, root)?;
        let store = Vec::with_capacity(heap, room)?;
        Ok(Builder {
            table,
            store,
            room,
            at: 0,
        })
    }

    /// Puts a new node behind all children of the node where the builder stands, and says at which place; nothing, where no place is
    /// free or the bytes find no room.
    #[tactic(auto, using(table::proofs::Seen::tree_size, table::proofs::Seen::records_few))]
    pub fn add(&mut self, kind: Kind, bytes: &[u8]) -> Option<Place>
        ensures site { site_of self.new ≡ added (site_of self.old) (free_of self.old.table) kind bytes.now }
        ensures place { result ≡ place_for (site_of self.old) (free_of self.old.table) bytes.now }
    {
        if self.table.vacant() == 0 {
            return None;
        }
        if bytes.len() > self.room - self.store.len() {
            return None;
        }
        let own = Own {
            number: self.table.living() as u32 + 1,
            kind,
            start: self.store.len() as u32,
            len: bytes.len() as u32,
        };
        push_all(&mut self.store, bytes);
        Some(self.table.append(self.at, own))
    }

    /// The tree that was built.
    pub fn finish(self) -> Tree
        requires { Well self.table self.store.items (size (tree self.table) + 1) self.room (vec_capacity self.store) }
        ensures { state result ≡ built_state self }
    {
        let fresh = self.table.living() as u64 + 1;
        let Builder {
            table,
            store,
            room,
            at: _,
        } = self;
        Tree::of(table, store, room, fresh)
    }
}
