ghost use Rattle.std.specs.Prelude.{◌≡◌, vec_len, vec_capacity};
ghost use Rattle.table.specs.Tables.{records as records_of, free as free_of};
ghost use Rattle.tree.specs.Well.{Well, kids_in};
ghost use Rattle.tree.specs.Trees.{state};

use crate::tree::Tree;
use table::Table;

impl Tree {
    /// The tree of a table and a store that are a document, which takes `room` bytes, before its first edit.
    pub fn of(table: Table, store: Vec<u8>, room: usize, fresh: u64) -> Tree
        requires { Well table store.items fresh room (vec_capacity store) }
        ensures { state result ≡ record { kids = kids_in table store.items; fresh = fresh; used = vec_len store; edits = 0; records = records_of table; store = room; free = free_of table } }
    {
        Tree {
            table,
            store,
            room,
            fresh,
            edits: 0,
        }
    }
}
