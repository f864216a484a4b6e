ghost use Rattle.std.specs.Prelude.{◌≡◌, ◌-◌, ◌<◌, ◌≤◌, reverse, replicate, IfOk, vec_capacity, ◌≢◌, slice_set};
ghost use Rattle.table.specs.Nodes.{blank, leaf};
ghost use Rattle.table.specs.Tables.{run, Started};

use crate::kind::Kind;
use crate::node::{Node, Own, Place};
use crate::table::{NoTable, Table};
use std::alloc::{AllocError, Global};

/// The records of a new table: the root, and then free places.
fn fresh_nodes(heap: Global, records: usize, root: Own) -> Result<Vec<Node>, AllocError>
    requires { 0 < records }
    ensures { IfOk result (λ v. v.items ≡ slice_set (replicate records blank) 0 (leaf root 65535 65535 65535)) }
{
    let nobody = Own {
        number: 0,
        kind: Kind::Null,
        start: 0,
        len: 0,
    };
    let mut nodes = vec![in heap; Node::alone(nobody); records]?;
    nodes[0] = Node::alone(root);
    Ok(nodes)
}

/// The stack of all places but the root's, the lowest on top. They are pushed one by one, since no lemma of the library says what
/// a range from the back gives to `extend`.
fn fresh_stack(heap: Global, records: usize) -> Result<Vec<Place>, AllocError>
    requires some { 0 < records }
    requires few { records ≤ 65535 }
    ensures { IfOk result (λ v. (reverse v.items ≡ run 1 (records - 1)) × (records ≤ vec_capacity v)) }
{
    let mut spare = Vec::with_capacity(heap, records)?;
    for k in (1..records).rev() {
        spare.push_reserved(k as Place);
    }
    Ok(spare)
}

impl Table {
    /// How many bytes a record takes.
    pub fn record_size() -> usize
        ensures { result ≡ 32 }
    {
        std::mem::size_of::<Node>()
    }

    /// A table of so many records with a root alone in it. No later call asks for memory.
    pub fn new(heap: Global, records: usize, root: Own) -> Result<Table, NoTable>
        requires { root.number ≢ 0 }
        ensures { Started records root result }
    {
        if !(1..=65_535).contains(&records) {
            return Err(NoTable::Size);
        }
        let nodes = fresh_nodes(heap, records, root)?;
        let spare = fresh_stack(heap, records)?;
        Ok(Table { nodes, spare })
    }
}
