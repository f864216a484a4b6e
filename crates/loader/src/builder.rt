ghost use Rattle.std.specs.Prelude.{◌<◌, ◌≤◌, vec_len, vec_capacity};
ghost use Rattle.forest.specs.Forest.{count};
ghost use Rattle.table.specs.Tables.{tree};

use table::{Place, Table};

/// Builds the tree of a text as it is read: the nodes, the bytes of their leaves, how many bytes there may be, and the node whose
/// children are being built.
#[derive(Drop)]
pub struct Builder {
    pub(crate) table: Table,
    pub(crate) store: Vec<u8>,
    pub(crate) room: usize,
    pub(crate) at: Place,
    ghost there: { 0 < count at (tree table) },
    ghost used: { vec_len store ≤ room },
    ghost roomy: { room ≤ vec_capacity store },
    ghost large: { room ≤ 1048576 },
}
