ghost use Rattle.std.specs.Prelude.{vec_capacity};
ghost use Rattle.tree.specs.Well.{Well};

use table::Table;

/// The nodes of a loaded text with the bytes of their leaves, the next number to be given and the edits accepted so far.
#[derive(Drop)]
pub struct Tree {
    pub(crate) table: Table,
    pub(crate) store: Vec<u8>,
    pub(crate) room: usize,
    pub(crate) fresh: u64,
    pub(crate) edits: u32,
    ghost ok: { ∥ Well table store.items fresh room (vec_capacity store) ∥₁ },
}
