ghost use Rattle.std.specs.Prelude.{◌≡◌, vec_capacity};
ghost use Rattle.table.specs.Sound.{Good};
ghost use Rattle.table.specs.declared.table.NoTable.TheVariants.{Memory};

use crate::node::{Node, Place};
use std::alloc::AllocError;

/// A table of nodes, and the stack of its free places. The root stands at the place 0.
#[derive(Drop)]
pub struct Table {
    pub(crate) nodes: Vec<Node>,
    pub(crate) spare: Vec<Place>,
    ghost ok: { ∥ Good nodes.items spare.items (vec_capacity spare) ∥₁ },
}

/// Why there is no table.
#[derive(Clone, Copy, Debug, PartialEq, Eq)]
pub enum NoTable {
    /// The number of records is not one of 1 to 65,535.
    Size,
    /// There is not enough memory.
    Memory,
}

impl From<AllocError> for NoTable {
    ghost from_gives = { λ _ error. error ≡ Memory };

    fn from(_: AllocError) -> NoTable {
        NoTable::Memory
    }
}
