ghost use Rattle.std.specs.Prelude.{◌≤◌, length};

use std::ops::Range;

/// The items at the places of `live`, in lent room.
#[derive(Drop)]
pub struct WorkList<'a, T: Copy> {
    pub(crate) items: &'a mut [T],
    pub(crate) live: Range<usize>,
    ghost ordered: { live.start ≤ live.end },
    ghost within: { live.end ≤ length items.now },
}
