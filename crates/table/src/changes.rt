ghost use Rattle.std.specs.Prelude.{◌≡◌, ◌<◌};
ghost use Rattle.forest.specs.Forest.{count};
ghost use Rattle.forest.specs.Edits.{update};
ghost use Rattle.table.specs.Writes.{moved};
ghost use Rattle.table.specs.Tables.{tree, free};

use crate::node::Place;
use crate::table::Table;

impl Table {
    /// The bytes of the node at `place` stand at `start` of the text store now, and are `len` many.
    pub fn set_text(&mut self, place: Place, start: u32, len: u32)
        requires { 0 < count place (tree self.old) }
        ensures forest { tree self.new ≡ update place (λ o. moved o start len) (tree self.old) }
        ensures same { free self.new ≡ free self.old }
    {
        let own = &mut self.nodes[place as usize].own;
        own.start = start;
        own.len = len;
    }
}
