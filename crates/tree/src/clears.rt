//! Clearing: all nodes but the root go.

ghost use Rattle.std.specs.Prelude.{◌≡◌, ◌++◌, reverse};
ghost use Rattle.forest.specs.Forest.{places};
ghost use Rattle.table.specs.Tables.{tree as tree_of, free as free_of};
ghost use Rattle.model.specs.State.{Work, Clear, outcome, after};
ghost use Rattle.tree.specs.Cleared.{alone, done};
ghost use Rattle.tree.specs.Well.{below};
ghost use Rattle.tree.specs.Trees.{state};

use crate::tree::Tree;
use refusal::Refusal;
use table::Table;

/// Removes every child of the root, the first first.
fn cut_all(table: &mut Table)
    ensures forest { tree_of table.new ≡ alone (tree_of table.old) }
    ensures given { free_of table.new ≡ reverse (places (below (tree_of table.old))) ++ free_of table.old }
{
    // No `for`: the table changes under the walk.
    while let Some(child) = table.first(0) {
        table.remove(child);
    }
}

impl Tree {
    /// Leaves the root alone.
    pub fn clear(&mut self) -> Result<(), Refusal>
        ensures answer { (w : Work) → done result ≡ outcome (state self.old) w Clear }
        ensures state { (w : Work) → state self.new ≡ after (state self.old) w Clear }
    {
        if self.edits == u32::MAX {
            return Err(Refusal::Worn);
        }
        cut_all(&mut self.table);
        self.edits += 1;
        Ok(())
    }
}
