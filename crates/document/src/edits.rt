ghost use Rattle.std.specs.Prelude.{◌≡◌};
ghost use Rattle.model.specs.State.{Work, Clear, outcome, after};
ghost use Rattle.tree.specs.Cleared.{done};
ghost use Rattle.document.specs.Documents.{state_of};

use crate::document::Document;
use refusal::Refusal;

impl Document {
    /// Takes all nodes but the root away.
    pub fn clear(&mut self) -> Result<(), Refusal>
        ensures answer { (w : Work) → done result ≡ outcome (state_of self.old) w Clear }
        ensures state { (w : Work) → state_of self.new ≡ after (state_of self.old) w Clear }
    {
        self.tree.as_mut().ok_or(Refusal::BadMemory)?.clear()
    }
}
