ghost use Rattle.document.specs.Runs.{Loads, Promises};

use crate::document::Document;
use loader::{LoadError, load_tree};

impl Document {
    /// Loads the text, with so many records and a store of so many bytes, in place of what was loaded before. A refusal leaves the document as it was.
    pub fn load(&mut self, records: usize, store: usize, text: &[u8]) -> Result<(), LoadError>
        ensures loaded { Loads records store text.now self.old self.new result }
        ensures promise { Promises text.now self.new result }
    {
        self.tree = Some(load_tree(self.heap, records, store, text)?);
        Ok(())
    }
}
