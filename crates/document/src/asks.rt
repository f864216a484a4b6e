ghost use Rattle.std.specs.Prelude.{◌≡◌, Some, None, MatchResult};
ghost use Rattle.model.specs.State.{Given, asking, blank_state, kind_answer, root_answer, edits_answer};
ghost use Rattle.tree.specs.Sorts.{handle_for};
ghost use Rattle.tree.specs.Classes.{kind_for};
ghost use Rattle.tree.specs.Steps.{spot};
ghost use Rattle.document.specs.Documents.{state_of, told};
ghost use Rattle.refusal.specs.declared.Refusal.TheVariants.{BadMemory};

use crate::document::Document;
use refusal::Refusal;
use std::alloc::Global;
use table::Handle;
use tree::class::node_kind;
use tree::{Node, NodeKind, Tree};

impl Document {
    /// A document before its first load.
    pub fn new(heap: Global) -> Document
        ensures { state_of result ≡ blank_state }
    {
        Document { heap, tree: None }
    }

    /// The tree that was loaded.
    pub fn loaded(&self) -> Result<&Tree, Refusal>
        ensures { MatchResult result (λ t. self.now.tree ≡ Some t.now) (λ e. (self.now.tree ≡ None) × (e ≡ BadMemory)) }
    {
        self.tree.as_ref().ok_or(Refusal::BadMemory)
    }

    /// The node that a handle names.
    pub fn find(&self, handle: Handle) -> Result<Node<'_>, Refusal>
        ensures { told spot result ≡ asking (state_of self.now) (handle_for handle) Given }
    {
        self.loaded()?.find(handle)
    }

    /// What kind of node a handle names.
    pub fn kind(&self, handle: Handle) -> Result<NodeKind, Refusal>
        ensures { told kind_for result ≡ kind_answer (state_of self.now) (handle_for handle) }
    {
        let node = self.find(handle)?;
        Ok(node_kind(node.kind()))
    }

    /// The root's handle.
    pub fn root(&self) -> Result<Handle, Refusal>
        ensures { told handle_for result ≡ root_answer (state_of self.now) }
    {
        Ok(self.loaded()?.root().handle())
    }

    /// How many edits were accepted since the load.
    pub fn edits(&self) -> Result<u32, Refusal>
        ensures { told (λ n. n) result ≡ edits_answer (state_of self.now) }
    {
        Ok(self.loaded()?.edits())
    }
}
