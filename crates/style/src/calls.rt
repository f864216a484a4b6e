//! The questions of a document, with what they refuse: BadMemory before a load or where the queue is short, Gone.

ghost use Rattle.std.specs.Prelude.{◌≡◌, ◌||◌, length, nat_lt};
ghost use Rattle.model.specs.State.{Given, newline_answer, uses_answer, unless, unloaded};
ghost use Rattle.refusal.specs.declared.Refusal.TheVariants.{BadMemory};
ghost use Rattle.tree.specs.Sorts.{handle_for};
ghost use Rattle.tree.specs.Trees.{state};
ghost use Rattle.document.specs.Documents.{state_of, told};
ghost use Rattle.style.specs.Breaks.{kind_for};

use crate::commas::uses_trailing_commas_in;
use crate::newline::{NewlineKind, newline_kind_in};
use document::Document;
use refusal::Refusal;
use table::{Handle, Place};
use tree::Tree;

/// The tree that was loaded, where the queue has a place for each of its records.
fn tree_with_room<'a>(document: &'a Document, queue: &[Place]) -> Result<&'a Tree, Refusal>
    ensures { let s = state_of document.now in told (λ t. state t.now) result ≡ unless (unloaded s || nat_lt (length queue.now) s.records) BadMemory (Given s) }
{
    let tree = document.loaded()?;
    if tree.records() > queue.len() {
        return Err(Refusal::BadMemory);
    }
    Ok(tree)
}

/// The line break that the document is written with. The queue has a place for each record.
pub fn newline_kind(document: &Document, queue: &mut [Place]) -> Result<NewlineKind, Refusal>
    ensures { told kind_for result ≡ newline_answer (state_of document.now) (length queue.old) }
{
    let tree = tree_with_room(document, queue)?;
    Ok(newline_kind_in(tree, queue))
}

/// Whether the node or what is below it uses trailing commas. The queue has a place for each record.
pub fn uses_trailing_commas(
    document: &Document,
    handle: Handle,
    queue: &mut [Place],
) -> Result<bool, Refusal>
    ensures { told (λ b. b) result ≡ uses_answer (state_of document.now) (handle_for handle) (length queue.old) }
{
    let node = tree_with_room(document, queue)?.find(handle)?;
    Ok(uses_trailing_commas_in(node, queue))
}
