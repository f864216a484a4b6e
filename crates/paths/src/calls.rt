//! The questions on a document: `path`, `at`, `find` and `element_index`.

ghost use Rattle.std.specs.Prelude.{◌≡◌, ℕ, length, Option};
ghost use Rattle.model.specs.State.{at_answer, element_answer, find_answer, path_answer};
ghost use Rattle.document.specs.Documents.{optional, state_of, told};
ghost use Rattle.tree.specs.Sorts.{handle_for};
ghost use Rattle.paths.specs.Ways.{counted, written};

use crate::downward::node_at;
use crate::members::is_named;
use crate::upward::{ordinal, path_length, write_path};
use document::Document;
use refusal::Refusal;
use table::{Handle, Kind};

/// The fewest places that a list for a path has: no path is longer.
const PATH_PLACES: usize = 128;

/// Writes the path of the node that the handle names at the start of the list, and answers how many ordinals it has. A list of less than 128 places,
/// or a document that was not loaded, is BadMemory; a handle that names no node is Gone; the root, a name, a token or trivia is NotHere. A refusal
/// leaves the list as it was.
pub fn path(document: &Document, handle: Handle, list: &mut [usize]) -> Result<usize, Refusal>
    ensures answer { told (λ (n : ℕ). n) result ≡ counted (path_answer (state_of document.now) (handle_for handle) (length list.old)) }
    ensures holds { list.new ≡ written (path_answer (state_of document.now) (handle_for handle) (length list.old)) list.old }
{
    if list.len() < PATH_PLACES {
        return Err(Refusal::BadMemory);
    }
    let node = document.find(handle)?;
    let steps = path_length(node).ok_or(Refusal::NotHere)?;
    write_path(node, steps, list);
    Ok(steps)
}

/// The handle of the node at the path. A document that was not loaded is BadMemory; where no node has the path, that is NotHere.
pub fn at(document: &Document, path: &[usize]) -> Result<Handle, Refusal>
    ensures { told handle_for result ≡ at_answer (state_of document.now) path.now }
{
    let root = document.loaded()?.root();
    let node = node_at(root, path).ok_or(Refusal::NotHere)?;
    Ok(node.handle())
}

/// The first property of the object that the handle names whose name has these bytes between its quotes. A document that was not loaded is BadMemory; a
/// handle that names no node is Gone; a node that is no object is NotHere.
pub fn find(document: &Document, handle: Handle, name: &[u8]) -> Result<Option<Handle>, Refusal>
    ensures { told (optional handle_for) result ≡ find_answer (state_of document.now) (handle_for handle) name.now }
{
    let node = document.find(handle)?;
    if !matches!(node.kind(), Kind::Object) {
        return Err(Refusal::NotHere);
    }
    let property = node.children().find(|child| is_named(*child, name));
    Ok(property.map(|property| property.handle()))
}

/// The ordinal of an element in its array; every other node has none. A document that was not loaded is BadMemory; a handle that names no node is Gone.
pub fn element_index(document: &Document, handle: Handle) -> Result<Option<usize>, Refusal>
    ensures { told (λ (o : Option ℕ). o) result ≡ element_answer (state_of document.now) (handle_for handle) }
{
    let node = document.find(handle)?;
    let in_array = node.parent().is_some_and(|parent| parent.is_array());
    if !in_array || !node.is_value() {
        return Ok(None);
    }
    Ok(Some(ordinal(node)))
}
