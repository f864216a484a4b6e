//! The printing and the text of a leaf, with what they refuse.

ghost use Rattle.std.specs.Prelude.{◌≡◌, length};
ghost use Rattle.model.specs.State.{print_answer, text_answer};
ghost use Rattle.tree.specs.Sorts.{handle_for};
ghost use Rattle.document.specs.Documents.{state_of};
ghost use Rattle.printing.specs.Buffers.{Fills};

use crate::buffers::put;
use crate::sizes::size_from;
use crate::writes::write_from;
use document::Document;
use refusal::Refusal;
use table::Handle;

/// Writes every leaf's bytes in order at the start of the buffer, and says how many.
pub fn print(document: &Document, out: &mut [u8]) -> Result<usize, Refusal>
    ensures { Fills (print_answer (state_of document.now) (length out.old)) out.old out.new result }
{
    let root = document.loaded()?.root();
    let size = size_from(root.children());
    if out.len() < size {
        return Err(Refusal::Short(size));
    }
    Ok(write_from(root.children(), out, 0))
}

/// Writes the bytes of a Number, String, Whitespace or Comment at the start of the buffer, and says how many.
pub fn text(document: &Document, handle: Handle, out: &mut [u8]) -> Result<usize, Refusal>
    ensures { Fills (text_answer (state_of document.now) (handle_for handle) (length out.old)) out.old out.new result }
{
    let node = document.find(handle)?;
    if !node.is_stored() {
        return Err(Refusal::NotHere);
    }
    let bytes = node.spelling();
    if out.len() < bytes.len() {
        return Err(Refusal::Short(bytes.len()));
    }
    Ok(put(out, 0, bytes))
}
