//! The questions, with what they refuse.

ghost use Rattle.std.specs.Prelude.{length};
ghost use Rattle.model.specs.State.{indent_answer};
ghost use Rattle.tree.specs.Sorts.{handle_for};
ghost use Rattle.document.specs.Documents.{state_of};
ghost use Rattle.printing.specs.Buffers.{FillsOr};

use crate::blanks::{blanks_size, indent_end, write_blanks};
use document::Document;
use refusal::Refusal;
use table::Handle;

/// Writes the Whitespace between the beginning of the node's line and the node at the start of the buffer, and says how many bytes; absent if something else stands there too.
pub fn indent_text(
    document: &Document,
    handle: Handle,
    out: &mut [u8],
) -> Result<Option<usize>, Refusal>
    ensures { FillsOr (indent_answer (state_of document.now) (handle_for handle) (length out.old)) out.old out.new result }
{
    let node = document.find(handle)?;
    let Some(end) = indent_end(node) else {
        return Ok(None);
    };
    let size = blanks_size(end);
    if out.len() < size {
        return Err(Refusal::Short(size));
    }
    write_blanks(end, out, size);
    Ok(Some(size))
}
