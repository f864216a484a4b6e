//! The questions, with what they refuse: BadMemory before a load, Gone, NotHere.

ghost use Rattle.std.specs.Prelude.{◌≡◌};
ghost use Rattle.model.specs.State.{value_answer, parent_answer, previous_answer, next_answer, child_answer, comma_answer};
ghost use Rattle.tree.specs.Sorts.{handle_for};
ghost use Rattle.document.specs.Documents.{state_of, told, optional};
ghost use Rattle.neighbours.specs.Pairs.{pair_for};

use document::Document;
use refusal::Refusal;
use table::Handle;
use tree::Class;

/// The value of the root or of a property.
pub fn value(document: &Document, handle: Handle) -> Result<Option<Handle>, Refusal>
    ensures { told (optional handle_for) result ≡ value_answer (state_of document.now) (handle_for handle) }
{
    let node = document.find(handle)?;
    if !node.has_one_value() {
        return Err(Refusal::NotHere);
    }
    let value = node.children().find(|child| child.is_value());
    Ok(value.map(|value| value.handle()))
}

/// The parent and the index among its children; the root has none.
pub fn parent_info(document: &Document, handle: Handle) -> Result<Option<(Handle, usize)>, Refusal>
    ensures { told (optional pair_for) result ≡ parent_answer (state_of document.now) (handle_for handle) }
{
    let node = document.find(handle)?;
    let index = node.child_index();
    Ok(node.parent().map(|parent| (parent.handle(), index)))
}

/// The child one index before.
pub fn previous_sibling(document: &Document, handle: Handle) -> Result<Option<Handle>, Refusal>
    ensures { told (optional handle_for) result ≡ previous_answer (state_of document.now) (handle_for handle) }
{
    let node = document.find(handle)?;
    Ok(node.previous().map(|sibling| sibling.handle()))
}

/// The child one index behind.
pub fn next_sibling(document: &Document, handle: Handle) -> Result<Option<Handle>, Refusal>
    ensures { told (optional handle_for) result ≡ next_answer (state_of document.now) (handle_for handle) }
{
    let node = document.find(handle)?;
    Ok(node.next().map(|sibling| sibling.handle()))
}

/// The child of an index, of a container.
pub fn child_at_index(
    document: &Document,
    handle: Handle,
    index: usize,
) -> Result<Option<Handle>, Refusal>
    ensures { told (optional handle_for) result ≡ child_answer (state_of document.now) (handle_for handle) index }
{
    let node = document.find(handle)?;
    if !node.is_container() {
        return Err(Refusal::NotHere);
    }
    Ok(node.children().nth(index).map(|child| child.handle()))
}

/// The comma behind a node, with only trivia between.
pub fn trailing_comma(document: &Document, handle: Handle) -> Result<Option<Handle>, Refusal>
    ensures { told (optional handle_for) result ≡ comma_answer (state_of document.now) (handle_for handle) }
{
    let node = document.find(handle)?;
    let behind = node.following().find(|sibling| !sibling.is_gap());
    let comma = behind.filter(|sibling| sibling.class() == Class::Comma);
    Ok(comma.map(|comma| comma.handle()))
}
