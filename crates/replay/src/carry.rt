ghost use Rattle.std.specs.Prelude.{◌≡◌};
ghost use Rattle.replay.specs.Carried.{answer_to, carried};
ghost use Rattle.replay.specs.Buffers.{SameBuffers, world_with};

use crate::answer::{Answer, noted};
use crate::buffers::Buffers;
use crate::call::Call;
use document::Document;
use neighbours::{
    child_at_index, next_sibling, parent_info, previous_sibling, trailing_comma, value,
};
use paths::{at, element_index, find, path};
use printing::{print, text};
use style::{newline_kind, uses_trailing_commas};

/// Carries out one call, and answers what is recorded of it.
pub fn carry(document: &mut Document, call: Call<'_>, buffers: &mut Buffers<'_>) -> Answer
    ensures answer { result ≡ answer_to (world_with document.old buffers.old) call.entry }
    ensures world { world_with document.new buffers.new ≡ carried (world_with document.old buffers.old) call.entry }
    ensures same { SameBuffers buffers.old buffers.new }
{
    match call {
        Call::Print => noted(print(document, buffers.bytes), Answer::Count),
        Call::Root => noted(document.root(), Answer::Node),
        Call::Edits => noted(document.edits(), |edits| Answer::Count(edits as usize)),
        Call::Value(handle) => noted(value(document, handle), Answer::Perhaps),
        Call::Kind(handle) => noted(document.kind(handle), Answer::Kind),
        Call::Path(handle) => noted(path(document, handle, buffers.ordinals), Answer::Count),
        Call::At(route) => noted(at(document, route), Answer::Node),
        Call::Find(handle, name) => noted(find(document, handle, name), Answer::Perhaps),
        Call::ParentInfo(handle) => noted(parent_info(document, handle), Answer::Parent),
        Call::PreviousSibling(handle) => {
            noted(previous_sibling(document, handle), Answer::Perhaps)
        }
        Call::NextSibling(handle) => noted(next_sibling(document, handle), Answer::Perhaps),
        Call::ChildAtIndex(handle, index) => {
            noted(child_at_index(document, handle, index), Answer::Perhaps)
        }
        Call::ElementIndex(handle) => noted(element_index(document, handle), Answer::Number),
        Call::TrailingComma(handle) => noted(trailing_comma(document, handle), Answer::Perhaps),
        Call::Text(handle) => noted(text(document, handle, buffers.bytes), Answer::Count),
        Call::NewlineKind => noted(newline_kind(document, buffers.queue), Answer::Break),
        Call::UsesTrailingCommas(handle) => noted(
            uses_trailing_commas(document, handle, buffers.queue),
            Answer::Flag,
        ),
        Call::Clear => noted(document.clear(), |_| Answer::Done),
    }
}
