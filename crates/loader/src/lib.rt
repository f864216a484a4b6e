//! A text into a tree. All memory is asked for before the text is read, and a text is built only after it was judged, so that the
//! building itself cannot fail.
#![tactic(auto)]

mod builder;
mod building;
mod error;
mod kinds;
mod telling;

ghost use Rattle.std.specs.Prelude.{◌≡◌, ◌≤◌, length};
ghost use Rattle.grammar.specs.Answer.{Read, read};
ghost use Rattle.grammar.specs.Pieces.{Pieces};
ghost use Rattle.text.specs.Events.{events};
ghost use Rattle.loader.specs.Loaded.{Judging, Loaded, bad_sizes};
ghost use Rattle.loader.specs.Sites.{Built};

use builder::Builder;
use checking::{MAX_TEXT, check_text};
pub use error::LoadError;
use refusal::Refusal;
use std::alloc::Global;
use text::values::read_text;
use tree::Tree;

/// The most records that are taken.
const MAX_RECORDS: usize = 65_535;

/// The most bytes of leaves that are taken.
const MAX_ROOM: usize = 1_048_576;

/// Whether the sizes are not taken.
fn refuses_sizes(records: usize, room: usize, text: &[u8]) -> bool
    ensures { result ≡ bad_sizes records room text.now }
{
    !(1..=MAX_RECORDS).contains(&records) || room > MAX_ROOM || text.len() > MAX_TEXT
}

/// Refuses a text that is no house file, or whose document does not fit.
fn judge(records: usize, room: usize, text: &[u8]) -> Result<(), Refusal>
    requires { length text.now ≤ 1048576 }
    ensures { Judging records room text.now result }
{
    let extent = check_text(text)?;
    if extent.nodes > records {
        return Err(Refusal::NoNode);
    }
    if extent.stored > room {
        return Err(Refusal::NoText);
    }
    Ok(())
}

/// Tells the builder what stands in a text that was judged, so that the reading comes to its end.
fn tell(text: &[u8], builder: &mut Builder)
    ensures { (a : Pieces) → read 64 text.now ≡ Read a → Built builder.old (events a) builder.new }
{
    let _ = read_text(text, builder);
}

// Records, room and text are three sizes of one call, and named once: they need no type of their own.
/// The tree of a text, in a table of so many records and a store with room for so many bytes.
pub fn load_tree(heap: Global, records: usize, room: usize, text: &[u8]) -> Result<Tree, LoadError>
    ensures { Loaded records room text.now result }
{
    if refuses_sizes(records, room, text) {
        return Err(LoadError::Refused(Refusal::BadMemory));
    }
    let mut builder = Builder::new(heap, records, room)?;
    judge(records, room, text)?;
    tell(text, &mut builder);
    Ok(builder.finish())
}
