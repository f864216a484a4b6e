//! Replaying: a text is loaded, and a list of calls is carried out on it.
#![tactic(auto)]

mod answer;
mod buffers;
mod call;
mod carry;
mod start;

ghost use Rattle.std.specs.Prelude.{◌≡◌, ◌≤◌, ◌++◌, length, drop};
ghost use Rattle.replay.specs.Carried.{answers_to, carried_all};
ghost use Rattle.replay.specs.Buffers.{SameBuffers, world_with};
ghost use Rattle.replay.specs.Replayed.{Replayed, lent_of};

pub use answer::Answer;
pub use buffers::Buffers;
pub use call::Call;
use carry::carry;
use document::Document;
use loader::LoadError;
use refusal::Refusal;
pub use start::Start;

/// Carries out the calls in order, and records the answer of each.
fn carry_all(
    document: &mut Document,
    calls: &[Call<'_>],
    answers: &mut [Answer],
    buffers: &mut Buffers<'_>,
)
    requires { length calls.now ≤ length answers.old }
    ensures world { world_with document.new buffers.new ≡ carried_all (world_with document.old buffers.old) calls.now }
    ensures recorded { answers.new ≡ answers_to (world_with document.old buffers.old) calls.now ++ drop (length calls.now) answers.old }
    ensures same { SameBuffers buffers.old buffers.new }
{
    // by index: of a list that is written through `iter_mut` under a `zip` a proof knows only its length
    for (i, call) in calls.iter().enumerate() {
        answers[i] = carry(document, *call, buffers);
    }
}

/// Loads the text and carries out the calls on it, recording the answer of each at the start of `answers`. BadMemory where that is too short, else
/// what load refuses; then nothing is changed.
pub fn replay(
    document: &mut Document,
    start: Start<'_>,
    calls: &[Call<'_>],
    answers: &mut [Answer],
    buffers: &mut Buffers<'_>,
) -> Result<(), LoadError>
    ensures replayed { Replayed start.entry calls.now (lent_of document.old answers.old buffers.old) (lent_of document.new answers.new buffers.new) result }
    ensures same { SameBuffers buffers.old buffers.new }
{
    if answers.len() < calls.len() {
        return Err(LoadError::Refused(Refusal::BadMemory));
    }
    document.load(start.records, start.store, start.text)?;
    carry_all(document, calls, answers, buffers);
    Ok(())
}
