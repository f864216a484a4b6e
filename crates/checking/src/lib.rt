//! The check of a text, which allocates nothing: whether it is a house file, and how large its document is.
#![tactic(auto)]

pub mod counter;
pub mod extent;

ghost use Rattle.std.specs.Prelude.{◌≡◌};
ghost use Rattle.checking.specs.Checked.{checked};
ghost use Rattle.grammar.specs.Answer.{Right};

use counter::Counter;
use extent::Extent;
use refusal::Refusal;
use text::fault::Fault;
use text::values::read_text;

/// The longest text that is taken.
pub const MAX_TEXT: usize = 1_048_576;

/// Whether the text is a house file, and how large its document is. The answer is the reader's, and the reader is right: it takes exactly the sentences of
/// at most 64 levels, and stops exactly where a text stops beginning one.
pub fn check_text(text: &[u8]) -> Result<Extent, Refusal>
    ensures answer { result ≡ checked text.now }
    ensures reader { Right 64 }
{
    if text.len() > MAX_TEXT {
        return Err(Refusal::BadMemory);
    }
    let mut counter = Counter::new();
    match read_text(text, &mut counter) {
        Ok([]) => Ok(counter.seen),
        Ok(rest) | Err(Fault::Bad(rest)) => Err(Refusal::BadText(text.len() - rest.len())),
        Err(Fault::Deep) => Err(Refusal::TooDeep),
    }
}
