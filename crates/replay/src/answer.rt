ghost use Rattle.std.specs.Prelude.{◌≡◌, MatchResult};
ghost use Rattle.std.specs.Result.{ForOk};

use refusal::Refusal;
use style::NewlineKind;
use table::Handle;
use tree::NodeKind;

/// What is recorded of a call.
#[derive(Clone, Copy)]
pub enum Answer {
    /// the call was refused
    Refused(Refusal),
    /// an edit was accepted that answers nothing
    Done,
    /// how many bytes, ordinals or edits
    Count(usize),
    /// a number, or none
    Number(Option<usize>),
    /// a node
    Node(Handle),
    /// a node, or none
    Perhaps(Option<Handle>),
    /// a node and an index, or none
    Parent(Option<(Handle, usize)>),
    /// a kind of node
    Kind(NodeKind),
    /// a kind of line break
    Break(NewlineKind),
    /// yes or no
    Flag(bool),
}

/// What is recorded of a call that was answered so; of one that was refused, the refusal. (`map_or_else` would say the refusal's part again at each call.)
pub fn noted<T, F: FnOnce(T) -> Answer>(asked: Result<T, Refusal>, answer: F) -> Answer
    requires { ForOk asked (F.pre answer) }
    ensures { MatchResult asked (λ told. F.post answer told result) (λ refusal. result ≡ Answer.Refused refusal) }
{
    match asked {
        Ok(told) => answer(told),
        Err(refusal) => Answer::Refused(refusal),
    }
}
