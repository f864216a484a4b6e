//! The line breaks of a house file, for the reader and for the document.
#![tactic(auto)]

ghost use Rattle.std.specs.Prelude.{◌≡◌};
ghost use Rattle.grammar.specs.Pieces.{break_bytes};
ghost use Rattle.line_break.specs.Breaks.{break_for};

/// What ends a line.
#[derive(Clone, Copy)]
pub enum NewlineKind {
    LineFeed,
    CarriageReturn,
    CarriageReturnLineFeed,
}

impl NewlineKind {
    /// How it is spelled.
    pub fn spelling(self) -> &'static [u8]
        ensures { result.now ≡ break_bytes (break_for self) }
    {
        match self {
            NewlineKind::LineFeed => b"\n",
            NewlineKind::CarriageReturn => b"\r",
            NewlineKind::CarriageReturnLineFeed => b"\r\n",
        }
    }
}
