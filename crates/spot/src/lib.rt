//! Where a byte stands in a text, as people count: lines and columns.
#![tactic(auto)]

ghost use Rattle.std.specs.Prelude.{◌≡◌, ◌+◌, ◌^◌, ◌<◌, Some};
ghost use Rattle.grammar.specs.Classes.{Tail};
ghost use Rattle.grammar.specs.Parse.{within};
ghost use Rattle.spot.specs.Spots.{printed, spot_at, start, step};

use std::fmt;

/// A line and a column, both from 1.
#[derive(Clone, Copy, PartialEq, Eq, Debug)]
pub struct Spot {
    pub line: usize,
    pub column: usize,
}

/// As `line 3 column 14`.
impl fmt::Display for Spot {
    ghost output = { λ s. Some (printed s) };

    fn fmt<W: fmt::Write>(&self, f: &mut fmt::Formatter<W>) -> fmt::Result {
        let Spot { line, column } = *self;
        write!(f, "line {line} column {column}")
    }
}

/// How far a text has been counted: where the next byte stands, and whether a carriage return has just stood.
#[derive(Clone, Copy)]
struct Cursor {
    line: usize,
    column: usize,
    /// a state of the count, with no value beside it
    returned: bool,
}

// a byte that goes on a character does not count as a column
fn is_tail(b: u8) -> bool
    ensures { result ≡ within Tail b }
{
    (0x80..=0xBF).contains(&b)
}

impl Cursor {
    /// Where a text begins.
    fn start() -> Cursor
        ensures { result ≡ start }
    {
        Cursor {
            line: 1,
            column: 1,
            returned: false,
        }
    }

    /// Behind one byte more.
    fn step(self, b: u8) -> Cursor
        requires line { self.line + 1 < 2 ^ 64 }
        requires column { self.column + 1 < 2 ^ 64 }
        ensures { result ≡ step self b }
    {
        match b {
            b'\r' => Cursor {
                line: self.line + 1,
                column: 1,
                returned: true,
            },
            // the line feed of a CR LF, whose line has ended
            b'\n' if self.returned => Cursor {
                column: 1,
                returned: false,
                ..self
            },
            b'\n' => Cursor {
                line: self.line + 1,
                column: 1,
                returned: false,
            },
            _ if is_tail(b) => Cursor {
                returned: false,
                ..self
            },
            _ => Cursor {
                column: self.column + 1,
                returned: false,
                ..self
            },
        }
    }
}

/// The line and column of the byte `at`; past the end, where the text ends. LF, CR LF and CR each end a line, and a column is a character.
pub fn locate(text: &[u8], at: usize) -> Spot
    ensures { result ≡ spot_at text.now at }
{
    let end = at.min(text.len());
    let mut cursor = Cursor::start();
    for b in &text[..end] {
        cursor = cursor.step(*b);
    }
    Spot {
        line: cursor.line,
        column: cursor.column,
    }
}
