//! Trivia: whitespace, line breaks and comments.

ghost use Rattle.std.specs.Prelude.{◌≡◌, ℕ, true, false, List, [], ◌∷◌, ◌++◌, drop, MatchOption};
ghost use Rattle.grammar.specs.Parse.{starts};
ghost use Rattle.grammar.specs.Classes.{LineEnd};
ghost use Rattle.grammar.specs.Reader.{comment_p, newline_p, trivia_p, unit_p};
ghost use Rattle.lexemes.specs.Scan.{Left};
ghost use Rattle.text.specs.Events.{Put, leaf_for};
ghost use Rattle.text.specs.Reports.{Breaks, Makes, Turns, crlf, open_line};

use crate::fault::Fault;
use crate::sink::{LeafKind, Sink};
use lexemes::bytes::{behind_byte, behind_run, next_is};
use lexemes::classes::ByteClass;
use lexemes::comments::{behind_block, behind_line};
use lexemes::mismatch::Mismatch;
use line_break::NewlineKind;
use std::ops::ControlFlow;

/// Reports the leaf that stands in front of what is left.
pub(crate) fn put_part<S: Sink>(text: &[u8], rest: &[u8], kind: LeafKind, sink: &mut S)
    requires { Left rest.now text.now }
    ensures { (part : List ℕ) → text.now ≡ part ++ rest.now → S.Sink.after sink.old (Put (leaf_for kind part) ∷ []) sink.new }
{
    sink.put(kind, &text[..text.len() - rest.len()]);
}

/// What stands behind CR LF, where the text begins with it.
fn behind_crlf(text: &[u8]) -> Option<&[u8]>
    ensures { MatchOption result (crlf text.now ≡ false) (λ rest. (crlf text.now ≡ true) × (rest.now ≡ drop 2 text.now)) }
{
    match text {
        [first, second, rest @ ..] => {
            if *first == b'\r' && *second == b'\n' {
                Some(rest)
            } else {
                None
            }
        }
        _ => None,
    }
}

// Newline = CR LF / LF / CR, and what is left behind it
fn newline(text: &[u8]) -> Result<(NewlineKind, &[u8]), Mismatch<'_>>
    ensures { Breaks newline_p text.now result }
{
    if let Some(rest) = behind_crlf(text) {
        return Ok((NewlineKind::CarriageReturnLineFeed, rest));
    }
    if let Ok(rest) = behind_byte(text, ByteClass::Only(b'\n')) {
        return Ok((NewlineKind::LineFeed, rest));
    }
    let rest = behind_byte(text, ByteClass::Only(b'\r'))?;
    Ok((NewlineKind::CarriageReturn, rest))
}

// Newline
fn read_newline<'a, S: Sink>(text: &'a [u8], sink: &mut S) -> Result<&'a [u8], Fault<'a>>
    ensures { Makes S.Sink.after newline_p text.now sink.old result sink.new }
{
    let (kind, rest) = newline(text)?;
    put_part(text, rest, LeafKind::Newline(kind), sink);
    Ok(rest)
}

/// Whether a line comment that ends here is the last thing of the text.
fn is_open_line(text: &[u8], last: bool) -> bool
    ensures { result ≡ open_line last (starts LineEnd text.now) }
{
    last && !next_is(text, ByteClass::LineEnd)
}

// Comment = BlockComment / LineComment; BlockComment = "/*" .. "*/", through the first "*/"; LineComment = "//" *CHAR, and the
// Newline behind it; the last one of a text may end with the text
fn read_comment<'a, S: Sink>(
    text: &'a [u8],
    last: bool,
    sink: &mut S,
) -> Result<ControlFlow<&'a [u8], &'a [u8]>, Fault<'a>>
    ensures { Turns S.Sink.after (comment_p last) text.now sink.old result sink.new }
{
    let mark = behind_byte(text, ByteClass::Only(b'/'))?;
    if let Ok(block) = behind_byte(mark, ByteClass::Only(b'*')) {
        let rest = behind_block(block)?;
        put_part(text, rest, LeafKind::BlockComment, sink);
        return Ok(ControlFlow::Continue(rest));
    }
    let line = behind_byte(mark, ByteClass::Only(b'/'))?;
    let rest = behind_line(line)?;
    put_part(text, rest, LeafKind::LineComment, sink);
    if is_open_line(rest, last) {
        return Ok(ControlFlow::Break(rest));
    }
    let next = read_newline(rest, sink)?;
    Ok(ControlFlow::Continue(next))
}

// one Whitespace, Newline or Comment, or nothing where the trivia ends; Whitespace = 1*( space / tab )
fn read_unit<'a, S: Sink>(
    text: &'a [u8],
    last: bool,
    sink: &mut S,
) -> Result<ControlFlow<&'a [u8], &'a [u8]>, Fault<'a>>
    ensures { Turns S.Sink.after (unit_p last) text.now sink.old result sink.new }
{
    if next_is(text, ByteClass::Only(b'/')) {
        return read_comment(text, last, sink);
    }
    if let Ok(blanks) = behind_byte(text, ByteClass::Blank) {
        let rest = behind_run(blanks, ByteClass::Blank);
        put_part(text, rest, LeafKind::Whitespace, sink);
        return Ok(ControlFlow::Continue(rest));
    }
    if !next_is(text, ByteClass::LineEnd) {
        return Ok(ControlFlow::Break(text));
    }
    let rest = read_newline(text, sink)?;
    Ok(ControlFlow::Continue(rest))
}

/// The trivia that comes next; at the top of the text, where it may be the last thing, a line comment may be open.
// Trivia = *( Whitespace / Newline / Comment )
pub fn read_trivia<'a, S: Sink>(
    text: &'a [u8],
    last: bool,
    sink: &mut S,
) -> Result<&'a [u8], Fault<'a>>
    ensures { Makes S.Sink.after (trivia_p last) text.now sink.old result sink.new }
{
    let mut rest = text;
    loop {
        match read_unit(rest, last, sink)? {
            ControlFlow::Continue(next) => rest = next,
            ControlFlow::Break(end) => return Ok(end),
        }
    }
}
