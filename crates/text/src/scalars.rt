//! Values that hold no others, and the names of members.

ghost use Rattle.grammar.specs.Reader.{name_p, scalar_p};
ghost use Rattle.text.specs.Reports.{Finds, Leads, Makes, labelled};

use crate::fault::Fault;
use crate::gaps::{put_part, read_trivia};
use crate::sink::{LeafKind, Sink, TokenKind};
use crate::tokens::read_token;
use lexemes::bytes::{behind_word, next_is};
use lexemes::classes::ByteClass;
use lexemes::mismatch::Mismatch;
use lexemes::numbers::behind_number;
use lexemes::strings::behind_string;

// false / null / true / number / string, and what is left behind it; the first byte is asked apart, since it alone says which answers
fn scalar(text: &[u8]) -> Result<(LeafKind, &[u8]), Mismatch<'_>>
    ensures { Finds scalar_p text.now result }
{
    if next_is(text, ByteClass::Only(b'"')) {
        return Ok((LeafKind::String, behind_string(text)?));
    }
    if next_is(text, ByteClass::Only(b'n')) {
        return Ok((LeafKind::Null, behind_word(text, b"null")?));
    }
    if next_is(text, ByteClass::Only(b't')) {
        return Ok((LeafKind::Boolean(true), behind_word(text, b"true")?));
    }
    if next_is(text, ByteClass::Only(b'f')) {
        return Ok((LeafKind::Boolean(false), behind_word(text, b"false")?));
    }
    Ok((LeafKind::Number, behind_number(text)?))
}

/// A value that is no array and no object.
// false / null / true / number / string
pub fn read_scalar<'a, S: Sink>(text: &'a [u8], sink: &mut S) -> Result<&'a [u8], Fault<'a>>
    ensures { Makes S.Sink.after scalar_p text.now sink.old result sink.new }
{
    let (kind, rest) = scalar(text)?;
    put_part(text, rest, kind, sink);
    Ok(rest)
}

// the name of a member
fn read_name<'a, S: Sink>(text: &'a [u8], sink: &mut S) -> Result<&'a [u8], Fault<'a>>
    ensures { Makes S.Sink.after name_p text.now sink.old result sink.new }
{
    let rest = behind_string(text)?;
    put_part(text, rest, LeafKind::Name, sink);
    Ok(rest)
}

/// A member's name and colon, with the trivia behind each.
// string name-separator
pub fn read_label<'a, S: Sink>(text: &'a [u8], sink: &mut S) -> Result<&'a [u8], Fault<'a>>
    ensures { Leads S.Sink.after labelled text.now sink.old result sink.new }
{
    let gap = read_name(text, sink)?;
    let colon = read_trivia(gap, false, sink)?;
    let gap = read_token(colon, TokenKind::Colon, sink)?;
    read_trivia(gap, false, sink)
}
