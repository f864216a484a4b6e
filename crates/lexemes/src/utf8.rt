//! UTF-8 characters, by the cases of RFC 3629, section 4.

ghost use Rattle.std.specs.Prelude.{◌≡◌, ◌++◌};
ghost use Rattle.grammar.specs.Parse.{starts};
ghost use Rattle.grammar.specs.Classes.{MultiFirst};
ghost use Rattle.grammar.specs.Reader.{char_p, chars_p, four_p, multi_p, tail_p, three_p, two_p};
ghost use Rattle.lexemes.specs.ByteClasses.{bytes_of};
ghost use Rattle.lexemes.specs.Scan.{Goes};

use crate::bytes::{behind_byte, next_is};
use crate::classes::ByteClass;
use crate::classes::ByteClass::{Only, Range};
use crate::mismatch::Mismatch;

// UTF8-tail = %x80-BF
fn behind_tail(text: &[u8]) -> Result<&[u8], Mismatch<'_>>
    ensures { Goes tail_p text.now result }
{
    behind_byte(text, Range(0x80, 0xBF))
}

// UTF8-2 = %xC2-DF UTF8-tail
fn behind_two(text: &[u8]) -> Result<&[u8], Mismatch<'_>>
    ensures { Goes two_p text.now result }
{
    let tail = behind_byte(text, Range(0xC2, 0xDF))?;
    behind_tail(tail)
}

// one case of UTF8-3: a first byte, a second byte, UTF8-tail
fn behind_three(text: &[u8], first: ByteClass, second: ByteClass) -> Result<&[u8], Mismatch<'_>>
    ensures { Goes (three_p (bytes_of first) (bytes_of second)) text.now result }
{
    let rest = behind_byte(text, first)?;
    let tail = behind_byte(rest, second)?;
    behind_tail(tail)
}

// one case of UTF8-4: a first byte, a second byte, 2( UTF8-tail )
fn behind_four(text: &[u8], first: ByteClass, second: ByteClass) -> Result<&[u8], Mismatch<'_>>
    ensures { Goes (four_p (bytes_of first) (bytes_of second)) text.now result }
{
    let rest = behind_byte(text, first)?;
    let tails = behind_byte(rest, second)?;
    let tail = behind_tail(tails)?;
    behind_tail(tail)
}

// UTF8-3 = %xE0 %xA0-BF UTF8-tail / %xE1-EC 2( UTF8-tail ) / %xED %x80-9F UTF8-tail / %xEE-EF 2( UTF8-tail )
// UTF8-4 = %xF0 %x90-BF 2( UTF8-tail ) / %xF1-F3 3( UTF8-tail ) / %xF4 %x80-8F 2( UTF8-tail )
fn behind_multi(text: &[u8]) -> Result<&[u8], Mismatch<'_>>
    ensures { Goes multi_p text.now result }
{
    match text {
        [0xC2..=0xDF, ..] => behind_two(text),
        [0xE0, ..] => behind_three(text, Only(0xE0), Range(0xA0, 0xBF)),
        [0xE1..=0xEC, ..] => behind_three(text, Range(0xE1, 0xEC), Range(0x80, 0xBF)),
        [0xED, ..] => behind_three(text, Only(0xED), Range(0x80, 0x9F)),
        [0xEE..=0xEF, ..] => behind_three(text, Range(0xEE, 0xEF), Range(0x80, 0xBF)),
        [0xF0, ..] => behind_four(text, Only(0xF0), Range(0x90, 0xBF)),
        [0xF1..=0xF3, ..] => behind_four(text, Range(0xF1, 0xF3), Range(0x80, 0xBF)),
        _ => behind_four(text, Only(0xF4), Range(0x80, 0x8F)),
    }
}

/// What is left behind one character, those of one byte being of the class.
// UTF8-char = UTF8-1 / UTF8-2 / UTF8-3 / UTF8-4
pub fn behind_char(text: &[u8], single: ByteClass) -> Result<&[u8], Mismatch<'_>>
    ensures { Goes (char_p (bytes_of single)) text.now result }
{
    if next_is(text, single) {
        behind_byte(text, single)
    } else {
        behind_multi(text)
    }
}

/// Whether a character comes next, those of one byte being of the class.
pub fn next_is_char(text: &[u8], single: ByteClass) -> bool
    ensures { result ≡ starts (bytes_of single ++ MultiFirst) text.now }
{
    next_is(text, single) || next_is(text, ByteClass::MultiFirst)
}

/// What is left behind the characters that come next, those of one byte being of the class.
// UTF8-octets = *( UTF8-char )
pub fn behind_chars(text: &[u8], single: ByteClass) -> Result<&[u8], Mismatch<'_>>
    ensures { Goes (chars_p (bytes_of single)) text.now result }
{
    let mut rest = text;
    while next_is_char(rest, single) {
        rest = behind_char(rest, single)?;
    }
    Ok(rest)
}
