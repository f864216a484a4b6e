//! Strings, by RFC 8259, section 7.

ghost use Rattle.std.specs.Prelude.{◌≡◌};
ghost use Rattle.grammar.specs.Parse.{starts};
ghost use Rattle.grammar.specs.Reader.{StringFirst, escape_p, many_p, string_char_p, string_p, unicode_p};
ghost use Rattle.lexemes.specs.Scan.{Goes};

use crate::bytes::{behind_byte, next_is};
use crate::classes::ByteClass;
use crate::mismatch::Mismatch;
use crate::utf8::{behind_char, next_is_char};

// %x75 4HEXDIG
fn behind_unicode(text: &[u8]) -> Result<&[u8], Mismatch<'_>>
    ensures { Goes unicode_p text.now result }
{
    let first = behind_byte(text, ByteClass::Only(b'u'))?;
    let second = behind_byte(first, ByteClass::Hex)?;
    let third = behind_byte(second, ByteClass::Hex)?;
    let fourth = behind_byte(third, ByteClass::Hex)?;
    behind_byte(fourth, ByteClass::Hex)
}

// escape ( %x22 / %x5C / %x2F / %x62 / %x66 / %x6E / %x72 / %x74 / %x75 4HEXDIG )
fn behind_escape(text: &[u8]) -> Result<&[u8], Mismatch<'_>>
    ensures { Goes escape_p text.now result }
{
    let escaped = behind_byte(text, ByteClass::Only(b'\\'))?;
    if next_is(escaped, ByteClass::Only(b'u')) {
        behind_unicode(escaped)
    } else {
        behind_byte(escaped, ByteClass::Escaped)
    }
}

// char = unescaped / escape ( .. )
fn behind_string_char(text: &[u8]) -> Result<&[u8], Mismatch<'_>>
    ensures { Goes string_char_p text.now result }
{
    if next_is(text, ByteClass::Only(b'\\')) {
        behind_escape(text)
    } else {
        behind_char(text, ByteClass::Plain)
    }
}

/// Whether a character of a string comes next.
fn next_is_string_char(text: &[u8]) -> bool
    ensures { result ≡ starts StringFirst text.now }
{
    next_is(text, ByteClass::Only(b'\\')) || next_is_char(text, ByteClass::Plain)
}

// *char
fn behind_string_chars(text: &[u8]) -> Result<&[u8], Mismatch<'_>>
    ensures { Goes (many_p StringFirst string_char_p) text.now result }
{
    let mut rest = text;
    while next_is_string_char(rest) {
        rest = behind_string_char(rest)?;
    }
    Ok(rest)
}

/// What is left behind a string.
// string = quotation-mark *char quotation-mark
pub fn behind_string(text: &[u8]) -> Result<&[u8], Mismatch<'_>>
    ensures { Goes string_p text.now result }
{
    let chars = behind_byte(text, ByteClass::Only(b'"'))?;
    let quote = behind_string_chars(chars)?;
    behind_byte(quote, ByteClass::Only(b'"'))
}
