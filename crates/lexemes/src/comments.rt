//! What follows the two bytes that open a comment.

ghost use Rattle.grammar.specs.Classes.{InLine};
ghost use Rattle.grammar.specs.Reader.{block_p, chars_p};
ghost use Rattle.lexemes.specs.Scan.{Goes};

use crate::bytes::behind_byte;
use crate::classes::ByteClass;
use crate::mismatch::Mismatch;
use crate::utf8::{behind_char, behind_chars};

/// What is left from the CR, the LF or the end on that ends a line comment.
pub fn behind_line(text: &[u8]) -> Result<&[u8], Mismatch<'_>>
    ensures { Goes (chars_p InLine) text.now result }
{
    behind_chars(text, ByteClass::InLine)
}

/// What is left behind the first `*/`.
// by one byte after another: where two slice patterns begin alike, the proof does not see the bytes that they found
pub fn behind_block(text: &[u8]) -> Result<&[u8], Mismatch<'_>>
    ensures { Goes block_p text.now result }
{
    let mut rest = text;
    loop {
        let Ok(tail) = behind_byte(rest, ByteClass::Only(b'*')) else {
            rest = behind_char(rest, ByteClass::InBlock)?;
            continue;
        };
        match behind_byte(tail, ByteClass::Only(b'/')) {
            Ok(end) => return Ok(end),
            Err(_) => rest = tail,
        }
    }
}
