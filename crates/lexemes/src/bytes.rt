//! The parts that every lexeme is made of: one byte of a class, a run of them, a word.

ghost use Rattle.std.specs.Prelude.{◌≡◌};
ghost use Rattle.grammar.specs.Parse.{starts};
ghost use Rattle.grammar.specs.Reader.{byte_p, run_p, word_p};
ghost use Rattle.lexemes.specs.ByteClasses.{bytes_of};
ghost use Rattle.lexemes.specs.Scan.{Goes, Passes};

use crate::classes::ByteClass;
use crate::mismatch::Mismatch;

/// Whether a byte of the class comes next.
#[inline(always)]
pub fn next_is(text: &[u8], class: ByteClass) -> bool
    ensures { result ≡ starts (bytes_of class) text.now }
{
    match text {
        [first, ..] => class.holds(*first),
        [] => false,
    }
}

/// What is left behind one byte of the class.
#[inline(always)]
pub fn behind_byte(text: &[u8], class: ByteClass) -> Result<&[u8], Mismatch<'_>>
    ensures { Goes (byte_p (bytes_of class)) text.now result }
{
    match text {
        [first, rest @ ..] if class.holds(*first) => Ok(rest),
        _ => Err(Mismatch { rest: text }),
    }
}

/// What is left behind the bytes of the class that come next.
pub fn behind_run(text: &[u8], class: ByteClass) -> &[u8]
    ensures { Passes (run_p (bytes_of class)) text.now result.now }
{
    let mut rest = text;
    while let Ok(tail) = behind_byte(rest, class) {
        rest = tail;
    }
    rest
}

/// What is left behind the word.
pub fn behind_word<'a>(text: &'a [u8], word: &[u8]) -> Result<&'a [u8], Mismatch<'a>>
    ensures { Goes (word_p word.now) text.now result }
{
    let mut rest = text;
    for letter in word {
        rest = behind_byte(rest, ByteClass::Only(*letter))?;
    }
    Ok(rest)
}
