//! Byte strings of a script.

ghost use Rattle.std.specs.Prelude.{◌≤◌, length};

use std::alloc::{AllocError, Global};

/// A byte string without the bars around it.
pub fn between_bars(bytes: &[u8]) -> &[u8] {
    match bytes {
        [_, inner @ .., _] => inner,
        _ => bytes,
    }
}

fn digit(b: u8) -> u8 {
    match b {
        b'0'..=b'9' => b - b'0',
        b'A'..=b'F' => b - b'A' + 10,
        _ => 0,
    }
}

/// The byte that n, r, t, xHH or another writes behind a backslash, and what follows.
fn escaped(rest: &[u8]) -> (u8, &[u8])
    ensures { length result.1.now ≤ length rest.now }
{
    match rest {
        [b'n', tail @ ..] => (b'\n', tail),
        [b'r', tail @ ..] => (b'\r', tail),
        [b't', tail @ ..] => (b'\t', tail),
        [b'x', high, low, tail @ ..] => {
            (
                digit(*high).wrapping_mul(16).wrapping_add(digit(*low)),
                tail,
            )
        }
        [other, tail @ ..] => (*other, tail),
        [] => (b'\\', rest),
    }
}

/// The bytes that a byte string writes.
pub fn unescaped(heap: Global, bytes: &[u8]) -> Result<Vec<u8>, AllocError> {
    let mut out = Vec::new(heap);
    let mut rest = bytes;
    while let [first, tail @ ..] = rest {
        let (byte, behind) = if *first == b'\\' {
            escaped(tail)
        } else {
            (*first, tail)
        };
        out.push(byte)?;
        rest = behind;
    }
    Ok(out)
}
