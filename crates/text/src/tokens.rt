//! The six tokens.

ghost use Rattle.std.specs.Prelude.{◌≡◌};
ghost use Rattle.grammar.specs.Parse.{starts};
ghost use Rattle.grammar.specs.Classes.{only};
ghost use Rattle.grammar.specs.Pieces.{token_byte};
ghost use Rattle.grammar.specs.Reader.{end_p, token_p};
ghost use Rattle.text.specs.Events.{token_for};
ghost use Rattle.text.specs.Frames.{frame_for, token_of};
ghost use Rattle.text.specs.Reports.{Makes, Turns};

use crate::fault::Fault;
use crate::frame::Frame;
use crate::gaps::put_part;
use crate::sink::{LeafKind, Sink, TokenKind};
use lexemes::bytes::behind_byte;
use lexemes::classes::ByteClass;
use std::ops::ControlFlow;

/// Which token the byte is.
fn token_of(b: u8) -> Option<TokenKind>
    ensures { result ≡ token_of b }
{
    match b as char {
        '[' => Some(TokenKind::OpenArray),
        ']' => Some(TokenKind::CloseArray),
        '{' => Some(TokenKind::OpenObject),
        '}' => Some(TokenKind::CloseObject),
        ',' => Some(TokenKind::Comma),
        ':' => Some(TokenKind::Colon),
        _ => None,
    }
}

/// Whether the token comes next.
pub fn next_is_token(text: &[u8], token: TokenKind) -> bool
    ensures { result ≡ starts (only (token_byte (token_for token))) text.now }
{
    match text {
        [first, ..] => match token_of(*first) {
            Some(found) => found.byte() == token.byte(),
            None => false,
        },
        [] => false,
    }
}

/// The token, and nothing else.
pub fn read_token<'a, S: Sink>(
    text: &'a [u8],
    token: TokenKind,
    sink: &mut S,
) -> Result<&'a [u8], Fault<'a>>
    ensures { Makes S.Sink.after (token_p (token_for token)) text.now sink.old result sink.new }
{
    let rest = behind_byte(text, ByteClass::Only(token.byte()))?;
    put_part(text, rest, LeafKind::Token(token), sink);
    Ok(rest)
}

/// A comma, behind which the items go on, or the token that closes the frame.
// value-separator / end-array / end-object
pub fn read_end<'a, S: Sink>(
    text: &'a [u8],
    frame: Frame,
    sink: &mut S,
) -> Result<ControlFlow<&'a [u8], &'a [u8]>, Fault<'a>>
    ensures { Turns S.Sink.after (end_p (frame_for frame)) text.now sink.old result sink.new }
{
    if next_is_token(text, TokenKind::Comma) {
        let rest = read_token(text, TokenKind::Comma, sink)?;
        return Ok(ControlFlow::Continue(rest));
    }
    let rest = read_token(text, frame.closer(), sink)?;
    Ok(ControlFlow::Break(rest))
}
