//! Arrays and objects, by what stands around their items.

ghost use Rattle.std.specs.Prelude.{◌≡◌};
ghost use Rattle.grammar.specs.Reader.{box_of, close_token, open_token};
ghost use Rattle.text.specs.Events.{box_for, token_for};
ghost use Rattle.text.specs.Frames.{frame_for};

use crate::sink::{Container, TokenKind};

/// The brackets of an array, or the braces of an object.
#[derive(Clone, Copy)]
pub enum Frame {
    Brackets,
    Braces,
}

impl Frame {
    /// The token that opens it.
    pub fn opener(self) -> TokenKind
        ensures { token_for result ≡ open_token (frame_for self) }
    {
        match self {
            Frame::Brackets => TokenKind::OpenArray,
            Frame::Braces => TokenKind::OpenObject,
        }
    }

    /// The token that closes it.
    pub fn closer(self) -> TokenKind
        ensures { token_for result ≡ close_token (frame_for self) }
    {
        match self {
            Frame::Brackets => TokenKind::CloseArray,
            Frame::Braces => TokenKind::CloseObject,
        }
    }

    /// The node that it makes.
    pub fn container(self) -> Container
        ensures { box_for result ≡ box_of (frame_for self) }
    {
        match self {
            Frame::Brackets => Container::Array,
            Frame::Braces => Container::Object,
        }
    }
}
