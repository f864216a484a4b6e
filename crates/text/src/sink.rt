//! What the reader reports, and to whom.

ghost use Rattle.std.specs.Prelude.{◌≡◌, List, [], ◌∷◌, ◌++◌};
ghost use Rattle.grammar.specs.Pieces.{kept, token_byte};
ghost use Rattle.text.specs.Events.{Enter, Event, Leave, Put, box_for, leaf_for, token_for};

pub use line_break::NewlineKind;

/// A token of the text; its code is its byte.
#[derive(Clone, Copy)]
pub enum TokenKind {
    OpenArray = 91,
    CloseArray = 93,
    OpenObject = 123,
    CloseObject = 125,
    Comma = 44,
    Colon = 58,
}

impl TokenKind {
    /// The token's byte.
    pub fn byte(self) -> u8
        ensures { result ≡ token_byte (token_for self) }
    {
        self as u8
    }
}

/// What a leaf is, beside its bytes.
#[derive(Clone, Copy)]
pub enum LeafKind {
    Null,
    Boolean(bool),
    Number,
    String,
    Name,
    Token(TokenKind),
    Whitespace,
    Newline(NewlineKind),
    LineComment,
    BlockComment,
}

impl LeafKind {
    /// The bytes of such a leaf that are stored.
    pub fn kept(self, bytes: &[u8]) -> &[u8]
        ensures { result.now ≡ kept (leaf_for self bytes.now) }
    {
        match self {
            LeafKind::Null | LeafKind::Boolean(_) | LeafKind::Token(_) | LeafKind::Newline(_) =>
                &[],
            LeafKind::Number
            | LeafKind::String
            | LeafKind::Name
            | LeafKind::Whitespace
            | LeafKind::LineComment
            | LeafKind::BlockComment => bytes,
        }
    }
}

/// A node with others inside.
#[derive(Clone, Copy)]
pub enum Container {
    Array,
    Object,
    Property,
}

/// Takes what the reader reports, in the order of the text.
pub trait Sink {
    // from the first state, having been told these events, the second
    ghost after: { Self → List Event → Self → Type 0 };

    // told nothing, a sink is as it was
    ghost idle: { (a : Self) → after a [] a };

    // what is told in two parts is told
    ghost joined: { (a b c : Self) (x y : List Event) → after a x b → after b y c → after a (x ++ y) c };

    /// A leaf, with its bytes as they stand in the text.
    fn put(&mut self, kind: LeafKind, bytes: &[u8])
        ensures { after self.old (Put (leaf_for kind bytes.now) ∷ []) self.new };

    /// The beginning of a container: what follows is inside.
    fn enter(&mut self, container: Container)
        ensures { after self.old (Enter (box_for container) ∷ []) self.new };

    /// The end of the container, which is the one that was entered last.
    fn leave(&mut self, container: Container)
        ensures { after self.old (Leave (box_for container) ∷ []) self.new };
}
