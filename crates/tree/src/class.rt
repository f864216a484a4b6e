//! What a node is, as the rules of gaps and commas see it, and as a caller is told it.

ghost use Rattle.std.specs.Prelude.{◌≡◌, ℕ, List, [], ◌∷◌};
ghost use Rattle.grammar.specs.Pieces.{token_byte, boolean_bytes};
ghost use Rattle.model.specs.Nodes.{class as class_of};
ghost use Rattle.model.specs.Asks.{kind as kind_of};
ghost use Rattle.tree.specs.Sorts.{sort_for, token_for};
ghost use Rattle.tree.specs.Classes.{plain, kind_for};

use table::Kind;

/// A node among its siblings: trivia, a comma, another mark (a token or a name), or a value or member.
#[derive(Clone, Copy, PartialEq, Eq, Debug)]
pub enum Class {
    Blank,
    Break,
    Remark,
    Comma,
    Mark,
    Value,
}

/// The twelve kinds of nodes.
#[derive(Clone, Copy, PartialEq, Eq, Debug)]
pub enum NodeKind {
    Root,
    Array,
    Object,
    Property,
    Boolean,
    Null,
    Number,
    String,
    Token,
    Whitespace,
    Newline,
    Comment,
}

/// The class of a token.
fn token_class(token: char) -> Class
    ensures { (t : List ℕ) → result ≡ plain (class_of (sort_for (Kind.Token token) t)) }
{
    match token {
        ',' => Class::Comma,
        _ => Class::Mark,
    }
}

/// The class of a node of this kind.
pub fn class_of(kind: Kind) -> Class
    ensures { (t : List ℕ) → result ≡ plain (class_of (sort_for kind t)) }
{
    match kind {
        Kind::Root | Kind::Array | Kind::Object | Kind::Property => Class::Value,
        Kind::Null | Kind::Boolean(_) | Kind::Number | Kind::String => Class::Value,
        Kind::Name => Class::Mark,
        Kind::Token(token) => token_class(token),
        Kind::Whitespace => Class::Blank,
        Kind::Newline(_) => Class::Break,
        Kind::LineComment | Kind::BlockComment => Class::Remark,
    }
}

/// The kind that a caller is told: a name is a String, and both sorts of comments are a Comment.
pub fn node_kind(kind: Kind) -> NodeKind
    ensures { (t : List ℕ) → kind_for result ≡ kind_of (sort_for kind t) }
{
    match kind {
        Kind::Root => NodeKind::Root,
        Kind::Array => NodeKind::Array,
        Kind::Object => NodeKind::Object,
        Kind::Property => NodeKind::Property,
        Kind::Null => NodeKind::Null,
        Kind::Boolean(_) => NodeKind::Boolean,
        Kind::Number => NodeKind::Number,
        Kind::String | Kind::Name => NodeKind::String,
        Kind::Token(_) => NodeKind::Token,
        Kind::Whitespace => NodeKind::Whitespace,
        Kind::Newline(_) => NodeKind::Newline,
        Kind::LineComment | Kind::BlockComment => NodeKind::Comment,
    }
}

/// How a token is spelled.
pub fn token_bytes(token: char) -> &'static [u8]
    ensures { result.now ≡ token_byte (token_for token) ∷ [] }
{
    match token {
        '[' => b"[",
        ']' => b"]",
        '{' => b"{",
        '}' => b"}",
        ',' => b",",
        _ => b":",
    }
}

/// How a boolean is spelled.
pub fn boolean_bytes(value: bool) -> &'static [u8]
    ensures { result.now ≡ boolean_bytes value }
{
    if value { b"true" } else { b"false" }
}
