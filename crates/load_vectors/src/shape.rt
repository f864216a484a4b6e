//! The shape of a tree in one line, as the scripts write it.

ghost use Rattle.std.specs.Prelude.{◌≡◌, ◌++◌, IfOk, IsOkAnd, codes, string_bytes};
ghost use Rattle.load_vectors.specs.Shapes.{Any, any, anyways};

use line_break::NewlineKind;
use std::alloc::{AllocError, Global};
use text::sink::{Container, LeafKind, Sink, TokenKind};

/// Letters and brackets, one for each node, or that memory did not suffice for them.
#[derive(Drop)]
pub struct Shape {
    letters: Result<String, AllocError>,
}

impl Shape {
    /// The root, open.
    pub fn new(heap: Global) -> Shape
        ensures { IfOk result.letters (λ letters. string_bytes letters ≡ codes "R(") }
    {
        Shape {
            letters: String::from_str(heap, "R("),
        }
    }

    /// The whole shape, the root closed.
    pub fn finish(self) -> Result<String, AllocError>
        ensures { IfOk result (λ whole. IsOkAnd self.letters (λ inner. string_bytes whole ≡ string_bytes inner ++ codes ")")) }
    {
        let mut letters = self.letters?;
        letters.push_str(")")?;
        Ok(letters)
    }

    fn add(&mut self, letters: &str)
        ensures { IfOk self.new.letters (λ after. IsOkAnd self.old.letters (λ before. string_bytes after ≡ string_bytes before ++ letters.now)) }
    {
        if let Ok(so_far) = &mut self.letters {
            if let Err(error) = so_far.push_str(letters) {
                self.letters = Err(error);
            }
        }
    }

    // a Whitespace is followed by its length
    fn add_space(&mut self, len: usize) {
        if let Ok(so_far) = &mut self.letters {
            if let Err(error) = write!(so_far, "w{len}") {
                self.letters = Err(error);
            }
        }
    }
}

fn token_letter(token: TokenKind) -> &'static str {
    match token {
        TokenKind::OpenArray => "[",
        TokenKind::CloseArray => "]",
        TokenKind::OpenObject => "{",
        TokenKind::CloseObject => "}",
        TokenKind::Comma => ",",
        TokenKind::Colon => ":",
    }
}

fn newline_letter(kind: NewlineKind) -> &'static str {
    match kind {
        NewlineKind::LineFeed => "l",
        NewlineKind::CarriageReturn => "r",
        NewlineKind::CarriageReturnLineFeed => "c",
    }
}

impl Sink for Shape {
    ghost after = { Any };

    ghost idle = { any };

    ghost joined = { anyways };

    fn put(&mut self, kind: LeafKind, bytes: &[u8]) {
        match kind {
            LeafKind::Null => self.add("z"),
            LeafKind::Boolean(_) => self.add("b"),
            LeafKind::Number => self.add("n"),
            LeafKind::String | LeafKind::Name => self.add("s"),
            LeafKind::Token(token) => self.add(token_letter(token)),
            LeafKind::Whitespace => self.add_space(bytes.len()),
            LeafKind::Newline(kind) => self.add(newline_letter(kind)),
            LeafKind::LineComment | LeafKind::BlockComment => self.add("k"),
        }
    }

    fn enter(&mut self, container: Container) {
        match container {
            Container::Array => self.add("A("),
            Container::Object => self.add("O("),
            Container::Property => self.add("P("),
        }
    }

    fn leave(&mut self, _container: Container) {
        self.add(")");
    }
}
