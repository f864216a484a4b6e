use line_break::NewlineKind;

/// What a node is, with what a leaf of that kind needs besides its bytes.
#[derive(Clone, Copy)]
pub enum Kind {
    Root,
    Array,
    Object,
    Property,
    Null,
    Boolean(bool),
    Number,
    String,
    /// The string that names a property.
    Name,
    /// A token is its character: with an enum of six names a record would have 28 bytes, and `record_size` promises 32.
    Token(char),
    Whitespace,
    Newline(NewlineKind),
    LineComment,
    BlockComment,
}
