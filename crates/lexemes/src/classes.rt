//! Classes of bytes, and the test for them.

ghost use Rattle.std.specs.Prelude.{◌≡◌};
ghost use Rattle.grammar.specs.Parse.{within};
ghost use Rattle.lexemes.specs.ByteClasses.{bytes_of};

/// A class of bytes, in the words of RFC 3629 and RFC 8259.
#[derive(Clone, Copy)]
pub enum ByteClass {
    Only(u8),
    Range(u8, u8),
    /// the first bytes of UTF8-2, UTF8-3 and UTF8-4
    MultiFirst,
    /// DIGIT = %x30-39
    Digit,
    /// e = %x65 / %x45
    Exponent,
    /// plus / minus
    Sign,
    /// HEXDIG, of either case
    Hex,
    /// what a backslash makes of one byte: " \ / b f n r t
    Escaped,
    /// unescaped = %x20-21 / %x23-5B / %x5D-10FFFF: those of one byte
    Plain,
    /// space / tab
    Blank,
    /// line feed / carriage return
    LineEnd,
    /// one byte of a line comment: none ends the line
    InLine,
    /// one byte of a block comment, but for the star
    InBlock,
    /// begin-array / begin-object
    Opening,
    /// what begins a value
    ValueFirst,
}

impl ByteClass {
    /// Whether the byte is of the class. Where the class is known, nothing but its own test is left of this; so it is to stand in
    /// its callers.
    #[inline(always)]
    pub fn holds(self, b: u8) -> bool
        ensures { result ≡ within (bytes_of self) b }
    {
        match self {
            ByteClass::Only(x) => b == x,
            ByteClass::Range(lo, hi) => (lo..=hi).contains(&b),
            ByteClass::MultiFirst => matches!(b, 0xC2..=0xF4),
            ByteClass::Digit => matches!(b, b'0'..=b'9'),
            ByteClass::Exponent => matches!(b, b'e' | b'E'),
            ByteClass::Sign => matches!(b, b'+' | b'-'),
            ByteClass::Hex => matches!(b, b'0'..=b'9' | b'A'..=b'F' | b'a'..=b'f'),
            ByteClass::Escaped => {
                matches!(b, b'"' | b'\\' | b'/' | b'b' | b'f' | b'n' | b'r' | b't')
            }
            ByteClass::Plain => matches!(b, 0x20..=0x21 | 0x23..=0x5B | 0x5D..=0x7F),
            ByteClass::Blank => matches!(b, b' ' | b'\t'),
            ByteClass::LineEnd => matches!(b, b'\n' | b'\r'),
            ByteClass::InLine => b.is_ascii() && !matches!(b, b'\n' | b'\r'),
            ByteClass::InBlock => b.is_ascii() && b != b'*',
            ByteClass::Opening => matches!(b, b'[' | b'{'),
            ByteClass::ValueFirst => {
                matches!(
                    b,
                    b'[' | b'{' | b'"' | b'n' | b't' | b'f' | b'-' | b'0'..=b'9'
                )
            }
        }
    }
}
