//! A house file to show the program on, and one that goes wrong.

/// A small house file as a theatre writes it.
pub const HOUSE: &[u8] =
    b"// Lyric, main house\n{\n  \"stalls\": {\n    \"F\": [11, 12, 13], // 12 behind the pillar\n    \"G\": [1, 2]\n  },\n  \"circle\": [], /* closed */\n}\n";

/// The same with a comma left out.
pub const SLIP: &[u8] = b"{\n  \"F\": [11, 12 13]\n}\n";
