//! The grammar of house files and its reader, as definitions and theorems: `specs/` says which bytes are a text and
//! what the reader makes of them, `proofs/` that the reader is right. The code that reads stands in the crates above.
#![tactic(auto)]

ghost use Rattle.grammar.specs.Examples.{Examples};

/// What the reader answers on a few telling texts is as the table says.
pub fn reader_examples()
    ensures { Examples }
{}
