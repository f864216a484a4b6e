//! Indents: of a node, and the single indentation of a text.
#![tactic(auto)]

mod asks;
mod blanks;

pub use asks::indent_text;
