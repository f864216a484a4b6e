//! What is left behind each lexeme of a house file: UTF-8 characters, comments, numbers, strings, words and runs of blanks.
#![tactic(auto)]

pub mod bytes;
pub mod classes;
pub mod comments;
pub mod mismatch;
pub mod numbers;
pub mod strings;
pub mod utf8;
