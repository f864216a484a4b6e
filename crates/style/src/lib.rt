//! The questions that are asked level by level: which line break a document uses, and whether a container uses trailing commas.
//!
//! Each walks the tree with a queue of places: the first place is taken and asked, and its children are put behind.
#![tactic(auto)]

mod calls;
mod children;
mod commas;
mod levels;
mod newline;

pub use calls::{newline_kind, uses_trailing_commas};
pub use commas::uses_trailing_commas_in;
pub use newline::{NewlineKind, newline_kind_in};
