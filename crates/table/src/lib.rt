//! The node table: a document's nodes as records that link to one another by place, with a stack of free places.
//!
//! Each node has a number, which the crate above gives it: where that crate gives none twice, a handle (a place and a number)
//! finds its own node or none. The table itself asks only that the number is not 0.
//! The crates above speak of the table's `tree` and its `free` places alone (specs/Tables.antt), and never of a link.
#![tactic(auto)]

mod asks;
mod changes;
mod edits;
mod kind;
mod link;
mod links;
mod node;
mod release;
mod start;
mod table;

pub use kind::Kind;
pub use line_break::NewlineKind;
pub use node::{Handle, Own, Place};
pub use table::{NoTable, Table};
