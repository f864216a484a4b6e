//! A list in lent room: taken from the back it is a stack, and from the front a queue.
//!
//! The crates above speak of the list that it stands for, of how many were taken from the front and of the room (specs/Listed.antt).
#![tactic(auto)]

mod list;
mod steps;

pub use list::WorkList;
