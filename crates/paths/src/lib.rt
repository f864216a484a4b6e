//! Paths: where a node stands, by the ordinals of the values and members on the way to it from the root's value; what stands at a path; and
//! which property of an object has a name.
#![tactic(auto)]

mod calls;
mod downward;
mod members;
mod upward;

pub use calls::{at, element_index, find, path};
