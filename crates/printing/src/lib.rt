//! Printing: every leaf's bytes in order.
#![tactic(auto)]

mod asks;
pub mod buffers;
pub mod sizes;
pub mod writes;

pub use asks::{print, text};
