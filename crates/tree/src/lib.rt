//! A document's tree: the node table with the bytes of its leaves. The crates above walk it by steps from node to node, and speak of
//! its nodes alone (specs/Places.antt, Steps.antt, Walks.antt).
#![tactic(auto)]

mod asks;
pub mod class;
mod clears;
mod finds;
pub mod node;
mod start;
mod steps;
pub mod tree;
pub mod walks;

pub use class::{Class, NodeKind};
pub use node::Node;
pub use tree::Tree;
pub use walks::{Ancestors, Preceding, Siblings};
