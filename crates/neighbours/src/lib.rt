//! A node's neighbours: parent, siblings and children.
#![tactic(auto)]

mod asks;

pub use asks::{
    child_at_index, next_sibling, parent_info, previous_sibling, trailing_comma, value,
};
