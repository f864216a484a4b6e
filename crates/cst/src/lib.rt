//! House files as documents: load, ask, edit, print. Every call is total: it answers, or hands back one refusal and changes nothing.
#![tactic(auto)]

pub use document::Document;
pub use loader::LoadError;
pub use neighbours::{
    child_at_index, next_sibling, parent_info, previous_sibling, trailing_comma, value,
};
pub use paths::{at, element_index, find, path};
pub use printing::{print, text};
pub use refusal::Refusal;
pub use style::{NewlineKind, newline_kind, uses_trailing_commas};
pub use table::{Handle, Place};
pub use tree::NodeKind;
