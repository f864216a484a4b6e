//! The reader of house files: it judges a text, and reports what stands in it to a sink.
#![tactic(auto)]

pub mod fault;
pub mod frame;
pub mod gaps;
pub mod scalars;
pub mod sink;
pub mod tokens;
pub mod values;
