//! The document: what is loaded, and who is asked for by a handle.
#![tactic(auto)]

mod asks;
mod document;
mod edits;
mod loading;

pub use document::Document;
