//! Tests of documents: that a load succeeds and what it is one short of, a printing, a late handle, a list of calls.
#![tactic(auto)]

#[cfg(test)]
mod tests;
