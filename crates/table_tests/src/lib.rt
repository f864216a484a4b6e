//! Tests of the node table on a small tree, with places that are given back and taken again.
#![tactic(auto)]

#[cfg(test)]
mod helpers;
#[cfg(test)]
mod tests;
