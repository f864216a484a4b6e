//! The theory of forests of places, for the node table and all that stands above it: specs/ has the definitions, proofs/ the
//! lemmas. There is no code here.
#![tactic(auto)]
