//! What a document is and what every question and edit does, as definitions and laws: `specs/` says it, `proofs/` shows what holds of it.
//! The code stands in the crates above.
#![tactic(auto)]

ghost use Rattle.model.specs.Cases.{Replayed};
ghost use Rattle.model.specs.Questions.{Asked};
ghost use Rattle.model.specs.Rows.{Worked};

pub mod accounts;
pub mod handles;
pub mod laws;
pub mod promises;

/// The worked examples come out as they should: each text, loaded and edited, prints the bytes beside it.
pub fn worked_examples()
    ensures { Worked }
{}

/// So do the cases beside them, on odd layouts and in runs of edits, as the original prints them.
pub fn replayed_cases()
    ensures { Replayed }
{}

/// And so do questions and refusals that one might answer otherwise.
pub fn asked_questions()
    ensures { Asked }
{}
