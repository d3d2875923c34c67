// One case: words from a text, a call made on them, and its answer shown and held against what the document wants.
#![tactic(auto)]

pub mod build;
pub mod moving;
pub mod show;
