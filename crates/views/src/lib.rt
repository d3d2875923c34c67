// What the desk shows: a problem, the matrix of a plan, its losses, trigger lists and response times as tables, words as a text that can be read back,
// and what a new plan changes.
#![tactic(auto)]

pub mod changes;
pub mod matrix;
pub mod tables;
