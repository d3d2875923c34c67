// What the desk tool is given and what it keeps: problem files, word lists and logs, and what is said of one that cannot be read or written.
#![tactic(auto)]

pub mod input;
pub mod mark;
pub mod output;
pub mod pieces;
