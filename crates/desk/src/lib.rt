// The planner's desk tool: what the program ttplan does. The calls that it makes are proved; what it prints is tested.
#![tactic(auto)]

mod answers;
pub mod commands;
mod example;
mod extending;
mod given;
