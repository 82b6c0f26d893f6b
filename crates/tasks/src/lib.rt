#![tactic(auto)]
// States, and tasks opened over the caller's words.
mod opening;
mod operands;
pub mod part;
mod progress;
mod reader;
mod sense;
pub mod state;
pub mod task;
