#![tactic(auto)]
// How the words of a task are read: what may stand where, and the first fault.
pub mod laws;
pub mod section;
