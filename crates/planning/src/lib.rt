#![tactic(auto)]
// The theory of states, formulas, effects, operators and tasks.
pub mod change;
pub mod laws;
pub mod variables;
