#![tactic(auto)]
// Runs: steps of operators, the check of a plan, and the line that tells the verdict.
pub mod line;
pub mod plan;
pub mod run;
pub mod step;
