#![tactic(auto)]
// Valuing: one text that works out formulas over anything that can make them, and a single state as the first such.
pub mod change;
pub mod making;
pub mod single;
pub mod truth;
pub mod valuer;
pub mod work;
