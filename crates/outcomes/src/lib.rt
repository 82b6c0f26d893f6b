#![tactic(auto)]
// Theory: how runs go on and end, and the verdict from bytes to bytes.
pub mod laws;
pub mod reached;
