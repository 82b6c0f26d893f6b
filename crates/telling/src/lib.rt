#![tactic(auto)]
// Tells a person in words what a task and a plan are, what each step does, and what the verdict means.
pub mod account;
pub mod laws;
pub mod layers;
mod location;
mod refused;
pub mod sentences;
mod steps;
pub mod task;
pub mod text;
