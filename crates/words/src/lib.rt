#![tactic(auto)]
// Words of 32 bits, what is refused and where, and the files that hold words.
pub mod fault;
pub mod file;
pub mod kind;
