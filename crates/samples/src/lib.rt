#![tactic(auto)]
// What examples are made of: words by name, long words, files, the example cell, and tables.
pub mod build;
pub mod cell;
pub mod table;
