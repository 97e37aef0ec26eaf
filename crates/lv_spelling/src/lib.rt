//! What is read of texts of systems is what the grammar says: laws alone, each the contract of a function that does nothing.
#![tactic(auto)]

pub mod laws;
