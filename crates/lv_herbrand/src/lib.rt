//! Sentences and their ground clauses.
#![tactic(auto)]

pub mod laws;
