//! Ground instances of sentences, in the structures in which the sentences hold.
#![tactic(auto)]

pub mod laws;
