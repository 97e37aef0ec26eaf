//! Trees that spell structures or lassos, and what is read of them.
#![tactic(auto)]

pub mod laws;
