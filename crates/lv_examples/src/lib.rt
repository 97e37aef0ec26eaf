//! Worked examples over a sort: that the definitions of runs, of the monitor and of obligations can be met, and what isn't told
//! apart by a comparison of states.
//!
//! The crate holds no code.
#![tactic(auto)]

pub mod laws;
