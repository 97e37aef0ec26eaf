//! Systems that trees spell fit, and keep the limits on labels: laws alone, each the contract of a function that does
//! nothing.
#![tactic(auto)]

pub mod laws;
