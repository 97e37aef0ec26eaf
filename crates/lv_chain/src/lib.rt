//! The system of a chain of places, of any size from 2 to 16: a token goes from each place to the next, up to the last one.
//!
//! It is an example whose size can be chosen, to see how long a proof takes.
#![tactic(auto)]

mod chain;
mod formulas;
pub mod laws;
mod names;

pub use chain::make_system;
