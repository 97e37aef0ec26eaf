//! The obligations of a system, decided one after the other.
//!
//! `survey` says whether all of them are decided: no sort graph has a cycle, and no size is above 4,000,000. `prove` then
//! takes them in order, up to the first that isn't valid or at which the solver's budget is spent. Where all are valid, the
//! property holds on each fair lasso run of the system, of structures of any sizes.
#![tactic(auto)]

mod fragments;
mod outcome;

pub use fragments::{Surveyed, survey};
pub use outcome::{Outcome, prove};
