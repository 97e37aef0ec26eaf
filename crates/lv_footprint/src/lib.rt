//! The footprint of a run as formulas: which elements are touched at the start, and which after an action.
//!
//! Of a finite sort all elements are touched. Of another sort those are that constants and witnesses are, and those that
//! actions are taken with; this is the footprint of Padon, Hoenicke, Losa, Podelski, Sagiv and Shoham (Reducing liveness
//! to safety in first-order logic, POPL 2018). Each call gives an exact formula over one variable.
#![tactic(auto)]

mod after;
mod first;
mod terms;

pub use after::{touched_after, touched_after_action};
pub use first::{first_touched, touched_at_start};
pub use terms::{action_at, param_term};
