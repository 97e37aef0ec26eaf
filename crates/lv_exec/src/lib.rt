//! One step of a system, taken in a finite structure.
//!
//! An action with elements for its parameters is enabled where its guard is true of them. All of its
//! updates read the structure before the step, so none of them sees what another makes.
#![tactic(auto)]

mod performing;

pub use performing::{enabled, perform};
