//! What a structure says of an obligation, without a solver.
//!
//! `monitored` performs a step of the monitored structure by the definition of the step: own symbols by the action, and
//! what the monitor adds by its move. `check` tells the first hypothesis of an obligation that is false in a structure,
//! or else whether the conclusion is false too, so that the structure breaks the obligation.
#![tactic(auto)]

mod after_step;
mod checking;
mod due;
mod evaluating;
pub mod laws;
mod performing;

pub use checking::{Checked, check};
pub use performing::monitored;
