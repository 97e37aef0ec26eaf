//! Lassos of a system as texts: reading one, and writing one so that it reads as the same.
#![tactic(auto)]

mod reading;
mod steps;
mod vocabulary;
mod writing;

pub use lv_replay::{Lasso, ReplayAnswer, StepTaken, replay};
pub use reading::read_lasso;
pub use writing::write_lasso;
