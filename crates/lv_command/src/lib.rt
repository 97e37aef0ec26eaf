//! What the words of a call ask for.
//!
//! The words behind the program's name are read with `clap`. What they mean is defined by the meaning that `clap` itself
//! gives to a command and its words.
#![tactic(auto)]

mod commands;
pub mod laws;
mod mode;

pub use commands::mode_of;
pub use mode::{Mode, TextMode};
