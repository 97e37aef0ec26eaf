//! What is shown of a system is spelled: laws, and the text of a system with the promise that it spells the system again.
#![tactic(auto)]

pub mod laws;
mod texts;

pub use texts::show;
