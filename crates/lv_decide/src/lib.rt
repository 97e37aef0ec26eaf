//! Whether hypotheses and a conclusion are broken by some structure of their vocabulary, of whatever size.
//!
//! `measure` says whether they are decided at all: their sort graph has no cycle, and their size is at most 4,000,000.
//! `decide` then says that no structure breaks them, gives one that does, or tells which clauses the solver had learned
//! when its budget was spent.
#![tactic(auto)]

mod deciding;
mod measuring;

pub use deciding::{Decision, decide};
pub use measuring::{Fragment, measure};
