//! Reports: the text that is written for each thing that may become of the obligations of a system, for what a check of a
//! structure or a replay of a lasso tells with a number or a name, and for a system that was made.
//!
//! A report is made of what was found, and says nothing of how. Whoever finds it hands over the obligation's number, and
//! the structure, the sorts or the number of clauses that go with it.
#![tactic(auto)]

mod failures;
pub mod laws;
mod names;
mod reports;
mod summary;

pub use failures::{axiom_fails, guard_fails, hypothesis_fails, unfair};
pub use reports::{countermodel, not_stratified, proved, spent, too_large};
pub use summary::made;
