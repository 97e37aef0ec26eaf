//! Two watched literals.
//!
//! The literals that hold stand on a trail, in the order in which they were made true, each with the clause that forced
//! it, its reason. A decision has no reason, and begins a level: the levels of the trail are what stands from one
//! decision to the next.
//!
//! Each clause of two or more literals watches the two at its places 0 and 1, and each literal has a watch list: the
//! clauses that watch it. What is kept is that where one watched literal is false, the other holds, and did so when
//! the first was propagated or came on the same level. So a clause need be looked at only when a literal that
//! it watches comes out false. Then either the other watched literal holds, or a literal that is not false
//! takes the place of the false one, or the other one is forced, or the clause is false: a conflict. [`walk_watches`] does this for
//! one watch list. Nothing of the watches has to be changed when decisions are taken back.
#![tactic(auto)]

mod trail;
mod visit;
mod walk;
mod watches;

pub use trail::{Assigned, Trail, Truth};
pub use walk::walk_watches;
pub use watches::{WatchList, Watches};
