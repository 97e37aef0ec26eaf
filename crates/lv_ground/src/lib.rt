//! The ground form of sentences.
#![tactic(auto)]

mod atoms;
mod equalities;
mod replacing;
mod sentences;
mod setting;
mod terms;
mod trees;
mod tuples;

pub use lv_places::{GroundAtom, Grounded, TermId};
pub use sentences::ground;
