//! Sentences are brought into normal form, with their places, a cycle of the sort graph or the size, and
//! the terms of each sort.
//!
//! The sentences of a pair of hypotheses and conclusion are the normal forms of the hypotheses and of the
//! negated conclusion. Where the sort graph has no cycle, each sort has finitely many terms. The size says
//! how large the ground form of the sentences is, before any of it is made.
#![tactic(auto)]

mod counting;
mod cycles;
mod filling;
pub mod laws;
mod numbers;
mod ranking;
mod sentences;
mod sizing;
mod universe;

pub use lv_places::{GroundAtom, GroundTerm, Grounded, Place, PlaceArg, Skolem, TermId};
pub use sentences::{cycle, ground_size, skolemise};
pub use universe::Universe;
