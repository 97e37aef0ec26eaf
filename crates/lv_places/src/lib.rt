//! Places of sentences in normal form, and the notions that ground forms are made of.
//!
//! - A place is an `Any` node. Its arguments are the `All` variables around it on which its element may
//!   depend. An edge of the sort graph leads from the sort of each argument to the place's sort.
//! - The terms of a sort are the constants that occur, and the places at all tuples of terms.
//! - In the ground form of sentences each `All` is an `And` over the terms, and each place is a term. The
//!   size is the number of its nodes and of the clauses that hold of equality.
//!
//! Variables are numbered from the innermost binder on.
#![tactic(auto)]

mod grounded;
mod numbers;
mod occurring;
mod placing;
mod skolem;
mod terms;

pub use grounded::{GroundAtom, Grounded};
pub use occurring::{occurring_constants, occurring_relations};
pub use placing::places;
pub use skolem::{Place, PlaceArg, Skolem};
pub use terms::{GroundTerm, TermId};
