//! Finite structures: the sizes of the sorts, the tuples of the relations and the elements of the
//! constants.
//!
//! The elements of a sort are the numbers below its size. Contracts see a structure as its tables, and
//! read the tables as functions: which tuple a relation has, and which element a constant is.
#![tactic(auto)]

mod changes;
mod compare;
mod elements;
mod interpretation;
mod numbers;
mod structure;
mod tables;
mod tabulation;
mod tuple_list;
mod tuples;

pub use elements::Elements;
pub use interpretation::Interpretation;
pub use structure::Structure;
