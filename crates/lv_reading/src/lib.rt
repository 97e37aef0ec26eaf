//! Numbers, tuples and structures, read from trees: what a tree spells, or its first fault.
#![tactic(auto)]

pub mod numbers;
mod structures;
mod tuples;

pub use structures::read_structure;
pub use tuples::elements;
