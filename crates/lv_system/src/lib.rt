//! A system of symbols, actions and fairness with the property that it is to have.
#![tactic(auto)]

mod fitting;
pub mod laws;
mod limits;
mod named;
mod names;
mod parts;
mod system;
mod temporal_limits;
mod usable;
mod words;

pub use fitting::fits;
pub use named::HasName;
pub use parts::{
    Action, ActionUpdate, Fair, Invariant, LabelDecl, Parts, Shape, Sort, Symbol, WitnessDecl,
};
pub use system::System;
pub use words::{all_stand_in_names, begins_with_small_letter, is_reserved_word, same_bytes};
