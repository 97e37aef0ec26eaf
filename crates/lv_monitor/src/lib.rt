//! The monitor of a labelled run as formulas: what its words are at the start, when it may make a move, what a step
//! makes of its words, and when the state looks as it was saved.
//!
//! The monitor freezes the touched elements at the end of a first round and saves the state at the end of a later
//! one; it is the one of Padon, Hoenicke, Losa, Podelski, Sagiv and Shoham (Reducing liveness to safety in
//! first-order logic, POPL 2018). What it adds to a structure, its step, and when a structure is caught are
//! definitions of lv_labels. Each call here gives an exact list; lv_oblig has the laws that tie the lists to these
//! definitions.
#![tactic(auto)]

mod bodies;
mod comparing;
mod listing;
mod naming;
mod shapes;
mod updating;

pub use bodies::with_params;
pub use comparing::{
    compare_sentences, mark_set, move_condition, push_move_condition, push_none_due,
};
pub use listing::{catch_vocabulary, state_vocabulary, step_vocabulary};
pub use lv_labels::Move;
pub use updating::{move_updates, start_updates, step_updates};
