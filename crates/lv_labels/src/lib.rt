//! Labels of a system's temporal formulas, readings, labelled runs, the monitor and the obligations.
//!
//! The labels are the temporal subformulas of which the tableau of Padon, Hoenicke, Losa, Podelski, Sagiv and Shoham
//! (Reducing liveness to safety in first-order logic, POPL 2018) keeps the truth in each state. The code lists them and
//! gives the readings, and has what the makers of sentences share. Labelled runs, rounds, the monitored structure and
//! what breaks an obligation are defined alone, and stand here beneath the laws on runs (lv_temporal) and the code that
//! makes the obligations, so that neither rests on the other.
#![tactic(auto)]

mod build;
mod justice;
mod key;
mod known;
mod labelling;
mod listing;
mod moves;
mod readings;
mod renumber;
mod sharing;
mod tuples;
mod variables;
mod which;

pub use justice::Justice;
pub use key::Key;
pub use known::KnownKeys;
pub use labelling::{Label, LabelTable, labels_of};
pub use listing::{key_of, keys_of, plain_of};
pub use moves::Move;
pub use readings::reading;
pub use sharing::{copied, number, push_shared};
pub use tuples::{for_all, push_variables, tuple_variables};
pub use variables::free_variables;
pub use which::Which;
