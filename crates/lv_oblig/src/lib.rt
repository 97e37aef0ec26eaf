//! The obligations of a system: how many there are, and the vocabulary, the hypotheses and the conclusion of each.
//!
//! An obligation asks that no structure of its vocabulary breaks it, by the definitions of lv_labels: that each invariant
//! holds at the start, and after each step of the monitored structure, and that no structure is caught. A structure breaks
//! an obligation exactly where it makes the hypotheses true and the conclusion false. The laws on the runs of a system whose
//! obligations are valid, among them `walk` and `sound`, are those of lv_temporal.
#![tactic(auto)]

pub mod laws;
mod making;
mod numbering;
mod spoken;

pub use lv_labels::Which;
pub use making::sentences;
pub use numbering::{count, which_obligation};
pub use spoken::vocabulary;
