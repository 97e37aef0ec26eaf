//! The tableau of a system as formulas: the equations of its labels, its justice conditions, and what is true at the
//! start of a labelled run of the negated property.
//!
//! The tableau is after Padon, Hoenicke, Losa, Podelski, Sagiv and Shoham (Reducing liveness to safety in first-order
//! logic, POPL 2018). Each call gives an exact list of formulas, and says when they are true in a structure.
#![tactic(auto)]

mod conditions;
mod equating;
mod start;

pub use conditions::justice;
pub use equating::equations;
pub use lv_labels::Justice;
pub use start::start_sentences;
