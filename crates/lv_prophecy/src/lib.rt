//! The witnesses of a system as formulas: what is true of them at the start of a labelled run.
//!
//! Witnesses are after Padon, Hoenicke, McMillan, Podelski, Sagiv and Shoham (Temporal prophecy for proving temporal
//! properties of infinite-state systems, FMCAD 2018).
#![tactic(auto)]

mod witnesses;

pub use witnesses::witness_sentences;
