//! What words say over what is known of a system, and terms and formulas, read from trees.
#![tactic(auto)]

mod atoms;
pub mod formulas;
pub mod growing;
pub mod known;
pub mod names;
pub mod scope;
pub mod states;
pub mod symbols;
pub mod terms;
pub mod words;
