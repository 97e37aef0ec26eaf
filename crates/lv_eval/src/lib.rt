//! The truth of a formula in a finite structure.
//!
//! Truth is defined by recursion on the formula, as textbooks define it, over the structure as functions
//! and a list of values for the free variables; the definition stands in lv_formula.
#![tactic(auto)]

mod env;
mod evaluate;
mod failing;

pub use env::Env;
pub use evaluate::truth;
pub use failing::{first_false, is_true};
