//! Formulas are rewritten under their binders, and brought into negation normal form.
//!
//! Each call gives the formula of a definition, with nothing simplified, and states what the rewriting
//! does to the formula's truth in a structure. Variables are numbered from the innermost binder on, so
//! a term that passes under a binder has its variables raised, and no binder captures a variable.
#![tactic(auto)]

mod instantiating;
mod normal;
mod numbers;
mod replacing;
mod shifting;

pub use instantiating::instantiate;
pub use normal::nnf;
pub use replacing::replace;
pub use shifting::shift;
