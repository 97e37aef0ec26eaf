//! Formulas of first-order logic with sorts, temporal formulas, and what is said of them.
//!
//! A formula is a tree whose parts are shared by counted references. Contracts see the tree without
//! the references, so two formulas are equal where their trees are.
//!
//! The definitions of structures as functions, of the truth of a formula in one, and of the structure after
//! updates stand here too, since all that is said of formulas rests on them; what follows from them is in `laws`.
#![tactic(auto)]

mod build;
mod formula;
pub mod laws;
mod list;
mod lookup;
mod memory;
mod rc;
mod scope;
mod symbols;
mod temporal;
mod temporal_scope;
mod terms;
mod update;
mod vocabulary;

pub use build::{all, and, any, atom, iff, implies, not, or, same};
pub use formula::Formula;
pub use list::{List, Text};
pub use lookup::Lookup;
pub use memory::Memory;
pub use rc::Rc;
pub use scope::{Scope, has_sort_in};
pub use symbols::{SortId, Sym};
pub use temporal::Temporal;
pub use terms::{Term, Terms};
pub use update::Update;
pub use vocabulary::{ConShape, RelShape, Sentences, Vocabulary};
