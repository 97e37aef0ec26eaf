//! Systems, structures, formulas and symbols as texts.
//!
//! A system is shown in lines, an item on each, with variables named by the number of those in whose
//! scope they stand. The layout is defined in lv_grammar; that the text of a system spells it again is promised in
//! lv_layout. The laws on structures as texts are given out here under the same names.
#![tactic(auto)]

mod formulas;
mod items;
mod structures;
mod texts;
pub mod trees;

pub use lv_grammar::laws;
pub use texts::{show_formula, show_structure, show_sym, show_system, structure_tree};
