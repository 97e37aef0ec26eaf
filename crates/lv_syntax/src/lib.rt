//! Systems, read from trees: the system that a tree spells, or the first fault with its place.
#![tactic(auto)]

mod declarations;
mod items;
mod labelled;
mod labelling;
mod parameters;
mod reader;
mod sections;
mod system;
mod updates;

pub use lv_fault::{Kind, ReadText, SyntaxFault};
pub use lv_reading::read_structure;
pub use lv_spelling::laws;
pub use reader::read_system;
