//! What readers of texts share: the faults of a text with their places, and the words and lists of a tree with theirs.
#![tactic(auto)]

mod fault;
pub mod trees;

pub use fault::{Kind, ReadText, SyntaxFault};
