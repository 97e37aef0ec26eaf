//! Texts as trees, read and written.
//!
//! A text is one tree, with white bytes and comments around it and between its parts.
//!
//! - A tree is a word or a list: any number of trees in round brackets.
//! - A word is a longest run of word bytes, of at most 64. Word bytes are the letters and digits of
//!   ASCII, `_`, `-`, `.` and `=`.
//! - White bytes are space, tab, newline and carriage return.
//! - A comment runs from a `;` to the byte before the next newline, or to the end of the text. It
//!   holds any bytes.
//! - Lists nest at most 64 deep.
//!
//! Bytes that spell no tree have exactly one fault, the first from the left: see [`TreeFault`].
#![tactic(auto)]

mod fault;
pub mod laws;
mod list;
mod reader;
mod tree;
mod writer;

pub use fault::{Memory, TreeFault};
pub use list::{List, Text};
pub use reader::{MAX_BYTES, read_tree};
pub use tree::Tree;
pub use writer::{write_line, write_tree};
