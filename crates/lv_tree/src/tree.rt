use crate::list::{List, Text};

/// A word, or a list in round brackets. Places are counted in bytes from 0.
#[derive(Debug, Drop)]
pub enum Tree {
    /// `at` is the place of the first byte of `text`.
    Word {
        at: u32,
        text: Text,
    },
    /// `at` is the place of the `(`, and `end` that of the `)`.
    Group {
        at: u32,
        end: u32,
        items: List<Tree>,
    },
}
