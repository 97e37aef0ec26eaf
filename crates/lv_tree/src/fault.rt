ghost use Rattle.std.specs.Prelude.{◌≡◌};
ghost use Rattle.lv_tree.specs.declared.fault.TreeFault.TheVariants as faults;

use std::alloc::{AllocError, AllocFailed};
use thiserror::Error;

/// Why bytes spell no tree. A place is counted in bytes from 0.
///
/// Faults are looked for byte by byte from the left, and the first one is answered. At one byte the
/// kinds are tried in the order in which they stand here.
#[derive(Debug, Drop, Error)]
pub enum TreeFault {
    /// Outside a comment, a byte that is no white byte, no word byte, no round bracket and no `;`.
    #[error("a byte that can't stand here, at {at}")]
    BadByte { at: u32 },
    /// A `)` with no list open, or a `(` or a word byte after the tree's end.
    #[error("something after the end of the tree, at {at}")]
    Extra { at: u32 },
    /// A `(` that opens the 65th open list.
    #[error("lists too deep, at {at}")]
    TooDeep { at: u32 },
    /// The 65th byte of a word.
    #[error("a word too long, at {at}")]
    LongWord { at: u32 },
    /// The bytes end with a list open: the place of the last `(` that isn't closed.
    #[error("a list that isn't closed, at {at}")]
    Unclosed { at: u32 },
    /// The bytes end, and no tree began.
    #[error("no tree")]
    Empty,
    /// There was no memory for the tree.
    #[error("out of memory")]
    Memory,
}

impl From<AllocError> for TreeFault {
    ghost from_gives = { λ _ e. e ≡ faults.Memory };

    fn from(_error: AllocError) -> TreeFault {
        TreeFault::Memory
    }
}

impl<T: Drop> From<AllocFailed<T>> for TreeFault {
    ghost from_gives = { λ _ e. e ≡ faults.Memory };

    fn from(_error: AllocFailed<T>) -> TreeFault {
        TreeFault::Memory
    }
}

/// There was no memory for the bytes.
#[derive(Debug, Drop, Error)]
#[error("out of memory")]
pub struct Memory;

impl From<AllocError> for Memory {
    fn from(_error: AllocError) -> Memory {
        Memory
    }
}
