//! Why a tree spells nothing that is asked for.
ghost use Rattle.std.specs.Prelude.{◌≡◌};
ghost use Rattle.lv_fault.specs.declared.fault.ReadText.TheVariants as R;

use lv_formula::Memory;
use std::alloc::{AllocError, AllocFailed};
use thiserror::Error;

/// What is wrong with an item of a text.
#[derive(Clone, Copy, Debug, PartialEq, Eq)]
pub enum Kind {
    /// An item that can't stand here.
    Unexpected,
    /// A list ends before an item that it needs.
    Missing,
    /// A word of the right kind that names nothing.
    UnknownName,
    /// A new name or variable that is taken, or a label that is declared already.
    TwiceNamed,
    /// A term of another sort than its place.
    WrongSort,
    /// Another number of terms than the relation has arguments.
    WrongArity,
    /// A changing symbol in an axiom.
    NotFixed,
    /// A `set` of a fixed symbol.
    IsFixed,
    /// A second `set` of one symbol in an action.
    SetTwice,
    /// Outside invariants, a word of the monitor or a label; a witness where it may not stand.
    MonitorWord,
    /// A limit is passed.
    TooMany,
    /// The listed variables of a label aren't the free ones of its formula in order of first occurrence.
    FreeName,
}

/// The first fault of a tree that does not spell what is asked for.
#[derive(Clone, Copy, Debug, PartialEq, Eq, Error)]
#[error("the text has a fault")]
pub struct SyntaxFault {
    /// The place, counted in bytes from 0.
    pub at: u32,
    pub kind: Kind,
}

/// Why a reader gives nothing.
#[derive(Debug, Drop, Error)]
pub enum ReadText {
    /// The tree spells nothing.
    #[error("the text was refused")]
    Refused(SyntaxFault),
    /// There is no memory for what it spells.
    #[error("no memory")]
    Memory,
}

impl From<AllocError> for ReadText {
    ghost from_gives = { λ _ e. e ≡ R.Memory };

    fn from(_error: AllocError) -> ReadText {
        ReadText::Memory
    }
}

impl<T: Drop> From<AllocFailed<T>> for ReadText {
    ghost from_gives = { λ _ e. e ≡ R.Memory };

    fn from(_error: AllocFailed<T>) -> ReadText {
        ReadText::Memory
    }
}

impl From<Memory> for ReadText {
    ghost from_gives = { λ _ e. e ≡ R.Memory };

    fn from(_error: Memory) -> ReadText {
        ReadText::Memory
    }
}
