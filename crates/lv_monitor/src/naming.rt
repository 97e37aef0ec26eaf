//! The words of symbols by their numbers, and which symbols have one.
ghost use Rattle.std.specs.Prelude.{◌≡◌};
ghost use Rattle.lv_monitor.specs.Naming.{name_of, set_of, test_of};

use lv_formula::{SortId, Sym};
use lv_system::Symbol;

/// What a number is the number of.
#[derive(Clone, Copy)]
pub(crate) enum Naming {
    Own,
    Label,
    Touched,
    Kept,
    Due,
    Copy,
    CopyLabel,
    Next,
    Param,
}

impl Naming {
    /// The symbol with that number.
    pub(crate) fn name(self, n: u32) -> Sym
        ensures { result ≡ name_of self n }
    {
        match self {
            Naming::Own => Sym::Own(n),
            Naming::Label => Sym::Label(n),
            Naming::Touched => Sym::Touched(SortId(n)),
            Naming::Kept => Sym::Kept(SortId(n)),
            Naming::Due => Sym::Due(n),
            Naming::Copy => Sym::Copy(n),
            Naming::CopyLabel => Sym::CopyLabel(n),
            Naming::Next => Sym::Next(n),
            Naming::Param => Sym::Param(n),
        }
    }
}

/// A set of elements that the monitor has for each sort.
#[derive(Clone, Copy)]
pub(crate) enum ElementSet {
    Touched,
    Kept,
}

impl ElementSet {
    /// The set's word for the sort.
    pub(crate) fn word(self, sort: SortId) -> Sym
        ensures { result ≡ set_of self sort }
    {
        match self {
            ElementSet::Touched => Sym::Touched(sort),
            ElementSet::Kept => Sym::Kept(sort),
        }
    }
}

/// Which symbols are listed.
#[derive(Clone, Copy)]
pub(crate) enum Listed {
    All,
    Changing,
}

impl Listed {
    /// Whether the symbol is.
    pub(crate) fn has(self, symbol: &Symbol) -> bool
        ensures { result ≡ test_of self symbol.now }
    {
        match self {
            Listed::All => true,
            Listed::Changing => !symbol.fixed,
        }
    }
}
