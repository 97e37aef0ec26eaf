use crate::formula::Formula;
use crate::list::List;
use crate::symbols::{SortId, Sym};

/// A relation and the sorts of its arguments.
#[derive(Debug, Drop)]
pub struct RelShape {
    pub sym: Sym,
    pub sorts: List<SortId>,
}

/// A constant and its sort.
#[derive(Debug, Drop)]
pub struct ConShape {
    pub sym: Sym,
    pub sort: SortId,
}

/// The symbols that formulas may name.
#[derive(Debug, Drop)]
pub struct Vocabulary {
    /// How many sorts there are. They are numbered from 0.
    pub sorts: u32,
    pub relations: List<RelShape>,
    pub constants: List<ConShape>,
    /// The relations and constants in the order in which they are written.
    pub order: List<Sym>,
}

/// Hypotheses and what is to follow from them, all without free variables.
#[derive(Debug, Drop)]
pub struct Sentences {
    pub hypotheses: List<Formula>,
    pub conclusion: Formula,
}
