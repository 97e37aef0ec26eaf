use crate::formula::Formula;
use crate::list::List;
use crate::symbols::{SortId, Sym};
use crate::terms::Term;

/// What a symbol becomes.
#[derive(Debug, Drop)]
pub enum Update {
    /// The relation holds for a tuple where the body does. The body stands in the context `sorts`.
    Relation {
        sym: Sym,
        sorts: List<SortId>,
        body: Formula,
    },
    /// The constant is what the term is.
    Constant {
        sym: Sym,
        term: Term,
    },
}
