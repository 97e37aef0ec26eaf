use lv_formula::{List, SortId, Sym};

/// A term: its sort, and its place in the sort's list of terms.
#[derive(Clone, Copy, Debug, Drop, PartialEq, Eq)]
pub struct TermId {
    pub sort: SortId,
    pub place: u32,
}

/// What a term stands for.
#[derive(Debug, Drop)]
pub enum GroundTerm {
    /// A constant that occurs.
    Constant(Sym),
    /// The element of a place, for these values of its arguments.
    Place { place: u32, arguments: List<TermId> },
    /// The one term of a sort that has no other.
    Extra,
}
