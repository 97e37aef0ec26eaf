use lv_formula::{ConShape, Formula, List, RelShape, SortId};

/// An argument of a place.
#[derive(Clone, Copy, Debug, Drop, PartialEq, Eq)]
pub struct PlaceArg {
    pub sort: SortId,
    /// The `All` variable, by its number in the context in which the place's node stands.
    pub var: u32,
}

/// A place: an `Any` node of sentences in normal form.
#[derive(Debug, Drop)]
pub struct Place {
    pub sort: SortId,
    /// The `All` variables on which its element depends, the outermost first.
    pub arguments: List<PlaceArg>,
}

/// Sentences in normal form, with what stands in them.
#[derive(Debug, Drop)]
pub struct Skolem {
    /// The vocabulary's number of sorts.
    pub sorts: u32,
    /// The normal forms of the hypotheses, and last that of the negated conclusion.
    pub forms: List<Formula>,
    /// The places, in preorder through the sentences.
    pub places: List<Place>,
    /// The constants that occur, in order of the vocabulary.
    pub constants: List<ConShape>,
    /// The relations that occur, in order of the vocabulary.
    pub relations: List<RelShape>,
    /// A cycle of the sort graph, if there is one.
    pub cycle: Option<List<SortId>>,
    /// The size, where there is no cycle and the size is within the limit.
    pub size: Option<u64>,
}
