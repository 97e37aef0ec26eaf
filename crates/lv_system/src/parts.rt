use lv_formula::{Formula, List, SortId, Temporal, Term, Text};

/// A sort of elements.
#[derive(Debug, Drop)]
pub struct Sort {
    pub name: Text,
    /// Whether all elements of the sort count from the start, and not only those that constants,
    /// witnesses and steps have named.
    pub finite: bool,
}

/// What a symbol is.
#[derive(Debug, Drop)]
pub enum Shape {
    /// A relation, with the sorts of its arguments.
    Relation(List<SortId>),
    /// A constant, with its sort.
    Constant(SortId),
}

/// A symbol of the system.
#[derive(Debug, Drop)]
pub struct Symbol {
    pub name: Text,
    pub shape: Shape,
    /// Whether no action may change the symbol.
    pub fixed: bool,
}

/// What a symbol is after an action. Symbols are named by their number.
#[derive(Debug, Drop)]
pub enum ActionUpdate {
    /// The relation holds for a tuple where the body does. The body stands in the action's parameters
    /// followed by the relation's arguments.
    Relation { symbol: u32, body: Formula },
    /// The constant is what the term is. The term stands in the action's parameters.
    Constant { symbol: u32, term: Term },
}

/// An action, which is one step of the system for some elements.
#[derive(Debug, Drop)]
pub struct Action {
    pub name: Text,
    /// The sorts of the elements that a step takes.
    pub params: List<SortId>,
    /// Where the action may be taken. Stands in the parameters.
    pub guard: Formula,
    /// What changes, all at once. A symbol that stands in no update stays as it is.
    pub updates: List<ActionUpdate>,
}

/// A condition of fairness: a run is fair where it holds again and again for each tuple of elements.
#[derive(Debug, Drop)]
pub struct Fair {
    pub name: Text,
    pub params: List<SortId>,
    /// Stands in the parameters.
    pub condition: Formula,
}

/// A name for a temporal formula.
#[derive(Debug, Drop)]
pub struct LabelDecl {
    pub name: Text,
    pub params: List<SortId>,
    /// Stands in the parameters.
    pub formula: Temporal,
}

/// A constant for an element of which a temporal formula holds at the start, if it holds of any.
#[derive(Debug, Drop)]
pub struct WitnessDecl {
    pub name: Text,
    pub sort: SortId,
    /// Stands in the context of the one sort.
    pub formula: Temporal,
}

/// A formula that is to hold in each state that the monitored system reaches.
#[derive(Debug, Drop)]
pub struct Invariant {
    pub name: Text,
    pub formula: Formula,
}

/// The parts of a system.
#[derive(Debug, Drop)]
pub struct Parts {
    pub name: Text,
    /// The sorts, by their number.
    pub sorts: List<Sort>,
    /// The symbols, by their number.
    pub symbols: List<Symbol>,
    /// What holds in every state. Axioms speak of fixed symbols alone.
    pub axioms: List<Formula>,
    /// What holds at the start.
    pub inits: List<Formula>,
    pub actions: List<Action>,
    pub fairs: List<Fair>,
    /// The declarations of labels, in order. The number of a label is its place in the table of labels, which
    /// has those of witness formulas and of the property too.
    pub labels: List<LabelDecl>,
    /// The witnesses, by their number.
    pub witnesses: List<WitnessDecl>,
    /// What is to hold at the start of each fair run.
    pub property: Temporal,
    pub invariants: List<Invariant>,
}
