//! What readers of texts tell apart: words by their bytes, what names name, and where formulas stand.

use lv_formula::{List, SortId};
use lv_system::Shape;

/// A word that a formula begins with, or that is one.
#[derive(Clone, Copy, Debug, PartialEq, Eq)]
pub enum Keyword {
    True,
    False,
    Not,
    And,
    Or,
    Implies,
    Iff,
    All,
    Some,
    Always,
    Eventually,
    Equals,
}

/// What a word may be where none of the words that the grammar asks for stands.
#[derive(Clone, Copy, Debug, PartialEq, Eq)]
pub enum Family {
    /// The word `frozen`.
    Frozen,
    /// The word `saved`.
    Saved,
    /// A word with a dot.
    Dotted,
    /// A word that would be a variable if it were short enough.
    Variable,
    /// A word that would be a name if it were short enough.
    Name,
    /// A reserved word, a number, or a word of no kind.
    Other,
}

/// What a name names, with what formulas may ask of it. Numbers count those of a kind from 0.
#[derive(Debug, Drop)]
pub enum Named {
    /// The system itself.
    System,
    /// A sort, by its number.
    Sort(u32),
    /// A relation or constant of the system, by its number, with its shape and whether it is fixed.
    Symbol(u32, Shape, bool),
    Action,
    /// A fairness condition, by its number, with the sorts of its parameters.
    Fair(u32, List<SortId>),
    /// A declared label, by its number in the table of labels, with the sorts of its free variables.
    Label(u32, List<SortId>),
    /// A witness, by its number, with its sort.
    Witness(u32, SortId),
    Invariant,
}

/// Where a formula stands, which decides what words it may have.
#[derive(Clone, Copy, Debug, PartialEq, Eq)]
pub enum Role {
    /// In an axiom: fixed symbols.
    Axiom,
    /// In one state: all own symbols.
    State,
    /// In a label or the property: all own symbols, and temporal operators.
    Path,
    /// In a witness: all own symbols, the witnesses before it, and temporal operators.
    Witness,
    /// In an invariant: all own symbols, witnesses, declared labels and the monitor's words.
    Invariant,
}
