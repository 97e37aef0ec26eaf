//! Which symbols the formulas of a system may use, looked up in its parts.
ghost use Rattle.std.specs.Prelude.{◌≡◌, slice_get, ltb, length};
ghost use Rattle.lv_formula.specs.Vocabulary.{sorts_of_relation};
ghost use Rattle.lv_system.specs.Lookups.{passes, parts_of, one_if, vocabulary_of, free_in, relation_where, constant_where, params_of, witness_sort, own_relation, own_constant, witness_constant, invariant_relation, invariant_constant, usable_relation, usable_constant};
ghost use Rattle.lv_system.specs.Vocabularies.{relation_sorts, constant_sort};
ghost use Rattle.lv_system.specs.InvariantWords.{is_label_word};

use crate::parts::{Parts, Shape, Symbol};
use lv_formula::{Lookup, SortId, Sym};
use std::slice;

/// The symbols that a formula may use.
#[derive(Drop)]
pub(crate) enum Usable<'a> {
    /// The fixed ones.
    Fixed(&'a Parts),
    /// The system's own.
    Own(&'a Parts),
    /// The system's own and the first so many witnesses.
    Witnesses(&'a Parts, u32),
    /// What invariants may use.
    Invariants(&'a Parts),
}

/// A kind of the system's own symbols.
#[derive(Clone, Copy, Drop)]
pub(crate) enum Which {
    Any,
    Fixed,
    Changing,
}

impl Which {
    fn includes(self, symbol: &Symbol) -> bool
        ensures { result ≡ passes self symbol.now }
    {
        match self {
            Which::Any => true,
            Which::Fixed => symbol.fixed,
            Which::Changing => !symbol.fixed,
        }
    }
}

/// The sorts of the arguments, where the shape is a relation's.
fn sorts_of(shape: &Shape) -> Option<&[SortId]>
    ensures { sorts_of_relation result ≡ relation_sorts shape.now }
{
    match shape {
        Shape::Relation(sorts) => Some(sorts.as_slice()),
        Shape::Constant(_) => None,
    }
}

/// The sort, where the shape is a constant's.
fn sort_of(shape: &Shape) -> Option<SortId>
    ensures { result ≡ constant_sort shape.now }
{
    match shape {
        Shape::Relation(_) => None,
        Shape::Constant(sort) => Some(*sort),
    }
}

/// The sorts of the arguments of the symbol with that number, where it is a relation of the kind.
fn relation_at(symbols: &[Symbol], number: u32, which: Which) -> Option<&[SortId]>
    ensures { sorts_of_relation result ≡ relation_where (passes which) (slice_get symbols.now number) }
{
    let number = number as usize;
    if number < symbols.len() && which.includes(&symbols[number]) {
        sorts_of(&symbols[number].shape)
    } else {
        None
    }
}

/// The sort of the symbol with that number, where it is a constant of the kind.
fn constant_at(symbols: &[Symbol], number: u32, which: Which) -> Option<SortId>
    ensures { result ≡ constant_where (passes which) (slice_get symbols.now number) }
{
    let number = number as usize;
    if number < symbols.len() && which.includes(&symbols[number]) {
        sort_of(&symbols[number].shape)
    } else {
        None
    }
}

/// The sort of the witness with that number.
fn witness_at(parts: &Parts, number: u32) -> Option<SortId>
    ensures { result ≡ witness_sort (slice_get parts.now.witnesses number) }
{
    let number = number as usize;
    let witnesses = parts.witnesses.as_slice();
    if number < witnesses.len() {
        Some(witnesses[number].sort)
    } else {
        None
    }
}

/// The sorts of the tuples of the condition of fairness with that number.
fn params_at(parts: &Parts, number: u32) -> Option<&[SortId]>
    ensures { sorts_of_relation result ≡ params_of (slice_get parts.now.fairs number) }
{
    let number = number as usize;
    let fairs = parts.fairs.as_slice();
    if number < fairs.len() {
        Some(fairs[number].params.as_slice())
    } else {
        None
    }
}

/// The sort as the sorts of one argument, where it is there.
fn one_argument<'a>(parts: &Parts, sort: &'a SortId) -> Option<&'a [SortId]>
    ensures { sorts_of_relation result ≡ one_if (ltb sort.now.0 (length parts.now.sorts)) sort.now }
{
    if (sort.0 as usize) < parts.sorts.as_slice().len() {
        Some(slice::from_ref(sort))
    } else {
        None
    }
}

fn own_relation_named<'a>(parts: &'a Parts, sym: &Sym, which: Which) -> Option<&'a [SortId]>
    ensures { sorts_of_relation result ≡ own_relation (passes which) parts.now sym.now }
{
    match sym {
        Sym::Own(n) => relation_at(parts.symbols.as_slice(), *n, which),
        _ => None,
    }
}

fn own_constant_named(parts: &Parts, sym: Sym, which: Which) -> Option<SortId>
    ensures { result ≡ own_constant (passes which) parts.now sym }
{
    match sym {
        Sym::Own(n) => constant_at(parts.symbols.as_slice(), n, which),
        _ => None,
    }
}

fn witness_constant_named(parts: &Parts, bound: u32, sym: Sym) -> Option<SortId>
    ensures { result ≡ witness_constant parts.now bound sym }
{
    match sym {
        Sym::Own(n) => constant_at(parts.symbols.as_slice(), n, Which::Any),
        Sym::Witness(n) if n < bound => witness_at(parts, n),
        _ => None,
    }
}

fn invariant_relation_named<'a>(parts: &'a Parts, sym: &'a Sym) -> Option<&'a [SortId]>
    ensures { sorts_of_relation result ≡ invariant_relation parts.now sym.now }
{
    match sym {
        Sym::Own(n) => relation_at(parts.symbols.as_slice(), *n, Which::Any),
        Sym::Frozen | Sym::Saved => Some(&[]),
        Sym::Touched(sort) | Sym::Kept(sort) => one_argument(parts, sort),
        Sym::Due(n) => params_at(parts, *n),
        Sym::Copy(n) => relation_at(parts.symbols.as_slice(), *n, Which::Changing),
        _ => None,
    }
}

fn invariant_constant_named(parts: &Parts, sym: Sym) -> Option<SortId>
    ensures { result ≡ invariant_constant parts.now sym }
{
    match sym {
        Sym::Own(n) => constant_at(parts.symbols.as_slice(), n, Which::Any),
        Sym::Witness(n) => witness_at(parts, n),
        Sym::Copy(n) => constant_at(parts.symbols.as_slice(), n, Which::Changing),
        _ => None,
    }
}

/// Whether the relation is a label's word, whose arguments aren't known.
fn is_label_word_of(parts: &Parts, sym: Sym) -> bool
    ensures { result ≡ is_label_word parts.now sym }
{
    match sym {
        Sym::Label(_) | Sym::CopyLabel(_) => true,
        Sym::Due(n) => n as usize >= parts.fairs.as_slice().len(),
        _ => false,
    }
}

impl<'a> Usable<'a> {
    fn parts(&self) -> &Parts
        ensures { result.now ≡ parts_of self.now }
    {
        match self {
            Usable::Fixed(parts)
            | Usable::Own(parts)
            | Usable::Witnesses(parts, _)
            | Usable::Invariants(parts) => parts,
        }
    }

    fn relation_named(&'a self, sym: &'a Sym) -> Option<&'a [SortId]>
        ensures { sorts_of_relation result ≡ usable_relation self.now sym.now }
    {
        match self {
            Usable::Fixed(parts) => own_relation_named(parts, sym, Which::Fixed),
            Usable::Own(parts) | Usable::Witnesses(parts, _) => {
                own_relation_named(parts, sym, Which::Any)
            }
            Usable::Invariants(parts) => invariant_relation_named(parts, sym),
        }
    }

    fn constant_named(&self, sym: Sym) -> Option<SortId>
        ensures { result ≡ usable_constant self.now sym }
    {
        match self {
            Usable::Fixed(parts) => own_constant_named(parts, sym, Which::Fixed),
            Usable::Own(parts) => own_constant_named(parts, sym, Which::Any),
            Usable::Witnesses(parts, bound) => witness_constant_named(parts, *bound, sym),
            Usable::Invariants(parts) => invariant_constant_named(parts, sym),
        }
    }
}

impl<'a> Lookup for Usable<'a> {
    ghost vocabulary = { vocabulary_of };

    ghost is_free = { free_in };

    fn has_sort(&self, sort: SortId) -> bool {
        (sort.0 as usize) < self.parts().sorts.as_slice().len()
    }

    #[tactic(auto, using(crate::proofs::LookupLaws::relation_told))]
    fn relation<'b>(&'b self, sym: &'b Sym) -> Option<&'b [SortId]> {
        self.relation_named(sym)
    }

    #[tactic(auto, using(crate::proofs::LookupLaws::constant_told))]
    fn constant(&self, sym: Sym) -> Option<SortId> {
        self.constant_named(sym)
    }

    fn is_free(&self, sym: Sym) -> bool {
        match self {
            Usable::Invariants(parts) => is_label_word_of(parts, sym),
            _ => false,
        }
    }
}
