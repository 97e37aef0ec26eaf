//! The tuples of a relation.
ghost use Rattle.std.specs.Prelude.{◌≡◌, ◌<◌, ◌≤◌, ◌^◌, [], All, IfOk, map};
ghost use Rattle.lv_formula.specs.Tuples.{all_among, has_tuple, tuple_eq};
ghost use Rattle.lv_struct.specs.Numbers.{radix, tuple_of};

use crate::elements::{Elements, Tuple};
use crate::numbers::{Numbered, number_at, numbers_of};
use crate::tuples::push_copies;
use lv_formula::{List, Memory};
use std::alloc::Global;
use std::marker::Model;

/// Tuples in the order in which they were put, repeated ones too.
///
/// Where all of them have one length and a number, the numbers are kept, and else the tuples themselves.
#[derive(Debug, Drop)]
pub struct TupleList {
    numbered: Numbered,
    listed: List<List<u32>>,
}

impl Model for TupleList {
    ghost use Rattle.std.specs.Prelude.{ℕ, List, ◌++◌, map};
    ghost use Rattle.lv_struct.specs.Numbers.{tuple_of};

    ghost Value = { List (List ℕ) };

    ghost view = { λ a. map (tuple_of a.numbered.arity) a.numbered.numbers ++ a.listed };
}

impl TupleList {
    /// No tuples. Takes no memory.
    pub(crate) fn empty(alloc: Global) -> TupleList
        ensures { result ≡ [] }
    {
        TupleList {
            numbered: Numbered::empty(alloc),
            listed: List::from_vec(Vec::new(alloc)),
        }
    }

    /// These tuples. The error is want of memory.
    pub(crate) fn from_tuples(alloc: Global, tuples: &[List<u32>]) -> Result<TupleList, Memory>
        ensures { IfOk result (λ ts. ts ≡ tuples.now) }
    {
        let arity = first_length(tuples);
        match numbers_of(alloc, arity, tuples)? {
            Some(numbers) => TupleList::from_numbers(alloc, arity, numbers),
            None => TupleList::from_listed(alloc, tuples),
        }
    }

    /// The tuples of that length that have these numbers. The error is want of memory.
    fn from_numbers(alloc: Global, arity: usize, numbers: List<u64>) -> Result<TupleList, Memory>
        requires short { arity ≤ 4 }
        requires below { All (λ k. k < radix ^ arity) numbers }
        ensures { IfOk result (λ ts. ts ≡ map (tuple_of arity) numbers) }
    {
        Ok(TupleList {
            numbered: Numbered::new(alloc, arity, numbers)?,
            listed: List::from_vec(Vec::new(alloc)),
        })
    }

    /// These tuples, as they are. The error is want of memory.
    fn from_listed(alloc: Global, tuples: &[List<u32>]) -> Result<TupleList, Memory>
        ensures { IfOk result (λ ts. ts ≡ tuples.now) }
    {
        let mut listed = Vec::new(alloc);
        push_copies(alloc, tuples, &mut listed)?;
        Ok(TupleList {
            numbered: Numbered::empty(alloc),
            listed: List::from_vec(listed),
        })
    }

    /// Whether the tuple is one of them.
    #[tactic(auto, using(crate::proofs::TupleLaws::has_tuple_append))]
    pub(crate) fn has<T: Elements>(&self, tuple: &T) -> bool
        ensures { result ≡ has_tuple self.now (T.elements tuple.now) }
    {
        self.numbered.has(tuple) || contains_tuple(self.listed.as_slice(), tuple)
    }

    /// Whether the tuple of so many elements that has this number is one of them.
    #[tactic(auto, using(crate::proofs::TupleLaws::has_tuple_append))]
    fn has_numbered(&self, arity: usize, number: u64) -> bool
        requires short { arity ≤ 4 }
        requires below { number < radix ^ arity }
        ensures { result ≡ has_tuple self.now (tuple_of arity number) }
    {
        self.numbered.has_numbered(arity, number)
            || contains_numbered(self.listed.as_slice(), arity, number)
    }

    /// Whether each of them is one of the others.
    #[tactic(auto, using(crate::proofs::TupleLaws::all_among_append))]
    pub(crate) fn are_among(&self, others: &TupleList) -> bool
        ensures { result ≡ all_among self.now others.now }
    {
        numbered_are_among(&self.numbered, others)
            && listed_are_among(self.listed.as_slice(), others)
    }
}

/// How many elements the first tuple has, and 0 where there is none.
fn first_length(tuples: &[List<u32>]) -> usize {
    match tuples.first() {
        Some(tuple) => tuple.as_slice().len(),
        None => 0,
    }
}

/// Whether the tuples are the same.
#[tactic(auto, using(crate::proofs::PairLaws::lengths_differ))]
fn is_tuple<T: Elements>(elements: &[u32], tuple: &T) -> bool
    ensures { result ≡ tuple_eq elements.now (T.elements tuple.now) }
{
    if elements.len() != tuple.count() {
        return false;
    }
    for i in 0..elements.len() {
        if elements[i] != tuple.at(i) {
            return false;
        }
    }
    true
}

/// Whether the tuple is one of the tuples.
fn contains_tuple<T: Elements>(tuples: &[List<u32>], tuple: &T) -> bool
    ensures { result ≡ has_tuple tuples.now (T.elements tuple.now) }
{
    for t in tuples {
        if is_tuple(t.as_slice(), tuple) {
            return true;
        }
    }
    false
}

/// Whether the tuple of so many elements that has this number is one of the tuples.
fn contains_numbered(tuples: &[List<u32>], arity: usize, number: u64) -> bool
    requires short { arity ≤ 4 }
    requires below { number < radix ^ arity }
    ensures { result ≡ has_tuple tuples.now (tuple_of arity number) }
{
    for t in tuples {
        if has_number(t.as_slice(), arity, number) {
            return true;
        }
    }
    false
}

/// Whether it is the tuple of so many elements that has this number.
fn has_number(tuple: &[u32], arity: usize, number: u64) -> bool
    requires short { arity ≤ 4 }
    requires below { number < radix ^ arity }
    ensures { result ≡ tuple_eq tuple.now (tuple_of arity number) }
{
    match number_at(arity, tuple) {
        Some(found) => found == number,
        None => false,
    }
}

/// Whether each of the tuples is one of the others.
fn numbered_are_among(tuples: &Numbered, others: &TupleList) -> bool
    ensures { result ≡ all_among (map (tuple_of tuples.now.arity) tuples.now.numbers) others.now }
{
    for number in tuples.numbers.as_slice() {
        if !others.has_numbered(tuples.arity, *number) {
            return false;
        }
    }
    true
}

/// Whether each of the tuples is one of the others.
fn listed_are_among(tuples: &[List<u32>], others: &TupleList) -> bool
    ensures { result ≡ all_among tuples.now others.now }
{
    for tuple in tuples {
        if !others.has(&Tuple {
            elements: tuple.as_slice(),
        }) {
            return false;
        }
    }
    true
}
