//! Tuples as numbers: each element is a digit, and the last one counts singly.
ghost use Rattle.std.specs.Prelude.{◌≡◌, ◌<◌, ◌≤◌, ◌^◌, All, IfOk, [], map};
ghost use Rattle.std.specs.Option.{ForSome};
ghost use Rattle.lv_formula.specs.Tuples.{has_tuple};
ghost use Rattle.lv_struct.specs.Numbers.{AreKept, IsIndex, has_number, index_of, number_at, number_of, radix, tuple_of};

use crate::elements::{Elements, Tuple};
use crate::tuples::copy;
use lv_formula::{List, Memory};
use std::alloc::Global;

/// The most elements of a tuple that has a number.
const MOST_ELEMENTS: usize = 4;

/// What each element of a tuple that has a number is below.
const RADIX: u32 = 65_536;

/// The number of the tuple, if it has at most four elements, each below 65,536.
fn number_of<T: Elements>(tuple: &T) -> Option<u64>
    ensures { result ≡ number_of (T.elements tuple.now) }
{
    if tuple.count() > MOST_ELEMENTS {
        return None;
    }
    let mut number = 0u64;
    for i in 0..tuple.count() {
        let element = tuple.at(i);
        if element >= RADIX {
            return None;
        }
        number = number * RADIX as u64 + element as u64;
    }
    Some(number)
}

/// The number of the tuple, if it has one and has that length.
pub(crate) fn number_at(arity: usize, tuple: &[u32]) -> Option<u64>
    ensures { result ≡ number_at arity tuple.now }
{
    if tuple.len() == arity {
        number_of(&Tuple { elements: tuple })
    } else {
        None
    }
}

/// The numbers of the tuples, if each of them has one and all have that length. The error is want of memory.
pub(crate) fn numbers_of(
    alloc: Global,
    arity: usize,
    tuples: &[List<u32>],
) -> Result<Option<List<u64>>, Memory>
    ensures same { IfOk result (λ found. ForSome found (λ ks. map (tuple_of arity) ks ≡ tuples.now)) }
    ensures below { IfOk result (λ found. ForSome found (All (λ k. k < radix ^ arity))) }
    ensures short { IfOk result (λ found. ForSome found (λ ks. arity ≤ 4)) }
{
    if arity > MOST_ELEMENTS {
        return Ok(None);
    }
    let mut numbers = Vec::new(alloc);
    for tuple in tuples {
        match number_at(arity, tuple.as_slice()) {
            Some(number) => numbers.push(number)?,
            None => return Ok(None),
        }
    }
    Ok(Some(List::from_vec(numbers)))
}

/// The numbers in ascending order, if they don't ascend. The error is want of memory.
fn ascending_of(alloc: Global, numbers: &[u64]) -> Result<Option<List<u64>>, Memory>
    ensures { IfOk result (λ ascending. IsIndex numbers.now (index_of numbers.now ascending)) }
{
    if numbers.is_sorted() {
        return Ok(None);
    }
    let mut ascending = Vec::from_slice(alloc, numbers)?;
    ascending.sort()?;
    Ok(Some(List::from_vec(ascending)))
}

/// Tuples of one length, kept as their numbers. They are found by a binary search.
#[derive(Debug, Drop)]
pub(crate) struct Numbered {
    pub(crate) arity: usize,
    pub(crate) numbers: List<u64>,
    /// The same numbers in ascending order, if `numbers` don't ascend.
    pub(crate) ascending: Option<List<u64>>,
    ghost kept: { AreKept arity numbers ascending },
}

impl Numbered {
    /// No tuples. Takes no memory.
    pub(crate) fn empty(alloc: Global) -> Numbered
        ensures { result.numbers ≡ [] }
    {
        Numbered {
            arity: 0,
            numbers: List::from_vec(Vec::new(alloc)),
            ascending: None,
        }
    }

    /// The tuples of that length that have these numbers. The error is want of memory.
    pub(crate) fn new(alloc: Global, arity: usize, numbers: List<u64>) -> Result<Numbered, Memory>
        requires short { arity ≤ 4 }
        requires below { All (λ k. k < radix ^ arity) numbers }
        ensures arity { IfOk result (λ n. n.arity ≡ arity) }
        ensures numbers { IfOk result (λ n. n.numbers ≡ numbers) }
    {
        let ascending = ascending_of(alloc, numbers.as_slice())?;
        Ok(Numbered {
            arity,
            numbers,
            ascending,
        })
    }

    /// The numbers in ascending order.
    fn index(&self) -> &[u64]
        ensures { IsIndex self.now.numbers result.now }
    {
        match &self.ascending {
            Some(ascending) => ascending.as_slice(),
            None => self.numbers.as_slice(),
        }
    }

    /// Whether the number is one of them.
    fn has_number(&self, number: u64) -> bool
        ensures { result ≡ has_number self.now.numbers number }
    {
        self.index().binary_search(&number).is_ok()
    }

    /// Whether the tuple is one of them.
    pub(crate) fn has<T: Elements>(&self, tuple: &T) -> bool
        ensures { result ≡ has_tuple (map (tuple_of self.now.arity) self.now.numbers) (T.elements tuple.now) }
    {
        if tuple.count() != self.arity {
            return false;
        }
        match number_of(tuple) {
            Some(number) => self.has_number(number),
            None => false,
        }
    }

    /// Whether the tuple of so many elements that has this number is one of them.
    pub(crate) fn has_numbered(&self, arity: usize, number: u64) -> bool
        requires { number < radix ^ arity }
        ensures { result ≡ has_tuple (map (tuple_of self.now.arity) self.now.numbers) (tuple_of arity number) }
    {
        arity == self.arity && self.has_number(number)
    }
}
