//! The classes of equal terms of each sort.
ghost use Rattle.std.specs.Prelude.{◌≡◌, ◌<◌, [], ◌∷◌, length, map, get_or, IfOk};
ghost use Rattle.lv_model.specs.Classes.{equal_in, first_like};
ghost use Rattle.lv_model.specs.Truths.{numbers, truth, sort, AreTruths};
ghost use Rattle.lv_model.specs.declared.truths.Head.TheVariants.{Equal};
ghost use Rattle.lv_model.specs.Quotients.{classes_of, classes_to, classes_in, no_classes};

use crate::assigned::{Assigned, count_of};
use crate::truths::{Head, truths_of};
use lv_formula::{List, Memory, SortId};
use std::alloc::Global;

/// The classes of equal terms of a sort.
#[derive(Drop)]
pub(crate) struct Classes {
    /// For each term the number of its class.
    pub(crate) numbers: List<usize>,
    /// The first term of each class.
    pub(crate) firsts: List<usize>,
}

/// Whether two terms of the sort are equal.
fn are_equal(st: &Assigned, sort: SortId, truths: &[bool], left: usize, right: usize) -> bool
    requires truths { AreTruths (numbers st.now) (truth st.now) Equal (sort ∷ sort ∷ []) truths.now }
    requires left { left < numbers st.now sort }
    requires right { right < numbers st.now sort }
    ensures { result ≡ equal_in (truth st.now) sort left right }
{
    truths[left * count_of(st.u, sort) + right]
}

/// The first term of the sort that is equal to this one, or term 0 where there is none up to itself.
fn first_like(st: &Assigned, sort: SortId, truths: &[bool], place: usize) -> usize
    requires truths { AreTruths (numbers st.now) (truth st.now) Equal (sort ∷ sort ∷ []) truths.now }
    requires place { place < numbers st.now sort }
    ensures { result ≡ first_like (equal_in (truth st.now) sort) place }
{
    for i in 0..place + 1 {
        if are_equal(st, sort, truths, i, place) {
            return i;
        }
    }
    0
}

/// The classes of the sort's terms, in the order of their first terms.
fn classes_of(alloc: Global, st: &Assigned, sort: SortId) -> Result<Classes, Memory>
    ensures { IfOk result (λ c. c ≡ classes_of st.now sort) }
{
    let truths = truths_of(alloc, st, Head::Equal, &[sort, sort])?;
    let mut before = Vec::new(alloc);
    let mut numbers = Vec::new(alloc);
    let mut firsts = Vec::new(alloc);
    for place in 0..count_of(st.u, sort) {
        let first = first_like(st, sort, truths.as_slice(), place);
        before.push(firsts.len())?;
        numbers.push(before[first])?;
        if first == place {
            firsts.push(place)?;
        }
    }
    Ok(Classes {
        numbers: List::from_vec(numbers),
        firsts: List::from_vec(firsts),
    })
}

/// The classes of each sort's terms.
pub(crate) fn all_classes(alloc: Global, st: &Assigned) -> Result<Vec<Classes>, Memory>
    ensures { IfOk result (λ all. all.items ≡ classes_to st.now st.now.sk.now.sorts) }
{
    let mut all = Vec::new(alloc);
    for s in 0..st.sk.sorts {
        all.push(classes_of(alloc, st, SortId(s))?)?;
    }
    Ok(all)
}

/// The first terms of the sort's classes.
pub(crate) fn firsts_in(classes: &[Classes], sort: SortId) -> &[usize]
    ensures { result.now ≡ (classes_in classes.now sort).firsts }
{
    match classes.get(sort.0 as usize) {
        Some(of) => of.firsts.as_slice(),
        None => &[],
    }
}

/// The class of the sort's term at this place.
pub(crate) fn class_in(classes: &[Classes], sort: SortId, place: usize) -> usize
    ensures { result ≡ get_or (classes_in classes.now sort).numbers place 0 }
{
    match classes.get(sort.0 as usize) {
        Some(of) => match of.numbers.as_slice().get(place) {
            Some(class) => *class,
            None => 0,
        },
        None => 0,
    }
}
