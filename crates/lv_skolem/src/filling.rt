//! The terms of each sort, from how many terms each sort has.
ghost use Rattle.std.specs.Prelude.{◌≡◌, cond, eqb, ◌++◌, ◌∷◌, [], map, IfOk, OnOk};
ghost use Rattle.lv_places.specs.declared.terms.GroundTerm.TheVariants as make;
ghost use Rattle.lv_places.specs.Universes.{heads, tuples, argument_sorts, constant_terms, place_terms, terms_with, terms_to, count_at};

use crate::numbers::place_number;
use lv_formula::{ConShape, List, Memory, SortId};
use lv_places::{GroundTerm, Place, PlaceArg, Skolem, TermId};
use std::alloc::Global;

/// How many terms the sort has.
pub(crate) fn count_of(counts: &[u32], sort: SortId) -> u32
    ensures { result ≡ count_at counts.now sort }
{
    let at = sort.0 as usize;
    if at < counts.len() { counts[at] } else { 0 }
}

/// The tuple with a term before it.
fn put_before(alloc: Global, term: TermId, tuple: &[TermId]) -> Result<List<TermId>, Memory>
    ensures { IfOk result (λ t. t ≡ term ∷ tuple.now) }
{
    let mut all = Vec::new(alloc);
    all.push(term)?;
    all.extend_from_slice(tuple)?;
    Ok(List::from_vec(all))
}

/// Appends the tuples with a term before each.
fn push_with(
    alloc: Global,
    term: TermId,
    tuples: &[List<TermId>],
    all: &mut Vec<List<TermId>>,
) -> Result<(), Memory>
    ensures { OnOk result (all.new.items ≡ all.old.items ++ map (λ t. term ∷ t) tuples.now) }
{
    for tuple in tuples {
        all.push(put_before(alloc, term, tuple.as_slice())?)?;
    }
    Ok(())
}

/// The tuples with each of the first terms of a sort before them.
fn put_each_before(
    alloc: Global,
    sort: SortId,
    count: u32,
    tuples: &[List<TermId>],
) -> Result<List<List<TermId>>, Memory>
    ensures { IfOk result (λ ts. ts ≡ heads sort count tuples.now) }
{
    let mut all = Vec::new(alloc);
    for place in 0..count {
        push_with(alloc, TermId { sort, place }, tuples, &mut all)?;
    }
    Ok(List::from_vec(all))
}

fn empty_tuple(alloc: Global) -> Result<List<List<TermId>>, Memory>
    ensures { IfOk result (λ ts. ts ≡ [] ∷ []) }
{
    let mut all = Vec::new(alloc);
    all.push(List::from_vec(Vec::new(alloc)))?;
    Ok(List::from_vec(all))
}

/// All tuples of terms for the arguments, in lexicographic order.
fn tuples_for(
    alloc: Global,
    counts: &[u32],
    arguments: &[PlaceArg],
) -> Result<List<List<TermId>>, Memory>
    ensures { IfOk result (λ ts. ts ≡ tuples (count_at counts.now) (map (λ a. a.sort) arguments.now)) }
{
    let mut all = empty_tuple(alloc)?;
    for i in (0..arguments.len()).rev() {
        let sort = arguments[i].sort;
        all = put_each_before(alloc, sort, count_of(counts, sort), all.as_slice())?;
    }
    Ok(all)
}

/// Appends the terms of the constants of the sort.
fn push_constants(
    terms: &mut Vec<GroundTerm>,
    sort: SortId,
    constants: &[ConShape],
) -> Result<(), Memory>
    ensures { OnOk result (terms.new.items ≡ terms.old.items ++ constant_terms sort constants.now) }
{
    for shape in constants {
        if shape.sort.0 == sort.0 {
            terms.push(GroundTerm::Constant(shape.sym))?;
        }
    }
    Ok(())
}

fn copy_of(alloc: Global, terms: &[TermId]) -> Result<List<TermId>, Memory>
    ensures { IfOk result (λ ts. ts ≡ terms.now) }
{
    Ok(List::from_vec(Vec::from_slice(alloc, terms)?))
}

/// Appends the terms of a place at the tuples.
fn push_at_tuples(
    alloc: Global,
    terms: &mut Vec<GroundTerm>,
    place: u32,
    tuples: &[List<TermId>],
) -> Result<(), Memory>
    ensures { OnOk result (terms.new.items ≡ terms.old.items ++ map (make.Place place) tuples.now) }
{
    for tuple in tuples {
        terms.push(GroundTerm::Place {
            place,
            arguments: copy_of(alloc, tuple.as_slice())?,
        })?;
    }
    Ok(())
}

/// Appends the terms of the place with this number, if it is of the sort.
fn push_place(
    alloc: Global,
    terms: &mut Vec<GroundTerm>,
    sort: SortId,
    counts: &[u32],
    place: &Place,
    number: u32,
) -> Result<(), Memory>
    ensures { OnOk result (terms.new.items ≡ terms.old.items ++ cond (eqb place.now.sort.0 sort.0) (map (make.Place number) (tuples (count_at counts.now) (argument_sorts place.now))) []) }
{
    if place.sort.0 == sort.0 {
        let tuples = tuples_for(alloc, counts, place.arguments.as_slice())?;
        push_at_tuples(alloc, terms, number, tuples.as_slice())?;
    }
    Ok(())
}

/// Appends the terms of the places of the sort.
fn push_places(
    alloc: Global,
    terms: &mut Vec<GroundTerm>,
    sort: SortId,
    counts: &[u32],
    places: &[Place],
) -> Result<(), Memory>
    ensures { OnOk result (terms.new.items ≡ terms.old.items ++ place_terms (count_at counts.now) sort 0 places.now) }
{
    for i in 0..places.len() {
        let number = place_number(i)?;
        push_place(alloc, terms, sort, counts, &places[i], number)?;
    }
    Ok(())
}

/// The terms of the sort.
fn terms_for(
    alloc: Global,
    sk: &Skolem,
    sort: SortId,
    counts: &[u32],
) -> Result<List<GroundTerm>, Memory>
    ensures { IfOk result (λ ts. ts ≡ terms_with sk.now (count_at counts.now) sort) }
{
    let mut terms = Vec::new(alloc);
    push_constants(&mut terms, sort, sk.constants.as_slice())?;
    push_places(alloc, &mut terms, sort, counts, sk.places.as_slice())?;
    if terms.is_empty() {
        terms.push(GroundTerm::Extra)?;
    }
    Ok(List::from_vec(terms))
}

/// The terms of each sort.
pub(crate) fn all_terms(
    alloc: Global,
    sk: &Skolem,
    counts: &[u32],
) -> Result<List<List<GroundTerm>>, Memory>
    ensures { IfOk result (λ u. u ≡ terms_to sk.now (count_at counts.now) sk.now.sorts) }
{
    let mut all = Vec::new(alloc);
    for s in 0..sk.sorts {
        all.push(terms_for(alloc, sk, SortId(s), counts)?)?;
    }
    Ok(List::from_vec(all))
}
