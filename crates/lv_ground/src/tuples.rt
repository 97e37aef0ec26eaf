//! Tuples of terms, in lexicographic order.
ghost use Rattle.std.specs.Prelude.{◌≡◌, ◌++◌, ◌∷◌, [], map, IfOk, OnOk};
ghost use Rattle.lv_places.specs.Universes.{count_at, heads, tuples};

use crate::setting::count_of;
use lv_formula::{List, Memory, SortId};
use lv_places::TermId;
use std::alloc::Global;

/// The tuple with a term before it.
fn put_before(alloc: Global, term: TermId, tuple: &[TermId]) -> Result<List<TermId>, Memory>
    ensures { IfOk result (λ t. t ≡ term ∷ tuple.now) }
{
    let mut all = Vec::new(alloc);
    all.push(term)?;
    all.extend_from_slice(tuple)?;
    Ok(List::from_vec(all))
}

/// Appends the tuples with a term before each.
fn push_with(
    alloc: Global,
    term: TermId,
    tuples: &[List<TermId>],
    all: &mut Vec<List<TermId>>,
) -> Result<(), Memory>
    ensures { OnOk result (all.new.items ≡ all.old.items ++ map (λ t. term ∷ t) tuples.now) }
{
    for tuple in tuples {
        all.push(put_before(alloc, term, tuple.as_slice())?)?;
    }
    Ok(())
}

/// The tuples with each of the first terms of a sort before them.
fn put_each_before(
    alloc: Global,
    sort: SortId,
    count: u32,
    tuples: &[List<TermId>],
) -> Result<List<List<TermId>>, Memory>
    ensures { IfOk result (λ ts. ts ≡ heads sort count tuples.now) }
{
    let mut all = Vec::new(alloc);
    for place in 0..count {
        push_with(alloc, TermId { sort, place }, tuples, &mut all)?;
    }
    Ok(List::from_vec(all))
}

fn empty_tuple(alloc: Global) -> Result<List<List<TermId>>, Memory>
    ensures { IfOk result (λ ts. ts ≡ [] ∷ []) }
{
    let mut all = Vec::new(alloc);
    all.push(List::from_vec(Vec::new(alloc)))?;
    Ok(List::from_vec(all))
}

/// All tuples of terms of the sorts.
pub(crate) fn tuples_of(
    alloc: Global,
    counts: &[u32],
    sorts: &[SortId],
) -> Result<List<List<TermId>>, Memory>
    ensures { IfOk result (λ ts. ts ≡ tuples (count_at counts.now) sorts.now) }
{
    let mut all = empty_tuple(alloc)?;
    for i in (0..sorts.len()).rev() {
        all = put_each_before(alloc, sorts[i], count_of(counts, sorts[i]), all.as_slice())?;
    }
    Ok(all)
}
