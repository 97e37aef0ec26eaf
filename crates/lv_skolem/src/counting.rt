//! How many terms each sort has.
ghost use Rattle.std.specs.Prelude.{◌≡◌, ◌≤◌, ◌<◌, ◌*◌, ◌+◌, ◌^◌, cond, eqb, length, IfOk};
ghost use Rattle.lv_places.specs.Universes.{count_at, constant_terms, place_count, product, argument_sorts};
ghost use Rattle.lv_skolem.specs.Counting.{capped, number_of, NextIs, CountsAre, total};

use crate::sizing::{add, product_of, sorts_of};
use lv_formula::{ConShape, List, Memory, SortId};
use lv_places::{Place, Skolem};
use std::alloc::Global;

/// More terms than a sort has where the size is within the limit.
const MANY: u64 = 160;

/// The constants of the sort.
#[tactic(auto, using(crate::proofs::Capped::capped_small, crate::proofs::Capped::capped_more))]
fn constants_of(sort: SortId, constants: &[ConShape]) -> u64
    ensures { result ≡ capped (length (constant_terms sort constants.now)) }
{
    let mut count = 0;
    for shape in constants {
        if shape.sort.0 == sort.0 {
            count = add(count, 1);
        }
    }
    count
}

/// The terms of the place, if it is of the sort.
#[tactic(auto, using(crate::proofs::Capped::capped_small))]
fn place_terms_of(alloc: Global, sort: SortId, place: &Place, counts: &[u32]) -> Result<u64, Memory>
    ensures { IfOk result (λ k. k ≡ capped (cond (eqb place.now.sort.0 sort.0) (product (count_at counts.now) (argument_sorts place.now)) 0)) }
{
    if place.sort.0 == sort.0 {
        let sorts = sorts_of(alloc, place.arguments.as_slice())?;
        Ok(product_of(sorts.as_slice(), counts))
    } else {
        Ok(0)
    }
}

/// The terms of all places of the sort.
#[tactic(auto, using(crate::proofs::Capped::capped_small, crate::proofs::Capped::capped_sum))]
fn places_terms_of(
    alloc: Global,
    sort: SortId,
    places: &[Place],
    counts: &[u32],
) -> Result<u64, Memory>
    ensures { IfOk result (λ k. k ≡ capped (place_count (count_at counts.now) sort places.now)) }
{
    let mut sum = 0;
    for place in places {
        let count = place_terms_of(alloc, sort, place, counts)?;
        sum = add(sum, count);
    }
    Ok(sum)
}

/// How many terms the sort has, if the others have so many.
#[tactic(auto, using(crate::proofs::Capped::capped_small, crate::proofs::Capped::capped_number))]
fn number_for(alloc: Global, sk: &Skolem, sort: SortId, counts: &[u32]) -> Result<u64, Memory>
    ensures { IfOk result (λ k. k ≡ capped (number_of sk.now (count_at counts.now) sort)) }
{
    let places = places_terms_of(alloc, sort, sk.places.as_slice(), counts)?;
    Ok(add(constants_of(sort, sk.constants.as_slice()), places).max(1))
}

/// The numbers that follow from these, unless one of them is too large.
fn next_counts(alloc: Global, sk: &Skolem, counts: &[u32]) -> Result<Option<List<u32>>, Memory>
    ensures { IfOk result (λ o. NextIs sk.now (count_at counts.now) o) }
{
    let mut next = Vec::new(alloc);
    for s in 0..sk.sorts {
        let number = number_for(alloc, sk, SortId(s), counts)?;
        if number >= MANY {
            return Ok(None);
        }
        next.push(number as u32)?;
    }
    Ok(Some(List::from_vec(next)))
}

/// The sum of the numbers.
fn sum_of(counts: &[u32]) -> u64
    requires { total counts.now < 2 ^ 64 }
    ensures { result ≡ total counts.now }
{
    let mut sum = 0;
    for count in counts {
        sum += *count as u64;
    }
    sum
}

/// No terms for each of so many sorts.
#[tactic(auto, using(crate::proofs::Rising::total_append))]
fn none_of(alloc: Global, sorts: u32) -> Result<List<u32>, Memory>
    ensures { IfOk result (λ ns. (length ns ≡ sorts) × (total ns ≡ 0)) }
{
    let mut counts = Vec::new(alloc);
    for _s in 0..sorts {
        counts.push(0)?;
    }
    Ok(List::from_vec(counts))
}

/// How many terms each sort has, unless one has too many.
///
/// From no terms at all the numbers rise until they stay, each time by one at least.
pub(crate) fn counts_of(alloc: Global, sk: &Skolem) -> Result<Option<List<u32>>, Memory>
    ensures { IfOk result (λ o. CountsAre sk.now o) }
{
    let sorts = sk.sorts;
    let mut counts = none_of(alloc, sorts)?;
    let mut sum = 0;
    for _pass in 0..160 * sorts as u64 + 1 {
        match next_counts(alloc, sk, counts.as_slice())? {
            None => return Ok(None),
            Some(next) => {
                let next_sum = sum_of(next.as_slice());
                if next_sum == sum {
                    return Ok(Some(counts));
                }
                counts = next;
                sum = next_sum;
            }
        }
    }
    Ok(None)
}
