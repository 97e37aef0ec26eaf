//! The order of the sorts along the edges of the sort graph.
ghost use Rattle.std.specs.Prelude.{◌≡◌, ◌<◌, length, map, IfOk};
ghost use Rattle.lv_places.specs.Universes.{argument_sorts};
ghost use Rattle.lv_skolem.specs.Ranking.{FirstIs, LeftIs, FreeIs, RanksAre, zeros};

use crate::filling::count_of;
use lv_formula::{List, Memory, SortId};
use lv_places::{Place, PlaceArg};
use std::alloc::Global;

/// The first argument whose sort has no rank yet.
fn first_left(arguments: &[PlaceArg], ranks: &[u32]) -> Option<SortId>
    ensures { FirstIs ranks.now (map (λ a. a.sort) arguments.now) result }
{
    for argument in arguments {
        if count_of(ranks, argument.sort) == 0 {
            return Some(argument.sort);
        }
    }
    None
}

/// A sort without a rank from which an edge leads to this one.
pub(crate) fn left_before(places: &[Place], sort: SortId, ranks: &[u32]) -> Option<SortId>
    ensures { LeftIs ranks.now places.now sort result }
{
    for place in places {
        if place.sort.0 == sort.0 {
            if let Some(argument) = first_left(place.arguments.as_slice(), ranks) {
                return Some(argument);
            }
        }
    }
    None
}

/// The first sort without a rank to which edges lead from ranked sorts alone.
fn first_free(sorts: u32, places: &[Place], ranks: &[u32]) -> Option<u32>
    ensures { FreeIs ranks.now places.now sorts result }
{
    for s in 0..sorts {
        if count_of(ranks, SortId(s)) == 0 && left_before(places, SortId(s), ranks).is_none() {
            return Some(s);
        }
    }
    None
}

/// No rank for each of so many sorts.
#[tactic(auto, using(crate::proofs::Ranks::zeros_more))]
pub(crate) fn none_ranked(alloc: Global, sorts: u32) -> Result<Vec<u32>, Memory>
    ensures { IfOk result (λ ranks. (length ranks.items ≡ sorts) × (zeros ranks.items ≡ sorts)) }
{
    let mut ranks = Vec::new(alloc);
    for _s in 0..sorts {
        ranks.push(0)?;
    }
    Ok(ranks)
}

/// Ranks of the sorts, as far as there are any: a sort is ranked as soon as all sorts from which edges lead
/// to it are. Where all sorts are ranked there is no cycle.
pub(crate) fn ranks_of(alloc: Global, sorts: u32, places: &[Place]) -> Result<List<u32>, Memory>
    ensures { IfOk result (λ ranks. RanksAre ranks places.now sorts) }
{
    let mut ranks = none_ranked(alloc, sorts)?;
    for round in 0..sorts {
        match first_free(sorts, places, ranks.as_slice()) {
            Some(s) => ranks[s as usize] = round + 1,
            None => return Ok(List::from_vec(ranks)),
        }
    }
    Ok(List::from_vec(ranks))
}
