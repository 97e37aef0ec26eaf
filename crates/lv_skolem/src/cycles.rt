//! A cycle of the sort graph.
ghost use Rattle.std.specs.Prelude.{◌≡◌, ◌<◌, ◌∷◌, [], IfOk, IfSome, IsNone};
ghost use Rattle.lv_places.specs.Universes.{count_at};
ghost use Rattle.lv_places.specs.SortGraphs.{CycleIs, IsCycle};
ghost use Rattle.lv_skolem.specs.Ranking.{RanksAre, AreInRange, UnrankedIs, until};

use crate::filling::count_of;
use crate::ranking::{left_before, none_ranked, ranks_of};
use lv_formula::{List, Memory, SortId};
use lv_places::Place;
use std::alloc::Global;

/// The first sort without a rank.
fn first_unranked(sorts: u32, ranks: &[u32]) -> Option<SortId>
    ensures { UnrankedIs ranks.now sorts result }
{
    for s in 0..sorts {
        if count_of(ranks, SortId(s)) == 0 {
            return Some(SortId(s));
        }
    }
    None
}

/// The sorts with one more before them.
fn put_first(alloc: Global, sort: SortId, sorts: &[SortId]) -> Result<List<SortId>, Memory>
    ensures { IfOk result (λ ss. ss ≡ sort ∷ sorts.now) }
{
    let mut all = Vec::new(alloc);
    all.push(sort)?;
    all.extend_from_slice(sorts)?;
    Ok(List::from_vec(all))
}

/// The sorts up to this one.
fn up_to(alloc: Global, sort: SortId, sorts: &[SortId]) -> Result<List<SortId>, Memory>
    ensures { IfOk result (λ ss. ss ≡ until sort sorts.now) }
{
    let mut all = Vec::new(alloc);
    for s in sorts {
        all.push(*s)?;
        if s.0 == sort.0 {
            return Ok(List::from_vec(all));
        }
    }
    Ok(List::from_vec(all))
}

/// From a sort without a rank back along the edges, until a sort comes again.
fn walk_back(
    alloc: Global,
    sorts: u32,
    places: &[Place],
    ranks: &[u32],
    start: SortId,
) -> Result<List<SortId>, Memory>
    requires ranks { RanksAre ranks.now places.now sorts }
    requires range { AreInRange sorts places.now }
    requires start { (start.0 < sorts) × (count_at ranks.now start ≡ 0) }
    ensures { IfOk result (IsCycle places.now) }
{
    let mut seen = none_ranked(alloc, sorts)?;
    let mut path = List::from_vec(Vec::new(alloc));
    let mut at = start;
    for _step in 0..sorts as u64 + 1 {
        if count_of(seen.as_slice(), at) != 0 {
            return up_to(alloc, at, path.as_slice());
        }
        seen[at.0 as usize] = 1;
        path = put_first(alloc, at, path.as_slice())?;
        match left_before(places, at, ranks) {
            Some(before) => at = before,
            None => return Ok(path),
        }
    }
    Ok(path)
}

/// A cycle of the sort graph, if there is one: distinct sorts, with an edge from each to the next, and one
/// from the last to the first. The only error is want of memory.
pub(crate) fn cycle_of(
    alloc: Global,
    sorts: u32,
    places: &[Place],
) -> Result<Option<List<SortId>>, Memory>
    requires { AreInRange sorts places.now }
    ensures { IfOk result (CycleIs places.now) }
{
    let ranks = ranks_of(alloc, sorts, places)?;
    match first_unranked(sorts, ranks.as_slice()) {
        None => Ok(None),
        Some(start) => {
            let cycle = walk_back(alloc, sorts, places, ranks.as_slice(), start)?;
            Ok(Some(cycle))
        }
    }
}
