//! The walk over the watch list of a literal that came out false. Each clause is visited once. The clauses that were
//! visited are in their lists again, those that were not yet are in none for this literal, and what was kept of watched
//! literals is kept of all clauses at the end. No literal that holds is taken back, and no clause gains or loses a literal.

ghost use Rattle.std.specs.Prelude.{◌+◌, ◌≤◌, OnOk, IfOk};
ghost use Rattle.lv_watch.specs.Visit.{IsFalse};
ghost use Rattle.lv_watch.specs.Lists.{slot, list_at, Permutes, lengths_at, WalkIs};
ghost use Rattle.lv_watch.specs.Trail.{Lengthens};
ghost use Rattle.lv_watch.specs.Watching.{IsWatching};

use crate::trail::Trail;
use crate::visit::{Visit, visit_clause};
use crate::watches::Watches;
use lv_cnf::{Lit, Memory, Packed, Steps};
use std::alloc::Global;
use std::sync::ledger::Ledger;

/// Visits each clause that watches `gone`, which came out false, and makes the literals true that are forced. Gives a
/// clause whose literals are all false, once there is one: a conflict. The only error is want of memory.
///
/// It reads no more literals than these clauses have.
pub fn walk_watches<L: Ledger>(
    alloc: Global,
    packed: &mut Packed,
    watches: &mut Watches,
    trail: &mut Trail,
    gone: Lit,
    steps: &mut Steps<L>,
) -> Result<Option<usize>, Memory>
    requires watching { IsWatching packed.old watches.old trail.old }
    requires gone { IsFalse trail.old.values.items gone }
    ensures watching { OnOk result (IsWatching packed.new watches.new trail.new) }
    ensures outcome { IfOk result (WalkIs trail.old.values.items trail.new.values.items packed.old packed.new gone) }
    ensures permutes { OnOk result (Permutes packed.old packed.new) }
    ensures longer { OnOk result (Lengthens trail.old trail.new) }
    ensures cost { OnOk result (steps.new ≤ steps.old + lengths_at packed.old (list_at watches.old (slot gone))) }
{
    let list = watches.take(alloc, gone);
    let places = list.as_slice();
    for place in 0..places.len() {
        let clause = places[place];
        match visit_clause(packed, clause, gone, trail, steps) {
            Visit::Kept => watches.add(gone, clause)?,
            Visit::Moved(lit) => watches.add(lit, clause)?,
            Visit::Unit(lit) => {
                watches.add(gone, clause)?;
                trail.assign(lit, Some(clause))?;
            }
            Visit::Conflict => {
                watches.add(gone, clause)?;
                for rest in place + 1..places.len() {
                    watches.add(gone, places[rest])?;
                }
                return Ok(Some(clause));
            }
        }
    }
    Ok(None)
}
