//! A search: the clauses under propagation, given ones and learned ones, and the log of those learned. No consistent set of
//! literals tells the clauses under propagation from the given ones and the log: it leaves in each clause of the one a
//! literal that holds or two that are undecided exactly where it does so in the other. Each clause of the log was new to
//! propagation when it was learned.

ghost use Rattle.std.specs.Prelude.{◌≡◌, ◌<◌, ◌≤◌, ◌+◌, [], length, map, IfOk, OnOk, IsTrue, ◌↔◌};
ghost use Rattle.lv_watch.specs.Watching.{IsWatching};
ghost use Rattle.lv_propagate.specs.Potential.{squares};
ghost use Rattle.lv_propagate.specs.State.{IsState, IsFresh, IsConflict};
ghost use Rattle.lv_sat.specs.Search.{sign, FreeIs, Learns};

use crate::analysis::analyse;
use crate::solver::{Ending, Solved};
use lv_cnf::{Assignment, Clause, List, Memory, Steps};
use lv_propagate::State;
use lv_watch::Assigned;
use std::alloc::{AllocError, Global};
use std::sync::ledger::Ledger;

/// The first variable with no value: the one that is decided next.
pub fn free_variable(values: &[Option<Assigned>]) -> Option<usize>
    ensures { FreeIs values.now result }
{
    for (i, value) in values.iter().enumerate() {
        if value.is_none() {
            return Some(i);
        }
    }
    None
}

/// The sign of each value; a variable with no value counts as false.
fn signs_of(alloc: Global, values: &[Option<Assigned>]) -> Result<Vec<bool>, AllocError>
    ensures { IfOk result (λ v. v.items ≡ map sign values.now) }
{
    values
        .iter()
        .map(|value| matches!(value, Some(Assigned { positive: true, .. })))
        .collect(alloc)
}

/// The sign of each value, as an assignment.
pub fn signs(alloc: Global, values: &[Option<Assigned>]) -> Result<Assignment, Memory>
    ensures { IfOk result (λ v. v ≡ map sign values.now) }
{
    Ok(List::from_vec(signs_of(alloc, values)?))
}

/// The clauses under propagation, and the clauses learned so far.
#[derive(Drop)]
pub struct Search {
    /// The clauses under propagation.
    pub state: State,
    /// The clauses learned so far, in order.
    pub log: Vec<Clause>,
}

impl Search {
    /// No clause, no value, nothing learned yet.
    pub fn new(alloc: Global, vars: usize) -> Result<Search, Memory>
        ensures state { IfOk result (λ s. IsState s.state) }
        ensures fresh { IfOk result (λ s. IsFresh s.state) }
        ensures none { IfOk result (λ s. s.state.packed ≡ []) }
        ensures size { IfOk result (λ s. length s.state.trail.values.items ≡ vars) }
        ensures log { IfOk result (λ s. s.log.items ≡ []) }
    {
        Ok(Search {
            state: State::new(alloc, vars)?,
            log: Vec::new(alloc),
        })
    }

    /// Whether some decision stands.
    pub fn has_decided(&self) -> bool
        ensures { IsTrue result ↔ (0 < length self.now.state.trail.starts.items) }
    {
        !self.state.trail.starts.is_empty()
    }

    /// Whether as many clauses are learned as the budget allows.
    pub fn is_full(&self, budget: u32) -> bool
        ensures { IsTrue result ↔ (length self.now.log.items ≡ budget) }
    {
        self.log.len() == budget as usize
    }

    /// The end of the search.
    pub fn ended(self, ending: Ending) -> Solved
        ensures ending { result.ending ≡ ending }
        ensures log { result.log ≡ self.log.items }
    {
        Solved {
            ending,
            log: List::from_vec(self.log),
        }
    }

    /// Learns a clause from a conflict under some decision, jumps back to where its last literal is forced, and makes
    /// that true. The only error is want of memory.
    pub fn learn<L: Ledger>(
        &mut self,
        alloc: Global,
        conflict: usize,
        steps: &mut Steps<L>,
    ) -> Result<(), Memory>
        requires watching { IsWatching self.old.state.packed self.old.state.watches self.old.state.trail }
        requires decided { 0 < length self.old.state.trail.starts.items }
        requires conflict { IsConflict self.old.state.packed self.old.state.trail conflict }
        ensures learns { OnOk result (Learns self.old self.new) }
        ensures cost { OnOk result (steps.new ≤ steps.old + squares self.old.state.packed) }
    {
        let learned = analyse(
            alloc,
            &self.state.packed,
            &self.state.trail,
            conflict,
            steps,
        )?;
        let clause = learned.log_clause(alloc)?;
        self.log.push(clause)?;
        let bound = learned.bound;
        let lits = learned.into_watched()?;
        self.state.add_learned(lits.as_slice(), bound)?;
        Ok(())
    }
}
