//! The solver. Until it ends, it propagates; a conflict without decisions shows that no assignment satisfies the clauses, and a
//! conflict under decisions is learned from; where there is no conflict it decides a variable, and where each variable
//! has a value it is done.
//!
//! The literals that are read between two conflicts are paid by the clauses: one for each pair of a literal that was propagated and
//! a literal of a clause that has its negation, as many times as the clause is long. That comes to the sum of the squares of
//! the lengths, of which the given clauses have `q` and each learned clause at most `n * n`. An analysis reads at most as
//! much again.

ghost use Rattle.std.specs.Prelude.{◌≡◌, ◌<◌, ◌≤◌, ◌+◌, length, IfOk};
ghost use Rattle.std.specs.List.{All};
ghost use Rattle.lv_cnf.specs.Literals.{InRange};
ghost use Rattle.lv_propagate.specs.Potential.{squares};
ghost use Rattle.lv_sat.specs.Verdict.{VerdictIs, SolvedIs, most_reads};

use crate::search::{Search, free_variable, signs};
use lv_cnf::{Assignment, Clauses, List, Log, Memory, Steps};
use std::alloc::Global;
use std::marker::Brand;
use std::sync::ledger::{Blank, Ledger};

/// How a search ended.
#[derive(Debug, Drop)]
pub enum Ending {
    /// No assignment satisfies the clauses.
    Unsat,
    /// This assignment satisfies them. It has one value for each variable.
    Sat(Assignment),
    /// The search was given up, after it had learned as many clauses as it may.
    Spent,
}

/// How a search ended, and the clauses that it learned, in order.
#[derive(Debug, Drop)]
pub struct Solved {
    /// How the search ended.
    pub ending: Ending,
    /// The clauses that it learned, no more than the budget allows. Each is true in every assignment that satisfies the
    /// clauses, and was new when it was learned, as told at [`Verdict::Spent`].
    pub log: Log,
}

/// The solver's answer.
#[derive(Debug, Drop)]
pub enum Verdict {
    /// No assignment satisfies the clauses.
    Unsat,
    /// This assignment satisfies them. It has one value for each variable.
    Sat(Assignment),
    /// The search was given up, after it had learned these clauses. There are as many of them as the budget
    /// allows, and each is true in every assignment that satisfies the clauses. Each was new when it was
    /// learned: unit propagation from the clauses and the ones learned before does not find that the last
    /// literal is true where all others are false.
    Spent(Log),
}

/// Looks for an assignment that satisfies the clauses, and gives up once it has learned `budget` clauses.
/// The only error is want of memory.
///
/// The caller sees to it that the clauses have no other variables than those below `clauses.vars`, and that
/// the budget is at least 1. Each literal that is read of a packed clause counts one step. Where `k` clauses are
/// learned there are at most `2 * (k + 1) * (q + k * n * n)` steps, over `n` variables and with `q` the sum of the
/// squares of the lengths of the clauses.
pub fn solve_logged<L: Ledger>(
    alloc: Global,
    clauses: &Clauses,
    budget: u32,
    steps: &mut Steps<L>,
) -> Result<Solved, Memory>
    requires range { All (InRange clauses.now.vars) clauses.now.list }
    requires budget { 0 < budget }
    ensures solved { IfOk result (SolvedIs clauses.now budget) }
    ensures cost { IfOk result (λ s. steps.new ≤ steps.old + most_reads (squares clauses.now.list) clauses.now.vars (length s.log)) }
{
    let mut search = Search::new(alloc, clauses.vars as usize)?;
    let loaded = search.state.load(alloc, clauses.list.as_slice())?;
    if !loaded {
        return Ok(search.ended(Ending::Unsat));
    }
    loop {
        match search.state.propagate(alloc, steps)? {
            Some(conflict) => {
                if !search.has_decided() {
                    return Ok(search.ended(Ending::Unsat));
                }
                search.learn(alloc, conflict, steps)?;
                if search.is_full(budget) {
                    return Ok(search.ended(Ending::Spent));
                }
            }
            None => match free_variable(search.state.trail.values.as_slice()) {
                Some(var) => search.state.decide(var)?,
                None => {
                    let values = signs(alloc, search.state.trail.values.as_slice())?;
                    return Ok(search.ended(Ending::Sat(values)));
                }
            },
        }
    }
}

/// The same, with a counter for a caller that counts nothing.
fn solve_with<L: Ledger>(
    alloc: Global,
    clauses: &Clauses,
    budget: u32,
    blank: Blank,
) -> Result<Verdict, Memory>
    requires name { blank.name ≡ L.name }
    requires parts { blank.parts ≡ L.parts }
    requires some { 0 < blank.parts }
    requires range { All (InRange clauses.now.vars) clauses.now.list }
    requires budget { 0 < budget }
    ensures { IfOk result (VerdictIs clauses.now budget) }
{
    let mut steps: Steps<L> = Steps::new(blank);
    let Solved { ending, log } = solve_logged(alloc, clauses, budget, &mut steps)?;
    Ok(match ending {
        Ending::Unsat => Verdict::Unsat,
        Ending::Sat(values) => Verdict::Sat(values),
        Ending::Spent => Verdict::Spent(log),
    })
}

/// Looks for an assignment that satisfies the clauses, and gives up once it has learned `budget` clauses.
/// The only error is want of memory.
///
/// The caller sees to it that the clauses have no other variables than those below `clauses.vars`, and that
/// the budget is at least 1. A budget of `3 ^ vars` or more is never spent.
pub fn solve(alloc: Global, clauses: &Clauses, budget: u32) -> Result<Verdict, Memory>
    requires range { All (InRange clauses.now.vars) clauses.now.list }
    requires budget { 0 < budget }
    ensures { IfOk result (VerdictIs clauses.now budget) }
{
    solve_with::<Brand>(alloc, clauses, budget, Blank::new(1))
}
