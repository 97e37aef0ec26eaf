ghost use Rattle.std.specs.Prelude.{◌≡◌, ◌<◌, ◌≤◌, ◌^◌, ◌++◌, [], IfOk, drop, get_or, length, map, true, false};
ghost use Rattle.lv_struct.specs.Tables.{IsSound, meaning};
ghost use Rattle.lv_system.specs.Fits.{fits_parts};
ghost use Rattle.lv_system.specs.Lasso.{IsFair, IsLassoRun};
ghost use Rattle.lv_replay.specs.Answers.{IsAnswer};
ghost use Rattle.lv_replay.specs.Rows.{row_of};
ghost use Rattle.lv_replay.specs.Fits.{LassoFits};
ghost use Rattle.lv_replay.specs.Play.{IsPlayed, Walked};
ghost use Rattle.lv_replay.specs.Run.{Begins, run_of, states_of};

use crate::answer::ReplayAnswer;
use crate::lasso::Lasso;
use crate::meeting::first_unmet;
use crate::playing::walk;
use crate::rows::row;
use lv_eval::first_false;
use lv_formula::Memory;
use lv_struct::Structure;
use lv_system::System;
use std::alloc::Global;

/// The first of the answers, in the order of the type, whose cause is there. The error is want of memory.
///
/// A lasso fits where its start has the system's own symbols, each step's action is there with an element in range
/// for each parameter, the loop has a step, and stem and loop together have fewer than 2^32 of them.
pub fn replay(alloc: Global, system: &System, lasso: &Lasso) -> Result<ReplayAnswer, Memory>
    requires { LassoFits system.now lasso.now }
    ensures { IfOk result (λ answer. IsAnswer system.now lasso.now answer) }
{
    let parts = system.parts();
    match first_false(alloc, parts.axioms.as_slice(), &lasso.start)? {
        Some(number) => Ok(ReplayAnswer::AxiomFails { number }),
        None => match first_false(alloc, parts.inits.as_slice(), &lasso.start)? {
            Some(_) => Ok(ReplayAnswer::NotInit),
            None => take_stem(alloc, system, lasso),
        },
    }
}

/// The answer where the axioms and the initial conditions are true at the start. The error is want of memory.
fn take_stem(alloc: Global, system: &System, lasso: &Lasso) -> Result<ReplayAnswer, Memory>
    requires fits { LassoFits system.now lasso.now }
    requires begins { Begins system.now (meaning lasso.now.start) }
    requires fitting { fits_parts system.now ≡ true }
    ensures { IfOk result (λ answer. IsAnswer system.now lasso.now answer) }
{
    let mut states = Vec::new(alloc);
    let start = lasso.start.copy(alloc)?;
    match walk(alloc, system, lasso.stem.as_slice(), start, &mut states)? {
        Some(first) => take_loop(alloc, system, lasso, first, states),
        None => Ok(ReplayAnswer::GuardFails {
            step: count(states.as_slice()),
        }),
    }
}

/// The answer where the steps of the stem were taken through these states up to the first one of the loop.
/// The error is want of memory.
fn take_loop(
    alloc: Global,
    system: &System,
    lasso: &Lasso,
    first: Structure,
    states: Vec<Structure>,
) -> Result<ReplayAnswer, Memory>
    requires fits { LassoFits system.now lasso.now }
    requires begins { Begins system.now (meaning lasso.now.start) }
    requires fitting { fits_parts system.now ≡ true }
    requires walked { Walked system.now lasso.now.start lasso.now.stem [] states.items first }
    requires sound { IsSound lasso.now.start }
    ensures { IfOk result (λ answer. IsAnswer system.now lasso.now answer) }
{
    let mut states = states;
    let kept = first.copy(alloc)?;
    match walk(alloc, system, lasso.turn.as_slice(), first, &mut states)? {
        Some(last) => compare_ends(alloc, system, lasso, &kept, &last, states.as_slice()),
        None => Ok(ReplayAnswer::GuardFails {
            step: count(states.as_slice()),
        }),
    }
}

/// The answer where all steps were taken through these states, and these are the loop's first and the one after its last.
/// The error is want of memory.
fn compare_ends(
    alloc: Global,
    system: &System,
    lasso: &Lasso,
    first: &Structure,
    last: &Structure,
    states: &[Structure],
) -> Result<ReplayAnswer, Memory>
    requires fits { LassoFits system.now lasso.now }
    requires fitting { fits_parts system.now ≡ true }
    requires played { IsPlayed system.now lasso.now first.now last.now states.now }
    ensures { IfOk result (λ answer. IsAnswer system.now lasso.now answer) }
{
    if first.equal(last) {
        judge_fairness(alloc, system, lasso, states)
    } else {
        Ok(ReplayAnswer::LoopOpen)
    }
}

/// The answer where the steps make a run of the system through these states. The error is want of memory.
fn judge_fairness(
    alloc: Global,
    system: &System,
    lasso: &Lasso,
    states: &[Structure],
) -> Result<ReplayAnswer, Memory>
    requires fits { LassoFits system.now lasso.now }
    requires states { map meaning states.now ≡ states_of system.now (meaning lasso.now.start) (lasso.now.stem ++ lasso.now.turn) }
    requires run { IsLassoRun system.now (run_of system.now lasso.now) }
    ensures { IfOk result (λ answer. IsAnswer system.now lasso.now answer) }
{
    let fairs = system.parts().fairs.as_slice();
    let stem = lasso.stem.as_slice().len();
    let turn = from(states, stem);
    match first_unmet(alloc, fairs, &lasso.start, turn)? {
        Some(fair) => Ok(ReplayAnswer::Unfair { fair }),
        None => judge_property(alloc, system, lasso, states),
    }
}

/// The answer where the run is fair. The error is want of memory.
fn judge_property(
    alloc: Global,
    system: &System,
    lasso: &Lasso,
    states: &[Structure],
) -> Result<ReplayAnswer, Memory>
    requires fits { LassoFits system.now lasso.now }
    requires states { map meaning states.now ≡ states_of system.now (meaning lasso.now.start) (lasso.now.stem ++ lasso.now.turn) }
    requires run { IsLassoRun system.now (run_of system.now lasso.now) }
    requires fair { IsFair system.now (run_of system.now lasso.now) }
    ensures { IfOk result (λ answer. IsAnswer system.now lasso.now answer) }
{
    if holds_at_start(alloc, system, lasso, states)? {
        Ok(ReplayAnswer::Satisfies)
    } else {
        Ok(ReplayAnswer::Violates)
    }
}

/// Whether the property holds at the start. The error is want of memory.
fn holds_at_start(
    alloc: Global,
    system: &System,
    lasso: &Lasso,
    states: &[Structure],
) -> Result<bool, Memory>
    requires { 0 < length states.now }
    ensures { IfOk result (λ b. b ≡ get_or (row_of (map meaning states.now) (length lasso.now.stem) system.now.property []) 0 false) }
{
    let stem = lasso.stem.as_slice().len();
    let truths = row(alloc, &system.parts().property, states, stem, &[])?;
    Ok(first_of(truths.as_slice()))
}

/// The first of the values, and false where there is none.
fn first_of(values: &[bool]) -> bool
    ensures { result ≡ get_or values.now 0 false }
{
    match values.first() {
        Some(value) => *value,
        None => false,
    }
}

/// The states from that one on.
fn from(states: &[Structure], n: usize) -> &[Structure]
    requires { n ≤ length states.now }
    ensures { result.now ≡ drop n states.now }
{
    &states[n..]
}

/// How many states there are.
fn count(states: &[Structure]) -> u32
    requires { length states.now < 2 ^ 32 }
    ensures { result ≡ length states.now }
{
    states.len() as u32
}
