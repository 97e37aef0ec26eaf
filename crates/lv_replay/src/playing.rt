ghost use Rattle.std.specs.Prelude.{◌≡◌, ◌<◌, ◌+◌, ◌^◌, ◌++◌, ◌↔◌, IfOk, IsTrue, Option, Some, None, length, map, reverse, true, take, drop};
ghost use Rattle.lv_formula.specs.Measures.{depth_of, depth_of_all};
ghost use Rattle.lv_struct.specs.Tables.{meaning, size_in};
ghost use Rattle.lv_formula.specs.Truth.{truth_in};
ghost use Rattle.lv_system.specs.Step.{action_at};
ghost use Rattle.lv_system.specs.Vocabularies.{own_vocabulary};
ghost use Rattle.lv_exec.specs.Symbols.{HasSymbols, SameSymbols};
ghost use Rattle.lv_replay.specs.Fits.{steps_fit};
ghost use Rattle.lv_replay.specs.Play.{IsWalked, is_guarded};

use crate::lasso::StepTaken;
use lv_eval::is_true;
use lv_exec::perform;
use lv_formula::{Formula, Memory};
use lv_struct::Structure;
use lv_system::{Action, Parts, System};
use std::alloc::Global;

/// The action with that number.
fn action_of(parts: &Parts, action: u32) -> &Action
    requires { action < length parts.now.actions }
    ensures { result.now ≡ action_at parts.now action }
{
    &parts.actions.as_slice()[action as usize]
}

/// The guard of the action.
#[tactic(auto, using(crate::proofs::PlayLaw::shallow_guard))]
fn guard_of(system: &System, action: u32) -> &Formula
    requires { action < length system.now.actions }
    ensures value { result.now ≡ (action_at system.now action).guard }
    ensures shallow { depth_of result.now < 2 ^ 32 }
{
    &action_of(system.parts(), action).guard
}

/// Whether the guard of the step's action is true. The error is want of memory.
fn is_guarded(
    alloc: Global,
    system: &System,
    step: &StepTaken,
    m: &Structure,
) -> Result<bool, Memory>
    requires { step.now.action < length system.now.actions }
    ensures { IfOk result (λ b. b ≡ is_guarded system.now (meaning m.now) step.now) }
{
    is_true(
        alloc,
        guard_of(system, step.action),
        step.elements.as_slice(),
        m,
    )
}

/// Takes the steps one after the other, and puts each structure in which a step was taken behind those of `states`.
/// The structure after the last step, and none where a guard is false: then no further step is taken. The error is want of memory.
#[tactic(auto, using(crate::proofs::PlayLaw::action_there, crate::proofs::PlayLaw::elements_there, crate::proofs::PlayLaw::kept_symbols, crate::proofs::PlayLaw::walk_begins, crate::proofs::PlayLaw::walk_on, crate::proofs::PlayLaw::walk_stops, crate::proofs::PlayLaw::walk_ends, crate::proofs::PlayLaw::next_fits))]
pub(crate) fn walk(
    alloc: Global,
    system: &System,
    steps: &[StepTaken],
    start: Structure,
    states: &mut Vec<Structure>,
) -> Result<Option<Structure>, Memory>
    requires symbols { HasSymbols (own_vocabulary system.now) start }
    requires steps { steps_fit system.now (size_in start) steps.now ≡ true }
    ensures walked { IfOk result (λ end. IsWalked system.now start steps.now states.old.items states.new.items end) }
{
    let mut m = start;
    for step in steps {
        if !is_guarded(alloc, system, step, &m)? {
            return Ok(None);
        }
        let next = perform(alloc, system, step.action, step.elements.as_slice(), &m)?;
        states.push(m)?;
        m = next;
    }
    Ok(Some(m))
}
