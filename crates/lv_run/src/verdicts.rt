//! What a check or a replay comes to, with its report.
ghost use Rattle.std.specs.Prelude.{◌≡◌, IfOk};
ghost use Rattle.lv_struct.specs.Tables.{meaning};
ghost use Rattle.lv_check.specs.Answers.{IsChecked};
ghost use Rattle.lv_replay.specs.Answers as replays;
ghost use Rattle.lv_run.specs.Answers.{checked_text, replayed_text};
ghost use Rattle.lv_run.specs.Requests.{IsReadyCheck, IsReadyReplay};

use crate::requests::{CheckRequest, ReplayRequest};
use lv_check::{Checked, check};
use lv_formula::Memory;
use lv_labels::labels_of;
use lv_lasso::{ReplayAnswer, replay};
use lv_report::{axiom_fails, guard_fails, hypothesis_fails, unfair};
use lv_system::System;
use lv_tree::List;
use std::alloc::Global;

/// A report that stands in the program.
fn fixed(alloc: Global, text: &[u8]) -> Result<List<u8>, Memory>
    ensures { IfOk result (λ report. report ≡ text.now) }
{
    Ok(List::from_vec(Vec::from_slice(alloc, text)?))
}

/// The report of a check.
pub(crate) fn checked_report(alloc: Global, checked: Checked) -> Result<List<u8>, Memory>
    ensures { IfOk result (λ report. report ≡ checked_text checked) }
{
    match checked {
        Checked::Breaks => fixed(alloc, b"breaks\n"),
        Checked::HypothesisFails { number } => hypothesis_fails(alloc, number),
        Checked::ConclusionHolds => fixed(alloc, b"conclusion holds\n"),
    }
}

/// The report of a replay.
pub(crate) fn replayed_report(
    alloc: Global,
    system: &System,
    answer: ReplayAnswer,
) -> Result<List<u8>, Memory>
    ensures { IfOk result (λ report. report ≡ replayed_text system.now answer) }
{
    match answer {
        ReplayAnswer::AxiomFails { number } => axiom_fails(alloc, number),
        ReplayAnswer::NotInit => fixed(alloc, b"not init\n"),
        ReplayAnswer::GuardFails { step } => guard_fails(alloc, step),
        ReplayAnswer::LoopOpen => fixed(alloc, b"loop open\n"),
        ReplayAnswer::Unfair { fair } => unfair(alloc, system, fair),
        ReplayAnswer::Satisfies => fixed(alloc, b"satisfies\n"),
        ReplayAnswer::Violates => fixed(alloc, b"violates\n"),
    }
}

/// What the check comes to. The error is want of memory.
#[tactic(auto, using(crate::proofs::AnswerLemmas::invariants_fit, crate::proofs::AnswerLemmas::labels_are_narrow))]
pub(crate) fn checked(alloc: Global, request: &CheckRequest) -> Result<Checked, Memory>
    requires { IsReadyCheck request.now }
    ensures { IfOk result (λ checked. IsChecked request.now.system request.now.index (meaning request.now.structure) checked) }
{
    let system = &request.system;
    let table = labels_of(alloc, system)?;
    check(alloc, system, &table, request.index, &request.structure)
}

/// What the replay comes to. The error is want of memory.
pub(crate) fn replayed(alloc: Global, request: &ReplayRequest) -> Result<ReplayAnswer, Memory>
    requires { IsReadyReplay request.now }
    ensures { IfOk result (λ answer. replays.IsAnswer request.now.system request.now.lasso answer) }
{
    replay(alloc, &request.system, &request.lasso)
}
