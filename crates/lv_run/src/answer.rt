//! The answer to a text, with what is written for it.
ghost use Rattle.std.specs.Prelude.{◌≡◌, ◌≤◌, ◌<◌, true, [], IfOk, length};
ghost use Rattle.lv_system.specs.declared.parts.Parts.{Parts};
ghost use Rattle.lv_grammar.specs.LabelLimits.{labels_keep_limits};
ghost use Rattle.lv_grammar.specs.Spelling.{Spells};
ghost use Rattle.lv_command.specs.Commands.{HasBudgetInRange};
ghost use Rattle.lv_run.specs.Answers.{IsAnswered, IsCheckAnswered, IsRefusal, IsReplayAnswered, IsSystemAnswer, detail_of};
ghost use Rattle.lv_run.specs.Calls.{told_of};
ghost use Rattle.lv_run.specs.ErrorTexts.{error_bytes};
ghost use Rattle.lv_run.specs.Requests.{IsReadyCheck, IsReadyReplay, check_seen, replay_seen};

use crate::detail::Detail;
use crate::outcome::{Reported, prove_reported};
use crate::reader::{Refusal, check_text, replay_text, system_text};
use crate::refusals::{syntax_refusal, tree_refusal};
use crate::requests::{CheckRequest, ReplayRequest};
use crate::verdicts::{checked, checked_report, replayed, replayed_report};
use lv_command::TextMode;
use lv_formula::Memory;
use lv_layout::show;
use lv_system::System;
use lv_tree::List;
use std::alloc::Global;

/// What is told on standard error. A text that stands in the program takes no memory.
#[derive(Drop)]
pub(crate) enum ErrorText {
    Fixed(&'static [u8]),
    Made(Vec<u8>),
}

impl ErrorText {
    pub(crate) fn as_slice(&self) -> &[u8]
        ensures { result.now ≡ error_bytes self.now }
    {
        match self {
            ErrorText::Fixed(text) => text,
            ErrorText::Made(text) => text.as_slice(),
        }
    }
}

/// An answer with its texts, before any of them is written.
#[derive(Drop)]
pub(crate) struct Composed {
    pub(crate) detail: Detail,
    pub(crate) out: List<u8>,
    pub(crate) err: ErrorText,
    ghost told: { error_bytes err ≡ told_of detail },
}

/// The text without a byte.
fn nothing(alloc: Global) -> List<u8>
    ensures { result ≡ [] }
{
    List::from_vec(Vec::new(alloc))
}

/// An answer that is told on standard error alone, in words that stand in the program.
pub(crate) fn told(alloc: Global, detail: Detail, err: &'static [u8]) -> Composed
    requires { err.now ≡ told_of detail }
    ensures detail { result.detail ≡ detail }
    ensures out { result.out ≡ [] }
{
    Composed {
        detail,
        out: nothing(alloc),
        err: ErrorText::Fixed(err),
    }
}

/// An answer with a report on standard output alone.
pub(crate) fn reported(detail: Detail, out: List<u8>) -> Composed
    requires { told_of detail ≡ [] }
    ensures detail { result.detail ≡ detail }
    ensures out { result.out ≡ out }
{
    Composed {
        detail,
        out,
        err: ErrorText::Fixed(b""),
    }
}

/// An answer with the report that was made of it.
fn reported_on(it: Reported) -> Composed
    ensures detail { result.detail ≡ detail_of it.outcome }
    ensures out { result.out ≡ it.report }
{
    reported(Detail::of(it.outcome), it.report)
}

/// The answer of `prove` to a system.
#[tactic(auto, using(crate::proofs::AnswerLemmas::outcome_answered))]
fn prove_system(alloc: Global, system: &System, budget: u32) -> Result<Composed, Memory>
    requires labels { labels_keep_limits system.now ≡ true }
    requires budget { 0 < budget }
    ensures { IfOk result (λ composed. IsSystemAnswer (TextMode.Prove budget) system.now composed.detail composed.out) }
{
    let reported = prove_reported(alloc, system, budget)?;
    Ok(reported_on(reported))
}

/// The answer of `show` to a system.
fn show_system(alloc: Global, system: &System) -> Result<Composed, Memory>
    ensures { IfOk result (λ composed. IsSystemAnswer TextMode.Show system.now composed.detail composed.out) }
{
    Ok(reported(Detail::Shown, show(alloc, system)?))
}

/// The answer to a check.
fn check_structure(alloc: Global, request: CheckRequest) -> Result<Composed, Memory>
    requires { IsReadyCheck request }
    ensures { IfOk result (λ composed. IsCheckAnswered (check_seen request) composed.detail composed.out) }
{
    let checked = checked(alloc, &request)?;
    Ok(reported(Detail::Checked(checked), checked_report(alloc, checked)?))
}

/// The answer to a replay.
fn replay_lasso(alloc: Global, request: ReplayRequest) -> Result<Composed, Memory>
    requires { IsReadyReplay request }
    ensures { IfOk result (λ composed. IsReplayAnswered (replay_seen request) composed.detail composed.out) }
{
    let answer = replayed(alloc, &request)?;
    let report = replayed_report(alloc, &request.system, answer)?;
    Ok(reported(Detail::Replayed(answer), report))
}

/// The answer to a text that spells nothing in its language.
fn refuse(alloc: Global, refusal: Refusal) -> Result<Composed, Memory>
    ensures { IfOk result (λ composed. IsRefusal refusal composed.detail composed.out) }
{
    let (detail, text) = match refusal {
        Refusal::Tree(fault) => {
            let text = tree_refusal(alloc, &fault)?;
            (Detail::TreeRefused(fault), text)
        }
        Refusal::Syntax(fault) => (Detail::SyntaxRefused(fault), syntax_refusal(alloc, fault)?),
        Refusal::Memory => return Err(Memory),
    };
    Ok(Composed {
        detail,
        out: nothing(alloc),
        err: ErrorText::Made(text),
    })
}

/// The answer of `prove` to a text of at most 1,048,576 bytes.
#[tactic(auto, using(crate::proofs::AnswerLemmas::keeps_limits))]
fn prove_text(alloc: Global, bytes: &[u8], budget: u32) -> Result<Composed, Memory>
    requires few { length bytes.now ≤ 1048576 }
    requires budget { 0 < budget }
    ensures { IfOk result (λ composed. IsAnswered (TextMode.Prove budget) bytes.now composed.detail composed.out) }
{
    match system_text(alloc, bytes) {
        Ok(system) => prove_system(alloc, &system, budget),
        Err(refusal) => refuse(alloc, refusal),
    }
}

/// The answer of `show` to a text of at most 1,048,576 bytes.
fn show_text(alloc: Global, bytes: &[u8]) -> Result<Composed, Memory>
    requires { length bytes.now ≤ 1048576 }
    ensures { IfOk result (λ composed. IsAnswered TextMode.Show bytes.now composed.detail composed.out) }
{
    match system_text(alloc, bytes) {
        Ok(system) => show_system(alloc, &system),
        Err(refusal) => refuse(alloc, refusal),
    }
}

/// The answer of `check` to a text of at most 1,048,576 bytes.
fn check_bytes(alloc: Global, bytes: &[u8]) -> Result<Composed, Memory>
    requires { length bytes.now ≤ 1048576 }
    ensures { IfOk result (λ composed. IsAnswered TextMode.Check bytes.now composed.detail composed.out) }
{
    match check_text(alloc, bytes) {
        Ok(request) => check_structure(alloc, request),
        Err(refusal) => refuse(alloc, refusal),
    }
}

/// The answer of `replay` to a text of at most 1,048,576 bytes.
fn replay_bytes(alloc: Global, bytes: &[u8]) -> Result<Composed, Memory>
    requires { length bytes.now ≤ 1048576 }
    ensures { IfOk result (λ composed. IsAnswered TextMode.Replay bytes.now composed.detail composed.out) }
{
    match replay_text(alloc, bytes) {
        Ok(request) => replay_lasso(alloc, request),
        Err(refusal) => refuse(alloc, refusal),
    }
}

/// The answer to a text of at most 1,048,576 bytes. The error is want of memory.
pub(crate) fn answer(alloc: Global, mode: TextMode, bytes: &[u8]) -> Result<Composed, Memory>
    requires few { length bytes.now ≤ 1048576 }
    requires range { HasBudgetInRange mode }
    ensures { IfOk result (λ composed. IsAnswered mode bytes.now composed.detail composed.out) }
{
    match mode {
        TextMode::Prove { budget } => prove_text(alloc, bytes, budget),
        TextMode::Show => show_text(alloc, bytes),
        TextMode::Check => check_bytes(alloc, bytes),
        TextMode::Replay => replay_bytes(alloc, bytes),
    }
}
