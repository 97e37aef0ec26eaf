//! The answer to a chain that is to be made.
ghost use Rattle.std.specs.Prelude.{◌≡◌, ◌≤◌, true, IfOk};
ghost use Rattle.lv_system.specs.declared.parts.Parts.{Parts};
ghost use Rattle.lv_grammar.specs.LabelLimits.{labels_keep_limits};
ghost use Rattle.lv_run.specs.Chains.{AreFigures, IsChainAnswered, IsMadeAnswered, answer_word, largest_told};

use crate::answer::{Composed, reported};
use crate::detail::Detail;
use lv_chain::make_system;
use lv_formula::Memory;
use lv_labels::labels_of;
use lv_oblig::count;
use lv_prove::{Outcome, Surveyed, prove, survey};
use lv_report::made;
use lv_system::System;
use std::alloc::Global;

/// The budget with which the obligations of a chain are decided.
const BUDGET: u32 = 100_000;

/// What is told of a chain.
#[derive(Drop)]
struct Figures {
    obligations: u32,
    largest: u64,
    answer: Outcome,
}

/// The largest size that a survey tells, and 0 where it tells none.
fn largest_told(surveyed: Surveyed) -> u64
    ensures { result ≡ largest_told surveyed }
{
    match surveyed {
        Surveyed::Fits { largest } => largest,
        _ => 0,
    }
}

/// The first word of the report on what became of a system's obligations.
fn answer_word(answer: &Outcome) -> &'static [u8]
    ensures { (p : Parts) → result.now ≡ answer_word p answer.now }
{
    match answer {
        Outcome::Proved { .. } => b"proved",
        Outcome::Counter { .. } => b"countermodel",
        Outcome::NotStratified { .. } => b"not",
        Outcome::TooLarge { .. } => b"too",
        Outcome::Spent { .. } => b"spent",
    }
}

/// What is told of a system.
#[tactic(auto, using(crate::proofs::AnswerLemmas::invariants_fit, crate::proofs::AnswerLemmas::labels_are_narrow))]
fn measured(alloc: Global, system: &System) -> Result<Figures, Memory>
    requires { labels_keep_limits system.now ≡ true }
    ensures { IfOk result (λ f. AreFigures system.now f.obligations f.largest f.answer) }
{
    let table = labels_of(alloc, system)?;
    let surveyed = survey(alloc, system, &table)?;
    let answer = prove(alloc, system, &table, BUDGET)?;
    Ok(Figures {
        obligations: count(system),
        largest: largest_told(surveyed),
        answer,
    })
}

/// The answer to a system that was made. The error is want of memory.
fn answer_made(alloc: Global, system: &System) -> Result<Composed, Memory>
    requires { labels_keep_limits system.now ≡ true }
    ensures { IfOk result (λ composed. IsMadeAnswered system.now composed.detail composed.out) }
{
    let told = measured(alloc, system)?;
    let word = answer_word(&told.answer);
    let report = made(alloc, system, told.obligations, told.largest, word)?;
    let detail = Detail::Made {
        obligations: told.obligations,
        largest: told.largest,
        answer: told.answer,
    };
    Ok(reported(detail, report))
}

/// The answer to a chain of so many places. The error is want of memory.
pub(crate) fn make_chain(alloc: Global, places: u32) -> Result<Composed, Memory>
    requires least { 2 ≤ places }
    requires most { places ≤ 16 }
    ensures { IfOk result (λ composed. IsChainAnswered places composed.detail composed.out) }
{
    let system = make_system(alloc, places)?;
    answer_made(alloc, &system)
}
