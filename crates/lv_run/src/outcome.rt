//! What becomes of a system's obligations, with its report.
ghost use Rattle.std.specs.Prelude.{◌≡◌, ◌<◌, true, IfOk};
ghost use Rattle.lv_grammar.specs.LabelLimits.{labels_keep_limits};
ghost use Rattle.lv_labels.specs.Rows.{IsTableOf};
ghost use Rattle.lv_prove.specs.Outcomes.{IsOutcome};
ghost use Rattle.lv_run.specs.Answers.{CanBeReported, detail_of, system_report};

use lv_formula::Memory;
use lv_labels::{LabelTable, labels_of};
use lv_prove::{Outcome, prove};
use lv_report::{countermodel, not_stratified, proved, spent, too_large};
use lv_system::System;
use lv_tree::List;
use std::alloc::Global;

/// What became of a system's obligations, and the report of it.
#[derive(Drop)]
pub(crate) struct Reported {
    pub(crate) outcome: Outcome,
    pub(crate) report: List<u8>,
}

/// The report of what became of the obligations of a system.
fn report(
    alloc: Global,
    system: &System,
    table: &LabelTable,
    outcome: &Outcome,
) -> Result<List<u8>, Memory>
    requires table { IsTableOf system.now table.now }
    requires can { CanBeReported system.now outcome.now }
    ensures { IfOk result (λ text. text ≡ system_report system.now (detail_of outcome.now)) }
{
    match outcome {
        Outcome::Proved { obligations } => proved(alloc, *obligations),
        Outcome::Counter { index, structure } => {
            countermodel(alloc, system, table, *index, structure)
        }
        Outcome::NotStratified { index, sorts } => {
            not_stratified(alloc, system, *index, sorts.as_slice())
        }
        Outcome::TooLarge { index } => too_large(alloc, system, *index),
        Outcome::Spent { index, log } => {
            spent(alloc, system, *index, log.as_slice().len() as u64)
        }
    }
}

/// Decides the obligations of a system. At each of them the solver learns at most `budget` clauses. The error is want of
/// memory.
#[tactic(auto, using(crate::proofs::AnswerLemmas::invariants_fit, crate::proofs::AnswerLemmas::labels_are_narrow, crate::proofs::AnswerLemmas::can_be_reported))]
pub(crate) fn prove_reported(
    alloc: Global,
    system: &System,
    budget: u32,
) -> Result<Reported, Memory>
    requires labels { labels_keep_limits system.now ≡ true }
    requires budget { 0 < budget }
    ensures outcome { IfOk result (λ r. IsOutcome system.now budget r.outcome) }
    ensures report { IfOk result (λ r. r.report ≡ system_report system.now (detail_of r.outcome)) }
{
    let table = labels_of(alloc, system)?;
    let outcome = prove(alloc, system, &table, budget)?;
    let report = report(alloc, system, &table, &outcome)?;
    Ok(Reported { outcome, report })
}
