//! The obligations, in order.
ghost use Rattle.std.specs.Prelude.{◌≡◌, ◌<◌, IfOk, length};
ghost use Rattle.lv_labels.specs.Obligations.{InvariantsFit, obligations_of};
ghost use Rattle.lv_labels.specs.Rows.{IsTableOf};
ghost use Rattle.lv_oblig.specs.Numbers.{AreNarrow};
ghost use Rattle.lv_prove.specs.Outcomes.{HoldsIfProved, IsDecisionAt, IsInFragment, IsOutcome, IsSmallAt, IsStratifiedAt};

use crate::fragments::{Surveyed, survey};
use lv_cnf::Log;
use lv_decide::{Decision, decide};
use lv_formula::{List, Memory, SortId};
use lv_labels::LabelTable;
use lv_oblig::{count, sentences, vocabulary};
use lv_struct::Structure;
use lv_system::System;
use std::alloc::Global;

/// What becomes of the obligations of a system.
#[derive(Debug, Drop)]
pub enum Outcome {
    /// All are valid; there are so many.
    Proved { obligations: u32 },
    /// This obligation is the first that isn't valid, and the structure breaks it. The structure has the obligation's
    /// vocabulary, and at most 256 elements in each sort.
    Counter { index: u32, structure: Structure },
    /// This obligation is the first whose sort graph has a cycle, and this is one.
    NotStratified { index: u32, sorts: List<SortId> },
    /// No sort graph has a cycle, and this obligation is the first whose size is above 4,000,000.
    TooLarge { index: u32 },
    /// Those before this obligation are valid. At this one the solver learned these clauses, as many as its budget allows.
    Spent { index: u32, log: Log },
}

/// What becomes of the obligation with that number.
fn decide_at(
    alloc: Global,
    system: &System,
    table: &LabelTable,
    i: u32,
    budget: u32,
) -> Result<Decision, Memory>
    requires number { i < length (obligations_of system.now) }
    requires table { IsTableOf system.now table.now }
    requires narrow { AreNarrow system.now }
    requires invariants { InvariantsFit system.now }
    requires stratified { IsStratifiedAt system.now i }
    requires small { IsSmallAt system.now i }
    requires budget { 0 < budget }
    ensures { IfOk result (IsDecisionAt system.now i budget) }
{
    let voc = vocabulary(alloc, system, table, i)?;
    let s = sentences(alloc, system, table, i)?;
    decide(alloc, &voc, &s, budget)
}

/// What becomes of obligations that are all decided.
fn decide_all(
    alloc: Global,
    system: &System,
    table: &LabelTable,
    budget: u32,
) -> Result<Outcome, Memory>
    requires table { IsTableOf system.now table.now }
    requires narrow { AreNarrow system.now }
    requires invariants { InvariantsFit system.now }
    requires fragment { IsInFragment system.now }
    requires budget { 0 < budget }
    ensures outcome { IfOk result (IsOutcome system.now budget) }
    ensures holds { IfOk result (HoldsIfProved system.now) }
{
    let obligations = count(system);
    for index in 0..obligations {
        match decide_at(alloc, system, table, index, budget)? {
            Decision::Valid => (),
            Decision::Breaks(structure) => return Ok(Outcome::Counter { index, structure }),
            Decision::Spent(log) => return Ok(Outcome::Spent { index, log }),
        }
    }
    let _parts = system.parts();
    Ok(Outcome::Proved { obligations })
}

/// Whether all obligations of a system are valid. They are surveyed first, and then decided in order, up to the first that
/// isn't valid or at which the solver has learned `budget` clauses. The error is want of memory.
///
/// The caller sees to it that the table is the system's, with at most four arguments for each label, that the invariants
/// stand over the words of the monitored structure, and that the budget is at least 1.
pub fn prove(
    alloc: Global,
    system: &System,
    table: &LabelTable,
    budget: u32,
) -> Result<Outcome, Memory>
    requires table { IsTableOf system.now table.now }
    requires narrow { AreNarrow system.now }
    requires invariants { InvariantsFit system.now }
    requires budget { 0 < budget }
    ensures outcome { IfOk result (IsOutcome system.now budget) }

    // Where all are valid, the system meets its property at all sizes.
    ensures holds { IfOk result (HoldsIfProved system.now) }
{
    match survey(alloc, system, table)? {
        Surveyed::Fits { largest: _ } => decide_all(alloc, system, table, budget),
        Surveyed::NotStratified { index, sorts } => Ok(Outcome::NotStratified { index, sorts }),
        Surveyed::TooLarge { index } => Ok(Outcome::TooLarge { index }),
    }
}
