//! A structure against an obligation.
ghost use Rattle.std.specs.Prelude.{◌≡◌, ◌<◌, IfOk, [], length};
ghost use Rattle.lv_formula.specs.Truth.{truth_in};
ghost use Rattle.lv_struct.specs.Tables.{HasVocabulary, IsSound, meaning};
ghost use Rattle.lv_labels.specs.declared.which.Which.TheVariants as W;
ghost use Rattle.lv_labels.specs.Obligations.{InvariantsFit, obligations_of, vocabulary_of};
ghost use Rattle.lv_labels.specs.Obligations as obligations;
ghost use Rattle.lv_labels.specs.Problem.{problem_of};
ghost use Rattle.lv_labels.specs.Rows.{IsTableOf};
ghost use Rattle.lv_oblig.specs.Numbers.{AreNarrow, IsThere, obligation_at};
ghost use Rattle.lv_oblig.specs.Sentences.{conclusion_of};
ghost use Rattle.lv_check.specs.Answers.{IsChecked};
ghost use Rattle.lv_check.specs.Answers as answers;

use crate::evaluating::{first_false_of, is_true_with};
use crate::performing::monitored;
use lv_formula::{Formula, Memory, SortId};
use lv_labels::{LabelTable, Move, Which};
use lv_oblig::{sentences, which_obligation};
use lv_struct::Structure;
use lv_system::{Parts, System};
use std::alloc::Global;

/// What a check of a structure against an obligation comes to.
#[derive(Debug, Clone, Copy, PartialEq, Eq)]
pub enum Checked {
    /// Every hypothesis is true, and the conclusion is false.
    Breaks,
    /// The hypothesis with this number is the first that is false.
    HypothesisFails { number: u32 },
    /// Every hypothesis is true, and so is the conclusion.
    ConclusionHolds,
}

/// Whether the invariant with that number is true in the structure.
#[tactic(auto, using(lv_oblig::proofs::Made::invariant_there, lv_oblig::proofs::Made::invariant_past))]
fn invariant_holds(alloc: Global, parts: &Parts, i: u32, m: &Structure) -> Result<bool, Memory>
    ensures { IfOk result (λ holds. holds ≡ truth_in (meaning m.now) (obligations.invariant_at parts.now i) []) }
{
    let invariants = parts.invariants.as_slice();
    let i = i as usize;
    if i < invariants.len() {
        is_true_with(alloc, &invariants[i].formula, &[], m)
    } else {
        Ok(true)
    }
}

/// Whether the invariant with that number is true after the step.
fn holds_after(
    alloc: Global,
    system: &System,
    table: &LabelTable,
    action: u32,
    mv: Move,
    invariant: u32,
    m: &Structure,
) -> Result<bool, Memory>
    requires table { IsTableOf system.now table.now }
    requires narrow { AreNarrow system.now }
    requires invariants { InvariantsFit system.now }
    requires action { action < length system.now.actions }
    requires vocabulary { HasVocabulary (vocabulary_of (problem_of system.now) (W.Step action mv invariant)) m.now }
    requires sound { IsSound m.now }
    ensures { IfOk result (λ holds. holds ≡ answers.concludes (problem_of system.now) (W.Step action mv invariant) (meaning m.now)) }
{
    let after = monitored(alloc, system, table, action, mv, m)?;
    let parts = system.parts();
    invariant_holds(alloc, parts, invariant, &after)
}

/// Whether the conclusion of an obligation, which is this sentence, is true of the structure.
fn concludes(
    alloc: Global,
    system: &System,
    table: &LabelTable,
    which: Which,
    sentence: &Formula,
    m: &Structure,
) -> Result<bool, Memory>
    requires table { IsTableOf system.now table.now }
    requires narrow { AreNarrow system.now }
    requires invariants { InvariantsFit system.now }
    requires there { IsThere (problem_of system.now) which }
    requires sentence { sentence.now ≡ conclusion_of (problem_of system.now) which }
    requires vocabulary { HasVocabulary (vocabulary_of (problem_of system.now) which) m.now }
    requires sound { IsSound m.now }
    ensures { IfOk result (λ holds. holds ≡ answers.concludes (problem_of system.now) which (meaning m.now)) }
{
    match which {
        Which::Start { invariant: _ } => {
            let _parts = system.parts();
            is_true_with(alloc, sentence, &[], m)
        }
        Which::Step {
            action,
            mv,
            invariant,
        } => holds_after(alloc, system, table, action, mv, invariant, m),
        Which::Catch => Ok(false),
    }
}

/// What the structure says of the obligation with that number: the first hypothesis that is false in it, or else whether
/// the conclusion is false too. The conclusion of a step is read in the structure that the step makes. The error is want
/// of memory, also where there are more hypotheses, or more binders inside one another, than a `u32` counts.
///
/// The caller sees to it that the table is the system's, with at most four arguments for each label, that the invariants
/// stand over the words of the monitored structure, that the number is below `count`, and that the structure has the
/// obligation's vocabulary.
pub fn check(
    alloc: Global,
    system: &System,
    table: &LabelTable,
    i: u32,
    m: &Structure,
) -> Result<Checked, Memory>
    requires table { IsTableOf system.now table.now }
    requires narrow { AreNarrow system.now }
    requires invariants { InvariantsFit system.now }
    requires number { i < length (obligations_of system.now) }
    requires vocabulary { HasVocabulary (vocabulary_of (problem_of system.now) (obligation_at system.now i)) m.now }
    ensures { IfOk result (IsChecked system.now i (meaning m.now)) }
{
    // what holds of every structure
    let _size = m.size(SortId(0));
    let which = which_obligation(system, i);
    let s = sentences(alloc, system, table, i)?;
    if let Some(number) = first_false_of(alloc, s.hypotheses.as_slice(), m)? {
        return Ok(Checked::HypothesisFails { number });
    }
    if concludes(alloc, system, table, which, &s.conclusion, m)? {
        return Ok(Checked::ConclusionHolds);
    }
    let _parts = system.parts();
    Ok(Checked::Breaks)
}
