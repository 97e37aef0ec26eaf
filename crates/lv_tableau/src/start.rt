//! What is true at the start of a labelled run.
ghost use Rattle.std.specs.Prelude.{◌≡◌, ◌↔◌, IfOk, true, []};
ghost use Rattle.lv_formula.specs.Meaning.{Meaning};
ghost use Rattle.lv_formula.specs.Truth.{all_true_in};
ghost use Rattle.lv_labels.specs.Labels.{labels_of};
ghost use Rattle.lv_labels.specs.Problem.{problem_of};
ghost use Rattle.lv_labels.specs.Rows.{IsTableOf};
ghost use Rattle.lv_tableau.specs.Sentences.{IsDeniedStart, start_sentences_of};

use lv_formula::{Formula, List, Memory, not};
use lv_labels::{LabelTable, push_shared, reading};
use lv_system::System;
use std::alloc::Global;

/// The axioms, the initial conditions, and the reading of the negated property. The error is want of memory, also where
/// a variable's number would pass the greatest `u32`.
///
/// The caller sees to it that the table is the system's.
pub fn start_sentences(
    alloc: Global,
    system: &System,
    table: &LabelTable,
) -> Result<List<Formula>, Memory>
    requires table { IsTableOf system.now table.now }
    ensures list { IfOk result (λ all. all ≡ start_sentences_of (problem_of system.now)) }

    // They are true exactly where a structure can be that of the first position, the choice of witnesses aside.
    ensures truth { (m : Meaning) → IfOk result (λ all. (all_true_in m all [] ≡ true) ↔ IsDeniedStart (problem_of system.now) m) }
{
    denied_start(alloc, system, table)
}

fn denied_start(alloc: Global, system: &System, table: &LabelTable) -> Result<List<Formula>, Memory>
    requires keys { table.now.keys ≡ labels_of system.now }
    ensures { IfOk result (λ all. all ≡ start_sentences_of (problem_of system.now)) }
{
    let parts = system.parts();
    let property = reading(alloc, &parts.property, &[], table)?;
    let mut sentences = Vec::new(alloc);
    push_shared(alloc, parts.axioms.as_slice(), &mut sentences)?;
    push_shared(alloc, parts.inits.as_slice(), &mut sentences)?;
    sentences.push(not(alloc, property)?)?;
    Ok(List::from_vec(sentences))
}
