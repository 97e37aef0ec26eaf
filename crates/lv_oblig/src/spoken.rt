//! The vocabularies of obligations.
ghost use Rattle.std.specs.Prelude.{◌≡◌, ◌<◌, IfOk, length};
ghost use Rattle.lv_formula.specs.Vocabulary.{IsSound};
ghost use Rattle.lv_labels.specs.Problem.{problem_of};
ghost use Rattle.lv_labels.specs.Rows.{IsTableOf};
ghost use Rattle.lv_labels.specs.Vocabularies as vocabularies;
ghost use Rattle.lv_system.specs.Step as step;
ghost use Rattle.lv_labels.specs.declared.which.Which.TheVariants as W;
ghost use Rattle.lv_labels.specs.Obligations.{obligations_of, vocabulary_of};
ghost use Rattle.lv_oblig.specs.Numbers.{AreNarrow, IsThere, obligation_at};

use crate::numbering::which_obligation;
use lv_footprint::action_at;
use lv_formula::{Memory, Vocabulary};
use lv_labels::{LabelTable, Which};
use lv_monitor::{catch_vocabulary, state_vocabulary, step_vocabulary};
use lv_system::System;
use lv_tableau::justice;
use std::alloc::Global;

/// The vocabulary of the obligation with that number: the own symbols, the witnesses and the labels; for a step and the
/// catch also what the monitor adds; for a step also the action's parameters and the next value of each label. The error
/// is want of memory.
///
/// The caller sees to it that the table is the system's, and the number below `count`.
pub fn vocabulary(
    alloc: Global,
    system: &System,
    table: &LabelTable,
    i: u32,
) -> Result<Vocabulary, Memory>
    requires table { IsTableOf system.now table.now }
    requires number { i < length (obligations_of system.now) }
    ensures value { IfOk result (λ voc. voc ≡ vocabulary_of (problem_of system.now) (obligation_at system.now i)) }

    // No two of its symbols are the same, and its order has each once.
    ensures sound { AreNarrow system.now → IfOk result IsSound }
{
    vocabulary_for(alloc, system, table, which_obligation(system, i))
}

fn vocabulary_for(
    alloc: Global,
    system: &System,
    table: &LabelTable,
    which: Which,
) -> Result<Vocabulary, Memory>
    requires table { IsTableOf system.now table.now }
    requires there { IsThere (problem_of system.now) which }
    ensures value { IfOk result (λ voc. voc ≡ vocabulary_of (problem_of system.now) which) }
    ensures sound { AreNarrow system.now → IfOk result IsSound }
{
    let _parts = system.parts();
    words(alloc, system, table, which)
}

fn words(
    alloc: Global,
    system: &System,
    table: &LabelTable,
    which: Which,
) -> Result<Vocabulary, Memory>
    requires table { IsTableOf system.now table.now }
    requires there { IsThere (problem_of system.now) which }
    ensures { IfOk result (λ voc. voc ≡ vocabulary_of (problem_of system.now) which) }
{
    match which {
        Which::Start { invariant: _ } => start_words(alloc, system, table),
        Which::Step {
            action,
            mv: _,
            invariant: _,
        } => step_words(alloc, system, table, action),
        Which::Catch => catch_words(alloc, system, table),
    }
}

fn start_words(alloc: Global, system: &System, table: &LabelTable) -> Result<Vocabulary, Memory>
    requires { IsTableOf system.now table.now }
    ensures { IfOk result (λ voc. voc ≡ vocabulary_of (problem_of system.now) (W.Start 0)) }
{
    let parts = system.parts();
    state_vocabulary(alloc, parts, table)
}

fn catch_words(alloc: Global, system: &System, table: &LabelTable) -> Result<Vocabulary, Memory>
    requires { IsTableOf system.now table.now }
    ensures { IfOk result (λ voc. voc ≡ vocabularies.catch_vocabulary (problem_of system.now)) }
{
    let conditions = justice(alloc, system, table)?;
    let parts = system.parts();
    Ok(catch_vocabulary(alloc, parts, table, conditions.as_slice())?)
}

fn step_words(
    alloc: Global,
    system: &System,
    table: &LabelTable,
    action: u32,
) -> Result<Vocabulary, Memory>
    requires table { IsTableOf system.now table.now }
    requires action { action < length system.now.actions }
    ensures { IfOk result (λ voc. voc ≡ vocabularies.step_vocabulary (problem_of system.now) (step.action_at system.now action)) }
{
    let conditions = justice(alloc, system, table)?;
    let parts = system.parts();
    let action = action_at(parts, action);
    Ok(step_vocabulary(alloc, parts, table, conditions.as_slice(), action)?)
}
