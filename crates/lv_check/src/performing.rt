//! A step performed on a structure.
ghost use Rattle.std.specs.Prelude.{◌≡◌, ◌<◌, IfOk, length, map};
ghost use Rattle.lv_formula.specs.Vocabulary.{IsSound};
ghost use Rattle.lv_struct.specs.Tables.{HasVocabulary, meaning};
ghost use Rattle.lv_system.specs.Step as step;
ghost use Rattle.lv_labels.specs.Monitor.{elements_in};
ghost use Rattle.lv_labels.specs.Problem.{problem_of};
ghost use Rattle.lv_labels.specs.Rows.{IsTableOf, condition_of};
ghost use Rattle.lv_labels.specs.Vocabularies.{step_vocabulary};
ghost use Rattle.lv_labels.specs.Vocabularies as words;
ghost use Rattle.lv_oblig.specs.Numbers.{AreNarrow};
ghost use Rattle.lv_check.specs.Performing.{IsMonitored};

use crate::after_step::AfterStep;
use crate::due::due_after;
use lv_exec::perform;
use lv_footprint::action_at;
use lv_formula::{List, Memory, SortId, Sym, Vocabulary};
use lv_labels::{Justice, LabelTable, Move, number};
use lv_monitor::catch_vocabulary;
use lv_struct::Structure;
use lv_system::{Action, System};
use lv_tableau::justice;
use std::alloc::Global;

/// The elements that the action's parameters are. The error is want of memory.
fn elements_of(alloc: Global, action: &Action, m: &Structure) -> Result<List<u32>, Memory>
    ensures { IfOk result (λ es. es ≡ elements_in (meaning m.now) action.now) }
{
    let mut elements = Vec::new(alloc);
    for (k, _sort) in action.params.as_slice().iter().enumerate() {
        elements.push(m.value(Sym::Param(number(k)?)))?;
    }
    Ok(List::from_vec(elements))
}

/// The action with that number.
fn action_of(system: &System, action: u32) -> &Action
    requires { action < length system.now.actions }
    ensures { result.now ≡ step.action_at system.now action }
{
    action_at(system.parts(), action)
}

/// The words of the monitored structure after a step. The error is want of memory.
fn words_after(
    alloc: Global,
    system: &System,
    table: &LabelTable,
    conditions: &[Justice],
) -> Result<Vocabulary, Memory>
    requires table { IsTableOf system.now table.now }
    requires narrow { AreNarrow system.now }
    requires justice { map condition_of conditions.now ≡ (problem_of system.now).justice }
    ensures value { IfOk result (λ voc. voc ≡ words.catch_vocabulary (problem_of system.now)) }
    ensures sound { IfOk result IsSound }
{
    catch_vocabulary(alloc, system.parts(), table, conditions)
}

/// The structure that a step of the monitored structure makes of this one: the action is performed with the elements that
/// its parameters are, labels take their next values, and what the monitor adds changes by the action and the move.
/// The error is want of memory.
///
/// The caller sees to it that the table is the system's, with at most four arguments for each label, that the number of
/// the action is in range, and that the structure has the vocabulary of the action's steps.
pub fn monitored(
    alloc: Global,
    system: &System,
    table: &LabelTable,
    action: u32,
    mv: Move,
    m: &Structure,
) -> Result<Structure, Memory>
    requires table { IsTableOf system.now table.now }
    requires narrow { AreNarrow system.now }
    requires action { action < length system.now.actions }
    requires vocabulary { HasVocabulary (step_vocabulary (problem_of system.now) (step.action_at system.now action)) m.now }
    ensures { IfOk result (IsMonitored system.now action mv m.now) }
{
    // what holds of every structure
    let _size = m.size(SortId(0));
    let conditions = justice(alloc, system, table)?;
    let voc = words_after(alloc, system, table, conditions.as_slice())?;
    let taken = action_of(system, action);
    let elements = elements_of(alloc, taken, m)?;
    let acted = perform(alloc, system, action, elements.as_slice(), m)?;
    let due = due_after(alloc, conditions.as_slice(), mv, m)?;
    let after = AfterStep {
        system,
        action: taken,
        mv,
        before: m,
        elements: elements.as_slice(),
        acted: &acted,
        due: due.as_slice(),
    };
    Structure::tabulate(alloc, &voc, &after)
}
