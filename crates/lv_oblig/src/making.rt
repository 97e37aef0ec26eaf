//! Each obligation as hypotheses and a conclusion.
ghost use Rattle.std.specs.Prelude.{◌≡◌, ◌<◌, ◌∷◌, ◌++◌, IfOk, OnOk, length, map};
ghost use Rattle.lv_formula.specs.Pairs.{SentencesFit};
ghost use Rattle.lv_rewrite.specs.Replace.{replace_of};
ghost use Rattle.lv_labels.specs.Problem.{problem_of};
ghost use Rattle.lv_labels.specs.Rows.{IsTableOf, condition_of};
ghost use Rattle.lv_tableau.specs.Sentences.{equations_of, start_sentences_of};
ghost use Rattle.lv_monitor.specs.Conditions.{move_condition_of};
ghost use Rattle.lv_prophecy.specs.Witnesses.{choice_sentences};
ghost use Rattle.lv_labels.specs.declared.which.Which.TheVariants as W;
ghost use Rattle.lv_labels.specs.Obligations.{InvariantsFit, formula_of, obligations_of, vocabulary_of};
ghost use Rattle.lv_labels.specs.Obligations as obligations;
ghost use Rattle.lv_oblig.specs.Numbers.{IsThere, obligation_at};
ghost use Rattle.lv_oblig.specs.Sentences.{AreTrueTo, conclusion_of, sentences_of, step_sentences};
ghost use Rattle.lv_oblig.specs.Sentences as spoken;

use crate::numbering::which_obligation;
use lv_after::after;
use lv_footprint::action_at;
use lv_formula::{Formula, List, Memory, Sentences, Sym, Update};
use lv_labels::{Justice, LabelTable, Move, Which, push_shared};
use lv_monitor::{
    compare_sentences, mark_set, push_move_condition, push_none_due, start_updates, step_updates,
    with_params,
};
use lv_prophecy::witness_sentences;
use lv_system::{Action, Invariant, Parts, System};
use lv_tableau::{equations, justice, start_sentences};
use std::alloc::Global;

/// The hypotheses and the conclusion of the obligation with that number. The error is want of memory, also where a
/// variable's number would pass the greatest `u32`.
///
/// The caller sees to it that the table is the system's, and the number below `count`.
pub fn sentences(
    alloc: Global,
    system: &System,
    table: &LabelTable,
    i: u32,
) -> Result<Sentences, Memory>
    requires table { IsTableOf system.now table.now }
    requires number { i < length (obligations_of system.now) }
    ensures list { IfOk result (λ s. s ≡ sentences_of (problem_of system.now) (obligation_at system.now i)) }

    // A structure of the obligation's vocabulary makes the hypotheses true and the conclusion false exactly where it
    // breaks the obligation, if the invariants stand over the words of the monitored structure.
    ensures truth { InvariantsFit system.now → IfOk result (AreTrueTo (problem_of system.now) (obligation_at system.now i)) }

    // Hypotheses and conclusion are then closed formulas over that vocabulary.
    ensures fit { InvariantsFit system.now → IfOk result (SentencesFit (vocabulary_of (problem_of system.now) (obligation_at system.now i))) }
{
    sentences_for(alloc, system, table, which_obligation(system, i))
}

fn sentences_for(
    alloc: Global,
    system: &System,
    table: &LabelTable,
    which: Which,
) -> Result<Sentences, Memory>
    requires table { IsTableOf system.now table.now }
    requires there { IsThere (problem_of system.now) which }
    ensures list { IfOk result (λ s. s ≡ sentences_of (problem_of system.now) which) }
    ensures truth { InvariantsFit system.now → IfOk result (AreTrueTo (problem_of system.now) which) }
    ensures fit { InvariantsFit system.now → IfOk result (SentencesFit (vocabulary_of (problem_of system.now) which)) }
{
    let _parts = system.parts();
    made(alloc, system, table, which)
}

fn made(
    alloc: Global,
    system: &System,
    table: &LabelTable,
    which: Which,
) -> Result<Sentences, Memory>
    requires table { IsTableOf system.now table.now }
    requires there { IsThere (problem_of system.now) which }
    ensures { IfOk result (λ s. s ≡ sentences_of (problem_of system.now) which) }
{
    let conditions = justice(alloc, system, table)?;
    let conditions = conditions.as_slice();
    match which {
        Which::Start { invariant } => start(alloc, system, table, conditions, invariant),
        Which::Step {
            action,
            mv,
            invariant,
        } => numbered_step(alloc, system, table, conditions, action, mv, invariant),
        Which::Catch => catch(alloc, system, table, conditions),
    }
}

fn start(
    alloc: Global,
    system: &System,
    table: &LabelTable,
    conditions: &[Justice],
    invariant: u32,
) -> Result<Sentences, Memory>
    requires table { IsTableOf system.now table.now }
    requires justice { map condition_of conditions.now ≡ (problem_of system.now).justice }
    ensures { IfOk result (λ s. s ≡ sentences_of (problem_of system.now) (W.Start invariant)) }
{
    Ok(Sentences {
        hypotheses: start_hypotheses(alloc, system, table)?,
        conclusion: start_conclusion(alloc, system, table, conditions, invariant)?,
    })
}

fn start_hypotheses(
    alloc: Global,
    system: &System,
    table: &LabelTable,
) -> Result<List<Formula>, Memory>
    requires table { IsTableOf system.now table.now }
    ensures { IfOk result (λ fs. fs ≡ start_sentences_of (problem_of system.now) ++ choice_sentences (problem_of system.now).choices) }
{
    let start = start_sentences(alloc, system, table)?;
    let witnesses = witness_sentences(alloc, system, table)?;
    let mut hypotheses = Vec::new(alloc);
    push_shared(alloc, start.as_slice(), &mut hypotheses)?;
    push_shared(alloc, witnesses.as_slice(), &mut hypotheses)?;
    Ok(List::from_vec(hypotheses))
}

fn start_conclusion(
    alloc: Global,
    system: &System,
    table: &LabelTable,
    conditions: &[Justice],
    invariant: u32,
) -> Result<Formula, Memory>
    requires table { IsTableOf system.now table.now }
    requires justice { map condition_of conditions.now ≡ (problem_of system.now).justice }
    ensures { IfOk result (λ f. f ≡ conclusion_of (problem_of system.now) (W.Start invariant)) }
{
    let updates = start_updates(alloc, system, table, conditions)?;
    invariant_after(alloc, system, invariant, updates.as_slice())
}

/// What has to hold before the updates so that the invariant holds after them.
fn invariant_after(
    alloc: Global,
    system: &System,
    invariant: u32,
    updates: &[Update],
) -> Result<Formula, Memory>
    ensures { IfOk result (λ f. f ≡ replace_of updates.now (obligations.invariant_at system.now invariant)) }
{
    let parts = system.parts();
    invariant_of_parts_after(alloc, parts, invariant, updates)
}

fn invariant_of_parts_after(
    alloc: Global,
    parts: &Parts,
    invariant: u32,
    updates: &[Update],
) -> Result<Formula, Memory>
    ensures { IfOk result (λ f. f ≡ replace_of updates.now (obligations.invariant_at parts.now invariant)) }
{
    let formula = invariant_at(alloc, parts, invariant)?;
    Ok(after(alloc, &formula, updates)?)
}

fn numbered_step(
    alloc: Global,
    system: &System,
    table: &LabelTable,
    conditions: &[Justice],
    action: u32,
    mv: Move,
    invariant: u32,
) -> Result<Sentences, Memory>
    requires action { action < length system.now.actions }
    requires table { IsTableOf system.now table.now }
    requires justice { map condition_of conditions.now ≡ (problem_of system.now).justice }
    ensures { IfOk result (λ s. s ≡ sentences_of (problem_of system.now) (W.Step action mv invariant)) }
{
    let parts = system.parts();
    step(
        alloc,
        parts,
        table,
        conditions,
        action_at(parts, action),
        mv,
        invariant,
    )
}

fn step(
    alloc: Global,
    parts: &Parts,
    table: &LabelTable,
    conditions: &[Justice],
    action: &Action,
    mv: Move,
    invariant: u32,
) -> Result<Sentences, Memory>
    requires table { IsTableOf parts.now table.now }
    requires justice { map condition_of conditions.now ≡ (problem_of parts.now).justice }
    ensures { IfOk result (λ s. s ≡ step_sentences (problem_of parts.now) action.now mv invariant) }
{
    let updates = step_updates(alloc, mv, parts, action, table, conditions)?;
    let formula = invariant_at(alloc, parts, invariant)?;
    Ok(Sentences {
        hypotheses: step_hypotheses(alloc, parts, table, conditions, action, mv)?,
        conclusion: after(alloc, &formula, updates.as_slice())?,
    })
}

fn step_hypotheses(
    alloc: Global,
    parts: &Parts,
    table: &LabelTable,
    conditions: &[Justice],
    action: &Action,
    mv: Move,
) -> Result<List<Formula>, Memory>
    requires table { IsTableOf parts.now table.now }
    requires justice { map condition_of conditions.now ≡ (problem_of parts.now).justice }
    ensures { IfOk result (λ fs. fs ≡ spoken.step_hypotheses (problem_of parts.now) action.now mv) }
{
    let mut hypotheses = Vec::new(alloc);
    push_shared(alloc, parts.axioms.as_slice(), &mut hypotheses)?;
    push_invariants(alloc, parts.invariants.as_slice(), &mut hypotheses)?;
    push_step(alloc, parts, table, conditions, action, mv, &mut hypotheses)?;
    Ok(List::from_vec(hypotheses))
}

/// Adds the guard, when the move is allowed, and the equations of the labels.
fn push_step(
    alloc: Global,
    parts: &Parts,
    table: &LabelTable,
    conditions: &[Justice],
    action: &Action,
    mv: Move,
    all: &mut Vec<Formula>,
) -> Result<(), Memory>
    requires table { IsTableOf parts.now table.now }
    requires justice { map condition_of conditions.now ≡ (problem_of parts.now).justice }
    ensures { OnOk result (all.new.items ≡ all.old.items ++ (spoken.guard_of action.now ∷ (move_condition_of (problem_of parts.now).justice mv ++ equations_of (problem_of parts.now).labels))) }
{
    all.push(guard(alloc, action)?)?;
    push_move_condition(alloc, mv, conditions, all)?;
    push_equations(alloc, parts, table, all)
}

#[tactic(auto, using(lv_monitor::proofs::WordsMade::rows_are_labels))]
fn push_equations(
    alloc: Global,
    parts: &Parts,
    table: &LabelTable,
    all: &mut Vec<Formula>,
) -> Result<(), Memory>
    requires { IsTableOf parts.now table.now }
    ensures { OnOk result (all.new.items ≡ all.old.items ++ equations_of (problem_of parts.now).labels) }
{
    let list = equations(alloc, table)?;
    push_shared(alloc, list.as_slice(), all)
}

/// The guard, with the words of the parameters.
fn guard(alloc: Global, action: &Action) -> Result<Formula, Memory>
    ensures { IfOk result (λ f. f ≡ spoken.guard_of action.now) }
{
    with_params(alloc, action, &[], &action.guard)
}

#[tactic(auto, using(crate::proofs::Made::catch_made))]
fn catch(
    alloc: Global,
    system: &System,
    table: &LabelTable,
    conditions: &[Justice],
) -> Result<Sentences, Memory>
    requires table { IsTableOf system.now table.now }
    requires justice { map condition_of conditions.now ≡ (problem_of system.now).justice }
    ensures { IfOk result (λ s. s ≡ sentences_of (problem_of system.now) W.Catch) }
{
    let parts = system.parts();
    let mut hypotheses = Vec::new(alloc);
    push_shared(alloc, parts.axioms.as_slice(), &mut hypotheses)?;
    push_invariants(alloc, parts.invariants.as_slice(), &mut hypotheses)?;
    hypotheses.push(mark_set(alloc, Sym::Saved)?)?;
    push_none_due(alloc, conditions, &mut hypotheses)?;
    push_shared(
        alloc,
        compare_sentences(alloc, system, table)?.as_slice(),
        &mut hypotheses,
    )?;
    Ok(Sentences {
        hypotheses: List::from_vec(hypotheses),
        conclusion: Formula::False,
    })
}

fn push_invariants(
    alloc: Global,
    invariants: &[Invariant],
    all: &mut Vec<Formula>,
) -> Result<(), Memory>
    ensures { OnOk result (all.new.items ≡ all.old.items ++ map formula_of invariants.now) }
{
    for invariant in invariants {
        all.push(invariant.formula.share(alloc)?)?;
    }
    Ok(())
}

/// The formula of the invariant with that number.
#[tactic(auto, using(crate::proofs::Made::invariant_there, crate::proofs::Made::invariant_past))]
fn invariant_at(alloc: Global, parts: &Parts, i: u32) -> Result<Formula, Memory>
    ensures { IfOk result (λ f. f ≡ obligations.invariant_at parts.now i) }
{
    let invariants = parts.invariants.as_slice();
    let i = i as usize;
    if i < invariants.len() {
        invariants[i].formula.share(alloc)
    } else {
        Ok(Formula::True)
    }
}
