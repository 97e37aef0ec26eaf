//! The opening and the moves as updates.
ghost use Rattle.std.specs.Prelude.{◌≡◌, ◌<◌, ◌++◌, IfOk, OnOk, cond, length, map};
ghost use Rattle.lv_system.specs.Step as step;
ghost use Rattle.lv_labels.specs.Problem.{problem_of};
ghost use Rattle.lv_labels.specs.Rows.{IsTableOf, condition_of};
ghost use Rattle.lv_labels.specs.Monitor as monitor;
ghost use Rattle.lv_monitor.specs.Updates as updates;

use crate::bodies::{
    argument_sorts, condition, itself, member, push_first, push_members, with_params,
};
use crate::naming::ElementSet;
use crate::shapes::{catch_constants, catch_relations};
use lv_footprint::{action_at, first_touched, param_term, touched_after_action};
use lv_formula::{ConShape, Formula, List, Memory, RelShape, SortId, Sym, Term, Update, and, not};
use lv_labels::{Justice, LabelTable, Move, copied, number};
use lv_system::{Action, ActionUpdate, Parts, System};
use std::alloc::Global;

/// What the monitor's words become at the start. The error is want of memory.
pub fn start_updates(
    alloc: Global,
    system: &System,
    table: &LabelTable,
    justice: &[Justice],
) -> Result<List<Update>, Memory>
    requires table { IsTableOf system.now table.now }
    requires justice { map condition_of justice.now ≡ (problem_of system.now).justice }
    ensures { IfOk result (λ us. us ≡ updates.start_updates_of (problem_of system.now)) }
{
    let parts = system.parts();
    let relations = catch_relations(alloc, parts, table, justice)?;
    let constants = catch_constants(alloc, parts)?;
    let mut start = Vec::new(alloc);
    push_start(alloc, parts, relations.as_slice(), &mut start)?;
    push_copies(constants.as_slice(), &mut start)?;
    Ok(List::from_vec(start))
}

fn push_start(
    alloc: Global,
    parts: &Parts,
    relations: &[RelShape],
    start: &mut Vec<Update>,
) -> Result<(), Memory>
    ensures { OnOk result (start.new.items ≡ start.old.items ++ updates.updates_of updates.is_added (updates.start_body parts.now) relations.now) }
{
    for relation in relations {
        if is_added(relation.sym) {
            start.push(Update::Relation {
                sym: relation.sym,
                sorts: copied(alloc, relation.sorts.as_slice())?,
                body: start_body(alloc, parts, relation.sym, relation.sorts.as_slice())?,
            })?;
        }
    }
    Ok(())
}

/// Whether the monitor adds the word to a structure.
fn is_added(sym: Sym) -> bool
    ensures { result ≡ updates.is_added sym }
{
    match sym {
        Sym::Own(_) | Sym::Witness(_) | Sym::Label(_) | Sym::Next(_) | Sym::Param(_) => false,
        Sym::Frozen
        | Sym::Saved
        | Sym::Touched(_)
        | Sym::Kept(_)
        | Sym::Due(_)
        | Sym::Copy(_)
        | Sym::CopyLabel(_) => true,
    }
}

fn start_body(alloc: Global, parts: &Parts, sym: Sym, sorts: &[SortId]) -> Result<Formula, Memory>
    ensures { IfOk result (λ f. f ≡ updates.start_body parts.now sym sorts.now) }
{
    match sym {
        Sym::Touched(sort) => first_touched(alloc, parts, sort, Term::Var(0)),
        Sym::Due(_) => {
            let mut places = Vec::new(alloc);
            push_first(alloc, parts, sorts, &mut places)?;
            and(alloc, places.as_slice())
        }
        Sym::Copy(n) => itself(alloc, Sym::Own(n), sorts),
        Sym::CopyLabel(n) => itself(alloc, Sym::Label(n), sorts),
        Sym::Own(_)
        | Sym::Witness(_)
        | Sym::Label(_)
        | Sym::Frozen
        | Sym::Saved
        | Sym::Kept(_)
        | Sym::Next(_)
        | Sym::Param(_) => Ok(Formula::False),
    }
}

/// Each copy of a constant becomes the constant.
fn push_copies(constants: &[ConShape], copies: &mut Vec<Update>) -> Result<(), Memory>
    ensures { OnOk result (copies.new.items ≡ copies.old.items ++ updates.copies_of constants.now) }
{
    for constant in constants {
        if let Sym::Copy(n) = constant.sym {
            copies.push(Update::Constant {
                sym: Sym::Copy(n),
                term: Term::Const(Sym::Own(n)),
            })?;
        }
    }
    Ok(())
}

/// What the monitor's words and the labels become in a step of the action with the move. The error is want of memory.
pub fn move_updates(
    alloc: Global,
    mv: Move,
    system: &System,
    action: u32,
    table: &LabelTable,
    justice: &[Justice],
) -> Result<List<Update>, Memory>
    requires action { action < length system.now.actions }
    requires table { IsTableOf system.now table.now }
    requires justice { map condition_of justice.now ≡ (problem_of system.now).justice }
    ensures { IfOk result (λ us. us ≡ updates.move_updates_of (problem_of system.now) (step.action_at system.now action) mv) }
{
    let parts = system.parts();
    moves_of(alloc, mv, parts, action_at(parts, action), table, justice)
}

fn moves_of(
    alloc: Global,
    mv: Move,
    parts: &Parts,
    action: &Action,
    table: &LabelTable,
    justice: &[Justice],
) -> Result<List<Update>, Memory>
    requires table { IsTableOf parts.now table.now }
    requires justice { map condition_of justice.now ≡ (problem_of parts.now).justice }
    ensures { IfOk result (λ us. us ≡ updates.move_updates_of (problem_of parts.now) action.now mv) }
{
    let mut moved = Vec::new(alloc);
    push_moves(alloc, mv, parts, action, table, justice, &mut moved)?;
    Ok(List::from_vec(moved))
}

fn push_moves(
    alloc: Global,
    mv: Move,
    parts: &Parts,
    action: &Action,
    table: &LabelTable,
    justice: &[Justice],
    moved: &mut Vec<Update>,
) -> Result<(), Memory>
    requires table { IsTableOf parts.now table.now }
    requires justice { map condition_of justice.now ≡ (problem_of parts.now).justice }
    ensures { OnOk result (moved.new.items ≡ moved.old.items ++ updates.move_updates_of (problem_of parts.now) action.now mv) }
{
    let relations = catch_relations(alloc, parts, table, justice)?;
    let constants = catch_constants(alloc, parts)?;
    push_changes(
        alloc,
        mv,
        parts,
        action,
        justice,
        relations.as_slice(),
        moved,
    )?;
    if is_save(mv) {
        push_copies(constants.as_slice(), moved)?;
    }
    Ok(())
}

fn push_changes(
    alloc: Global,
    mv: Move,
    parts: &Parts,
    action: &Action,
    justice: &[Justice],
    relations: &[RelShape],
    moved: &mut Vec<Update>,
) -> Result<(), Memory>
    requires { map condition_of justice.now ≡ (problem_of parts.now).justice }
    ensures { OnOk result (moved.new.items ≡ moved.old.items ++ updates.updates_of (updates.is_changed mv) (updates.move_body (problem_of parts.now) action.now mv) relations.now) }
{
    for relation in relations {
        if is_changed(mv, relation.sym) {
            let sorts = relation.sorts.as_slice();
            moved.push(Update::Relation {
                sym: relation.sym,
                sorts: copied(alloc, sorts)?,
                body: move_body(alloc, mv, parts, action, justice, relation.sym, sorts)?,
            })?;
        }
    }
    Ok(())
}

fn is_freeze(mv: Move) -> bool
    ensures { result ≡ monitor.is_freeze mv }
{
    match mv {
        Move::Freeze => true,
        Move::Stay | Move::Save => false,
    }
}

fn is_save(mv: Move) -> bool
    ensures { result ≡ monitor.is_save mv }
{
    match mv {
        Move::Save => true,
        Move::Stay | Move::Freeze => false,
    }
}

/// Whether the word, which is no own symbol, changes in a step with the move.
fn is_changed(mv: Move, sym: Sym) -> bool
    ensures { result ≡ updates.is_changed mv sym }
{
    match sym {
        Sym::Own(_) | Sym::Witness(_) | Sym::Next(_) | Sym::Param(_) => false,
        Sym::Label(_) | Sym::Touched(_) | Sym::Due(_) => true,
        Sym::Frozen | Sym::Kept(_) => is_freeze(mv),
        Sym::Saved | Sym::Copy(_) | Sym::CopyLabel(_) => is_save(mv),
    }
}

fn move_body(
    alloc: Global,
    mv: Move,
    parts: &Parts,
    action: &Action,
    justice: &[Justice],
    sym: Sym,
    sorts: &[SortId],
) -> Result<Formula, Memory>
    requires { map condition_of justice.now ≡ (problem_of parts.now).justice }
    ensures { IfOk result (λ f. f ≡ updates.move_body (problem_of parts.now) action.now mv sym sorts.now) }
{
    match sym {
        Sym::Label(n) => itself(alloc, Sym::Next(n), sorts),
        Sym::Frozen | Sym::Saved => Ok(Formula::True),
        Sym::Touched(sort) => touched_after_action(alloc, parts, action, sort),
        Sym::Kept(sort) => member(alloc, ElementSet::Touched, sort, Term::Var(0)),
        Sym::Due(n) => {
            let mut due = Vec::new(alloc);
            push_due_then(alloc, mv, n, sorts, &mut due)?;
            due.push(not(alloc, condition(alloc, justice, n)?)?)?;
            and(alloc, due.as_slice())
        }
        Sym::Copy(n) => itself(alloc, Sym::Own(n), sorts),
        Sym::CopyLabel(n) => itself(alloc, Sym::Label(n), sorts),
        Sym::Own(_) | Sym::Witness(_) | Sym::Next(_) | Sym::Param(_) => Ok(Formula::False),
    }
}

/// What is due after the move: what was, or all tuples over the touched elements.
fn push_due_then(
    alloc: Global,
    mv: Move,
    n: u32,
    sorts: &[SortId],
    due: &mut Vec<Formula>,
) -> Result<(), Memory>
    ensures { OnOk result (due.new.items ≡ due.old.items ++ updates.due_then mv n sorts.now) }
{
    if is_freeze(mv) || is_save(mv) {
        return push_members(alloc, ElementSet::Touched, sorts, due);
    }
    due.push(itself(alloc, Sym::Due(n), sorts)?)?;
    Ok(())
}

/// What the own symbols become by the action, then what the monitor's words and the labels become. The error is want
/// of memory, also where a variable's number would pass the greatest `u32`.
pub fn step_updates(
    alloc: Global,
    mv: Move,
    parts: &Parts,
    action: &Action,
    table: &LabelTable,
    justice: &[Justice],
) -> Result<List<Update>, Memory>
    requires table { IsTableOf parts.now table.now }
    requires justice { map condition_of justice.now ≡ (problem_of parts.now).justice }
    ensures { IfOk result (λ us. us ≡ updates.step_updates_of (problem_of parts.now) action.now mv) }
{
    let mut all = Vec::new(alloc);
    push_own(alloc, parts, action, action.updates.as_slice(), &mut all)?;
    push_moves(alloc, mv, parts, action, table, justice, &mut all)?;
    Ok(List::from_vec(all))
}

fn push_own(
    alloc: Global,
    parts: &Parts,
    action: &Action,
    set: &[ActionUpdate],
    all: &mut Vec<Update>,
) -> Result<(), Memory>
    ensures { OnOk result (all.new.items ≡ all.old.items ++ updates.own_updates parts.now action.now set.now) }
{
    for update in set {
        all.push(own_update(alloc, parts, action, update)?)?;
    }
    Ok(())
}

fn own_update(
    alloc: Global,
    parts: &Parts,
    action: &Action,
    update: &ActionUpdate,
) -> Result<Update, Memory>
    ensures { IfOk result (λ u. u ≡ updates.own_update parts.now action.now update.now) }
{
    match update {
        ActionUpdate::Relation { symbol, body } => {
            let sorts = argument_sorts(parts, *symbol);
            Ok(Update::Relation {
                sym: Sym::Own(*symbol),
                sorts: copied(alloc, sorts)?,
                body: with_params(alloc, action, sorts, body)?,
            })
        }
        ActionUpdate::Constant { symbol, term } => {
            let params = number(action.params.as_slice().len())?;
            Ok(Update::Constant {
                sym: Sym::Own(*symbol),
                term: param_term(params, term),
            })
        }
    }
}
