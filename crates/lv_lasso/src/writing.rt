//! The text of a lasso.
ghost use Rattle.std.specs.Prelude.{◌≡◌, ◌<◌, ◌++◌, IfOk, OnOk, length, map, true};
ghost use Rattle.lv_tree.specs.Writing.{written};
ghost use Rattle.lv_struct.specs.Tables.{IsSound};
ghost use Rattle.lv_system.specs.Fits.{fits_parts};
ghost use Rattle.lv_system.specs.Step.{action_at};
ghost use Rattle.lv_replay.specs.Fits.{LassoFits};
ghost use Rattle.lv_lasso.specs.Lassos.{LassoCanBeShown, TextSpellsLasso};
ghost use Rattle.lv_lasso.specs.Shown.{shown_lasso, shown_step, shown_steps};

use crate::vocabulary::own_vocabulary;
use lv_formula::{Memory, SortId};
use lv_labels::labels_of;
use lv_replay::{Lasso, StepTaken};
use lv_show::structure_tree;
use lv_show::trees::{many, number};
use lv_struct::Structure;
use lv_system::{Parts, System};
use lv_tree::{List, Tree, write_tree};
use std::alloc::Global;

/// The name of the action with that number, no bytes where there is none.
fn action_name(parts: &Parts, action: u32) -> &[u8]
    ensures { result.now ≡ (action_at parts.now action).name }
{
    match parts.actions.as_slice().get(action as usize) {
        Some(action) => action.name.as_slice(),
        None => &[],
    }
}

/// A step as a list of its action and its elements. The error is want of memory.
fn step(alloc: Global, step: &StepTaken, parts: &Parts) -> Result<Tree, Memory>
    ensures { IfOk result (λ t. t ≡ shown_step parts.now step.now) }
{
    let mut items = Vec::new(alloc);
    for element in step.elements.as_slice() {
        items.push(number(alloc, *element)?)?;
    }
    many(alloc, action_name(parts, step.action), items)
}

/// Steps as a list with that word before them. The error is want of memory.
fn steps(alloc: Global, head: &[u8], taken: &[StepTaken], parts: &Parts) -> Result<Tree, Memory>
    ensures { IfOk result (λ t. t ≡ shown_steps parts.now head.now taken.now) }
{
    let mut items = Vec::new(alloc);
    for each in taken {
        items.push(step(alloc, each, parts)?)?;
    }
    many(alloc, head, items)
}

/// The structure in which the lasso starts. Takes no memory.
fn start(lasso: &Lasso) -> &Structure
    ensures value { result.now ≡ lasso.now.start }
    // what holds of every structure
    ensures sound { IsSound result.now }
{
    let start = &lasso.start;
    let _size = start.size(SortId(0));
    start
}

/// The lasso as a tree without places. The error is want of memory.
fn lasso_tree(alloc: Global, lasso: &Lasso, system: &System) -> Result<Tree, Memory>
    requires { LassoFits system.now lasso.now }
    ensures tree { IfOk result (λ t. t ≡ shown_lasso system.now lasso.now) }
    // what holds of every system and of every structure
    ensures fitting { fits_parts system.now ≡ true }
    ensures sound { IsSound lasso.now.start }
{
    let parts = system.parts();
    let first = start(lasso);
    let table = labels_of(alloc, system)?;
    let voc = own_vocabulary(alloc, system)?;
    let mut items = Vec::new(alloc);
    items.push(structure_tree(alloc, first, system, &table, &voc)?)?;
    items.push(steps(alloc, b"stem", lasso.stem.as_slice(), parts)?)?;
    items.push(steps(alloc, b"loop", lasso.turn.as_slice(), parts)?)?;
    many(alloc, b"lasso", items)
}

/// The text of a lasso on one line, which spells it. The error is want of memory.
///
/// The caller sees to it that the lasso fits the system, that no sort has more than 256 elements, and that stem and
/// loop have at most 256 steps each.
pub fn write_lasso(alloc: Global, lasso: &Lasso, system: &System) -> Result<List<u8>, Memory>
    requires { LassoCanBeShown system.now lasso.now }
    ensures line { IfOk result (λ bytes. bytes ≡ written (shown_lasso system.now lasso.now)) }
    ensures spells { IfOk result (λ bytes. TextSpellsLasso system.now bytes lasso.now) }
{
    let tree = lasso_tree(alloc, lasso, system)?;
    match write_tree(alloc, &tree) {
        Ok(text) => Ok(text),
        Err(_) => Err(Memory),
    }
}
