//! The obligations of a system, as they are shown.
ghost use Rattle.std.specs.Prelude.{◌≡◌};
ghost use Rattle.lv_labels.specs.Rows.{IsTableOf};

use crate::sentences::{push_shown, shown};
use anyhow::{Context, Result, ensure};
use lv_formula::{Sentences, Vocabulary};
use lv_labels::{LabelTable, Move, Which, labels_of};
use lv_oblig::{count, sentences, vocabulary, which_obligation};
use lv_show::show_sym;
use lv_system::System;
use std::alloc::Global;

/// How many obligations there are, and their names.
pub fn obligations(alloc: Global, system: &System) -> Result<String> {
    let many = count(system);
    let mut line = format!(in alloc; "{many}")?;
    for i in 0..many {
        line.push_str(if i == 0 { " " } else { ", " })?;
        line.push_str(name(alloc, system, which_obligation(system, i))?.as_str())?;
    }
    Ok(line)
}

/// The hypotheses of an obligation and its conclusion.
pub fn obligation(alloc: Global, system: &System, number: &str) -> Result<String> {
    let i = number.parse::<u32>()?;
    ensure!(i < count(system), "no such obligation: {i}");
    let table = labels_of(alloc, system)?;
    let pair = sentences(alloc, system, &table, i)?;
    shown_pair(alloc, &pair, system, &table)
}

fn shown_pair(
    alloc: Global,
    pair: &Sentences,
    system: &System,
    table: &LabelTable,
) -> Result<String>
    requires { IsTableOf system.now table.now }
{
    let mut line = shown(alloc, pair.hypotheses.as_slice(), system, table)?;
    line.extend_from_slice(b" =>")?;
    push_shown(alloc, &mut line, &pair.conclusion, system, table, 0)?;
    Ok(String::from_utf8(line)?)
}

/// The words of an obligation's vocabulary, in their order.
pub fn words(alloc: Global, system: &System, number: &str) -> Result<String> {
    let i = number.parse::<u32>()?;
    ensure!(i < count(system), "no such obligation: {i}");
    let table = labels_of(alloc, system)?;
    let vocabulary = vocabulary(alloc, system, &table, i)?;
    shown_words(alloc, &vocabulary, system, &table)
}

fn shown_words(
    alloc: Global,
    vocabulary: &Vocabulary,
    system: &System,
    table: &LabelTable,
) -> Result<String>
    requires { IsTableOf system.now table.now }
{
    let mut line = Vec::new(alloc);
    for sym in vocabulary.order.as_slice() {
        if !line.is_empty() {
            line.push(b' ')?;
        }
        line.extend_from_slice(show_sym(alloc, *sym, system, table)?.as_slice())?;
    }
    Ok(String::from_utf8(line)?)
}

fn name(alloc: Global, system: &System, which: Which) -> Result<String> {
    match which {
        Which::Start { invariant } => {
            let invariant = invariant_name(alloc, system, invariant)?;
            Ok(format!(in alloc; "start {invariant}")?)
        }
        Which::Step {
            action,
            mv,
            invariant,
        } => {
            let action = action_name(alloc, system, action)?;
            let invariant = invariant_name(alloc, system, invariant)?;
            Ok(format!(in alloc; "step {action} {} {invariant}", move_name(mv))?)
        }
        Which::Catch => Ok(String::from_str(alloc, "catch")?),
    }
}

fn invariant_name(alloc: Global, system: &System, number: u32) -> Result<String> {
    let invariants = system.parts().invariants.as_slice();
    let invariant = invariants
        .get(number as usize)
        .context("no such invariant")?;
    text(alloc, invariant.name.as_slice())
}

fn action_name(alloc: Global, system: &System, number: u32) -> Result<String> {
    let actions = system.parts().actions.as_slice();
    let action = actions.get(number as usize).context("no such action")?;
    text(alloc, action.name.as_slice())
}

fn text(alloc: Global, bytes: &[u8]) -> Result<String> {
    let mut copy = Vec::new(alloc);
    copy.extend_from_slice(bytes)?;
    Ok(String::from_utf8(copy)?)
}

fn move_name(mv: Move) -> &'static str {
    match mv {
        Move::Stay => "stay",
        Move::Freeze => "freeze",
        Move::Save => "save",
    }
}
