//! The sentences that are made of a system, as they are shown.
ghost use Rattle.std.specs.Prelude.{◌≡◌};
ghost use Rattle.lv_labels.specs.Table.{table_labels};

use anyhow::{Result, bail};
use lv_formula::Formula;
use lv_labels::{Justice, LabelTable, labels_of, number};
use lv_prophecy::witness_sentences;
use lv_show::show_formula;
use lv_system::System;
use lv_tableau::{equations, justice, start_sentences};
use std::alloc::Global;

/// The sentences of a kind, one behind the other.
pub fn sentences(alloc: Global, kind: &str, system: &System) -> Result<String> {
    let table = labels_of(alloc, system)?;
    let line = match kind {
        "equations" => shown(alloc, equations(alloc, &table)?.as_slice(), system, &table)?,
        "start" => {
            let all = start_sentences(alloc, system, &table)?;
            shown(alloc, all.as_slice(), system, &table)?
        }
        "witnesses" => {
            let all = witness_sentences(alloc, system, &table)?;
            shown(alloc, all.as_slice(), system, &table)?
        }
        "justice" => {
            let all = justice(alloc, system, &table)?;
            shown_conditions(alloc, all.as_slice(), system, &table)?
        }
        _ => bail!("no such sentences: {kind:?}"),
    };
    Ok(String::from_utf8(line)?)
}

/// The closed formulas, one behind the other.
pub fn shown(
    alloc: Global,
    formulas: &[Formula],
    system: &System,
    table: &LabelTable,
) -> Result<Vec<u8>>
    requires { table.now.labels ≡ table_labels system.now }
{
    let mut line = Vec::new(alloc);
    for formula in formulas {
        push_shown(alloc, &mut line, formula, system, table, 0)?;
    }
    Ok(line)
}

/// The conditions, each in the scope of the variables of its tuple.
fn shown_conditions(
    alloc: Global,
    conditions: &[Justice],
    system: &System,
    table: &LabelTable,
) -> Result<Vec<u8>>
    requires { table.now.labels ≡ table_labels system.now }
{
    let mut line = Vec::new(alloc);
    for condition in conditions {
        let variables = number(condition.sorts.as_slice().len())?;
        push_shown(
            alloc,
            &mut line,
            &condition.condition,
            system,
            table,
            variables,
        )?;
    }
    Ok(line)
}

/// Adds a formula in the scope of so many variables.
pub fn push_shown(
    alloc: Global,
    line: &mut Vec<u8>,
    formula: &Formula,
    system: &System,
    table: &LabelTable,
    variables: u32,
) -> Result<()>
    requires { table.now.labels ≡ table_labels system.now }
{
    if !line.is_empty() {
        line.push(b' ')?;
    }
    let text = show_formula(alloc, formula, system, table, variables)?;
    line.extend_from_slice(text.as_slice())?;
    Ok(())
}
