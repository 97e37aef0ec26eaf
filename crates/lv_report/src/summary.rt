//! The report on a system that was made.
ghost use Rattle.std.specs.Prelude.{◌≡◌, ◌++◌, IfOk, OnOk};
ghost use Rattle.lv_report.specs.Texts.{figures_text, made_text};

use crate::names::push_numbered;
use lv_formula::Memory;
use lv_show::show_system;
use lv_system::System;
use lv_tree::List;
use std::alloc::Global;

/// Adds the comments with the figures.
fn push_figures(
    text: &mut Vec<u8>,
    obligations: u32,
    largest: u64,
    answer: &[u8],
) -> Result<(), Memory>
    ensures { OnOk result (text.new.items ≡ text.old.items ++ figures_text obligations largest answer.now) }
{
    push_numbered(text, b"; obligations ", obligations as u64)?;
    push_numbered(text, b"; largest size ", largest)?;
    text.extend_from_slice(b"; answer ")?;
    text.extend_from_slice(answer)?;
    text.extend_from_slice(b"\n")?;
    Ok(())
}

/// The text of the system, and behind it in comments `obligations N`, `largest size N` and `answer WORD`: how many
/// obligations it has, the largest size of one, and the first word of what is reported of them. The error is want of
/// memory.
pub fn made(
    alloc: Global,
    system: &System,
    obligations: u32,
    largest: u64,
    answer: &[u8],
) -> Result<List<u8>, Memory>
    ensures { IfOk result (λ text. text ≡ made_text system.now obligations largest answer.now) }
{
    let shown = show_system(alloc, system)?;
    let mut text = Vec::from_slice(alloc, shown.as_slice())?;
    push_figures(&mut text, obligations, largest, answer)?;
    Ok(List::from_vec(text))
}
