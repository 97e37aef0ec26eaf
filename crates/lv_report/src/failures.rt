//! The reports that a structure or a lasso fails somewhere, each ended by a newline.
ghost use Rattle.std.specs.Prelude.{◌≡◌, IfOk};
ghost use Rattle.lv_report.specs.Texts.{axiom_fails_text, guard_fails_text, hypothesis_fails_text, numbered_text, unfair_text};

use crate::names::{push_name, push_numbered};
use lv_formula::Memory;
use lv_system::System;
use lv_tree::List;
use std::alloc::Global;

/// The words, and the number behind them.
fn numbered(alloc: Global, words: &[u8], number: u32) -> Result<List<u8>, Memory>
    ensures { IfOk result (λ text. text ≡ numbered_text words.now number) }
{
    let mut text = Vec::new(alloc);
    push_numbered(&mut text, words, number as u64)?;
    Ok(List::from_vec(text))
}

/// `hypothesis fails N`: the hypothesis of an obligation with this number is the first that is false. The error is want of
/// memory.
pub fn hypothesis_fails(alloc: Global, number: u32) -> Result<List<u8>, Memory>
    ensures { IfOk result (λ text. text ≡ hypothesis_fails_text number) }
{
    numbered(alloc, b"hypothesis fails ", number)
}

/// `axiom fails N`: the axiom with this number is the first that is false. The error is want of memory.
pub fn axiom_fails(alloc: Global, number: u32) -> Result<List<u8>, Memory>
    ensures { IfOk result (λ text. text ≡ axiom_fails_text number) }
{
    numbered(alloc, b"axiom fails ", number)
}

/// `guard fails N`: the step of a lasso with this number is the first whose guard is false. The error is want of memory.
pub fn guard_fails(alloc: Global, step: u32) -> Result<List<u8>, Memory>
    ensures { IfOk result (λ text. text ≡ guard_fails_text step) }
{
    numbered(alloc, b"guard fails ", step)
}

/// `unfair NAME`: the condition of fairness with this number is the first that a loop doesn't meet. The error is want of
/// memory.
pub fn unfair(alloc: Global, system: &System, fair: u32) -> Result<List<u8>, Memory>
    ensures { IfOk result (λ text. text ≡ unfair_text system.now fair) }
{
    let mut text = Vec::from_slice(alloc, b"unfair ")?;
    push_name(&mut text, system.parts().fairs.as_slice(), fair)?;
    text.extend_from_slice(b"\n")?;
    Ok(List::from_vec(text))
}
