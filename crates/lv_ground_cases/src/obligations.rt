//! The obligations of a system, and their ground forms.
ghost use Rattle.std.specs.Prelude.{◌≡◌, ◌≤◌, true, length};
ghost use Rattle.std.specs.List.{All};
ghost use Rattle.lv_formula.specs.Pairs.{SentencesFit};
ghost use Rattle.lv_formula.specs.Vocabulary.{IsSound};

use crate::pairs::fit;
use anyhow::{Result, ensure};
use lv_formula::{Sentences, Vocabulary};
use lv_ground::{Grounded, ground};
use lv_labels::{Key, LabelTable, labels_of};
use lv_oblig::{count, sentences, vocabulary};
use lv_skolem::{Universe, skolemise};
use lv_system::System;
use std::alloc::Global;

/// The words of an obligation of the system, and its hypotheses and conclusion.
pub fn obligation(alloc: Global, system: &System, i: u32) -> Result<(Vocabulary, Sentences)> {
    ensure!(i < count(system), "no such obligation: {i}");
    let table = labels_of(alloc, system)?;
    let voc = vocabulary(alloc, system, &table, i)?;
    let pair = sentences(alloc, system, &table, i)?;
    Ok((voc, pair))
}

/// The ground form of an obligation, unless its sort graph has a cycle or its size is above the limit.
pub fn ground_form(alloc: Global, system: &System, i: u32) -> Result<Option<Grounded>> {
    ensure!(i < count(system), "no such obligation: {i}");
    let table = labels_of(alloc, system)?;
    ensure!(
        are_narrow(table.keys.as_slice()),
        "a label with five free variables"
    );
    let voc = vocabulary(alloc, system, &table, i)?;
    let pair = sentences(alloc, system, &table, i)?;
    ensure!(fit(&voc, &pair), "a symbol that has no sorts here");
    ground_form_of(alloc, &voc, &pair)
}

fn ground_form_of(alloc: Global, voc: &Vocabulary, pair: &Sentences) -> Result<Option<Grounded>>
    requires sound { IsSound voc.now }
    requires fit { SentencesFit voc.now pair.now }
{
    let sk = skolemise(alloc, voc, pair)?;
    if sk.size.is_none() {
        return Ok(None);
    }
    let universe = Universe::new(alloc, &sk)?;
    Ok(Some(ground(alloc, &sk, &universe)?))
}

/// Whether no label has more than four free variables.
fn are_narrow(keys: &[Key]) -> bool
    ensures { result ≡ true → All (λ key. length key.sorts ≤ 4) keys.now }
{
    keys.iter().all(|key| key.sorts.as_slice().len() <= 4)
}
