//! What is answered to each case.
use crate::obligations::{ground_form, obligation};
use crate::pairs::{sentences, skolem_form, vocabulary};
use anyhow::{Context, Result, bail, ensure};
use lv_formula::{Sentences, SortId, Vocabulary};
use lv_oblig::count;
use lv_skolem::{PlaceArg, Skolem, cycle, ground_size};
use lv_syntax::read_system;
use lv_system::{Parts, System};
use lv_tree::{MAX_BYTES, read_tree};
use std::alloc::Global;
use std::fmt::Write;

/// The line that answers a line.
pub fn answer(alloc: Global, line: &str) -> Result<String> {
    if line.is_empty() || line.starts_with('#') {
        return Ok(String::from_str(alloc, line)?);
    }
    match line.split_once(" | ") {
        None => own_pair(alloc, line),
        Some(("ground", text)) => ground_forms(alloc, text),
        Some((number, text)) => numbered_pair(alloc, number, text),
    }
}

/// What is told of the pair that a system's axioms and invariants are.
fn own_pair(alloc: Global, text: &str) -> Result<String> {
    let system = system(alloc, text.as_bytes())?;
    let parts = system.parts();
    let voc = vocabulary(alloc, parts)?;
    let pair = sentences(alloc, parts)?;
    told_of(alloc, parts, &voc, &pair)
}

/// What is told of the obligation with this number.
fn numbered_pair(alloc: Global, number: &str, text: &str) -> Result<String> {
    let number = number.parse::<u32>()?;
    let system = system(alloc, text.as_bytes())?;
    let (voc, pair) = obligation(alloc, &system, number)?;
    told_of(alloc, system.parts(), &voc, &pair)
}

/// The places of the sentences, and then a cycle, or the size and the numbers of terms.
fn told_of(alloc: Global, parts: &Parts, voc: &Vocabulary, pair: &Sentences) -> Result<String> {
    let (sk, counts) = skolem_form(alloc, voc, pair)?;
    let mut told = String::from_str(alloc, "places")?;
    push_places(&mut told, parts, &sk)?;
    push_verdict(&mut told, parts, &sk, counts.as_slice())?;
    Ok(told)
}

/// How many atoms, sentences and equality clauses the ground form of each obligation has.
fn ground_forms(alloc: Global, text: &str) -> Result<String> {
    let system = system(alloc, text.as_bytes())?;
    let mut told = String::from_str(alloc, "atoms/sentences/clauses")?;
    for i in 0..count(&system) {
        push_ground_form(alloc, &mut told, &system, i)?;
    }
    Ok(told)
}

fn push_ground_form(alloc: Global, told: &mut String, system: &System, i: u32) -> Result<()> {
    match ground_form(alloc, system, i)? {
        None => told.push_str(" none")?,
        Some(form) => {
            push_number(told, " ", form.atoms.as_slice().len() as u64)?;
            push_number(told, "/", form.roots.as_slice().len() as u64)?;
            push_number(told, "/", form.equalities.as_slice().len() as u64)?;
        }
    }
    Ok(())
}

/// Adds a number behind a text. It is the one place where numbers are written: a proof pays for each.
fn push_number(told: &mut String, before: &str, number: u64) -> Result<()> {
    write!(told, "{before}{number}")?;
    Ok(())
}

/// The system that a text spells.
fn system(alloc: Global, text: &[u8]) -> Result<System> {
    ensure!(text.len() <= MAX_BYTES, "a text too long");
    let tree = read_tree(alloc, text)?;
    match read_system(alloc, &tree) {
        Ok(system) => Ok(system),
        Err(_) => bail!("no system"),
    }
}

/// The places, each as its sort with the variables that are its arguments.
fn push_places(told: &mut String, parts: &Parts, sk: &Skolem) -> Result<()> {
    for place in sk.places.as_slice() {
        push_sort(told, parts, place.sort)?;
        told.push_str("(")?;
        push_arguments(told, place.arguments.as_slice())?;
        told.push_str(")")?;
    }
    Ok(())
}

/// The variables that are a place's arguments.
fn push_arguments(told: &mut String, arguments: &[PlaceArg]) -> Result<()> {
    for (i, argument) in arguments.iter().enumerate() {
        push_number(told, if i == 0 { "" } else { " " }, u64::from(argument.var))?;
    }
    Ok(())
}

/// A cycle of the sort graph, or that the size is above the limit, or the size and the numbers of terms.
fn push_verdict(told: &mut String, parts: &Parts, sk: &Skolem, counts: &[usize]) -> Result<()> {
    if let Some(sorts) = cycle(sk) {
        told.push_str("; cycle")?;
        return push_sorts(told, parts, sorts.as_slice());
    }
    match ground_size(sk) {
        None => told.push_str("; too large")?,
        Some(size) => {
            push_number(told, "; size ", size)?;
            push_counts(told, counts)?;
        }
    }
    Ok(())
}

/// Adds the names of sorts.
fn push_sorts(told: &mut String, parts: &Parts, sorts: &[SortId]) -> Result<()> {
    for sort in sorts {
        push_sort(told, parts, *sort)?;
    }
    Ok(())
}

/// Adds how many terms each sort has.
fn push_counts(told: &mut String, counts: &[usize]) -> Result<()> {
    told.push_str("; terms")?;
    for count in counts {
        push_number(told, " ", *count as u64)?;
    }
    Ok(())
}

/// Adds the name of a sort behind a space.
fn push_sort(told: &mut String, parts: &Parts, sort: SortId) -> Result<()> {
    let sort = parts
        .sorts
        .as_slice()
        .get(sort.0 as usize)
        .context("no such sort")?;
    write!(told, " {}", sort.name.as_slice().escape_ascii())?;
    Ok(())
}
