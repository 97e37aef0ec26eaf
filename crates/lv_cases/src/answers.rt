//! What is answered to each kind of case.
use crate::obligations::{obligation, obligations, words};
use crate::sentences::sentences;
use crate::spelling::bytes_of;
use crate::streams::Streams;
use anyhow::{Context, Result, bail, ensure};
use lv_run::run;
use lv_syntax::{ReadText, read_system};
use lv_system::System;
use lv_tree::{MAX_BYTES, Tree, read_tree, write_tree};
use std::alloc::Global;

/// The line that answers a line.
pub fn answer(alloc: Global, line: &str) -> Result<String> {
    if line.is_empty() || line.starts_with('#') {
        return Ok(String::from_str(alloc, line)?);
    }
    let (call, case) = line.split_once(" | ").context("no text")?;
    let (spelled, settings) = case.split_once(" | ").unwrap_or((case, ""));
    let text = bytes_of(alloc, spelled)?;
    match call {
        "read" => read(alloc, text.as_slice()),
        "tree" => tree(alloc, text.as_slice()),
        "equations" | "justice" | "start" | "witnesses" => {
            sentences(alloc, call, &system(alloc, text.as_slice())?)
        }
        "obligations" => obligations(alloc, &system(alloc, text.as_slice())?),
        _ => numbered(alloc, call, text, settings),
    }
}

/// What is answered of one obligation, or else to a call.
fn numbered(alloc: Global, call: &str, text: Vec<u8>, settings: &str) -> Result<String> {
    if let Some(number) = call.strip_prefix("obligation ") {
        obligation(alloc, &system(alloc, text.as_slice())?, number)
    } else if let Some(number) = call.strip_prefix("vocabulary ") {
        words(alloc, &system(alloc, text.as_slice())?, number)
    } else {
        called(alloc, call, text, Streams::of(settings)?)
    }
}

/// The status of a call, and what its sinks hold.
fn called(alloc: Global, call: &str, text: Vec<u8>, streams: Streams) -> Result<String> {
    let words = words_of(alloc, call)?;
    let mut source = streams.source(alloc, text)?;
    let mut out = streams.out(alloc)?;
    let mut err = streams.err(alloc)?;
    let status = run(alloc, words.as_slice(), &mut source, &mut out, &mut err).status;
    let out = out.bytes().escape_ascii();
    let err = err.bytes().escape_ascii();
    Ok(format!(in alloc; "{status} \"{out}\" \"{err}\"")?)
}

/// The words of a call behind `run`.
fn words_of(alloc: Global, call: &str) -> Result<Vec<String>> {
    let mut pieces = call.split(' ');
    ensure!(pieces.next() == Some("run"), "no such call: {call:?}");
    let mut words = Vec::new(alloc);
    for piece in pieces {
        words.push(String::from_utf8(bytes_of(alloc, piece)?)?)?;
    }
    Ok(words)
}

/// The system that a text spells.
fn system(alloc: Global, text: &[u8]) -> Result<System> {
    ensure!(text.len() <= MAX_BYTES, "a text too long");
    let tree = read_tree(alloc, text)?;
    match read_system(alloc, &tree) {
        Ok(system) => Ok(system),
        Err(_) => bail!("no system"),
    }
}

/// What a text spells: `system`, or its first fault.
fn read(alloc: Global, text: &[u8]) -> Result<String> {
    ensure!(text.len() <= MAX_BYTES, "a text too long");
    match read_tree(alloc, text) {
        Ok(tree) => match read_system(alloc, &tree) {
            Ok(_) => Ok(String::from_str(alloc, "system")?),
            Err(ReadText::Refused(fault)) => Ok(format!(in alloc;
                "{:?} at {}",
                fault.kind, fault.at
            )?),
            Err(ReadText::Memory) => bail!("no memory"),
        },
        Err(fault) => Ok(format!(in alloc; "{fault}")?),
    }
}

/// The line of a tree with its places, or the first fault of the text.
fn tree(alloc: Global, text: &[u8]) -> Result<String> {
    ensure!(text.len() <= MAX_BYTES, "a text too long");
    match read_tree(alloc, text) {
        Ok(tree) => {
            let line = write_tree(alloc, &tree)?;
            let mut places = Vec::new(alloc);
            push_places(&mut places, &tree)?;
            Ok(format!(in alloc; "{} {places:?}", line.as_slice().escape_ascii())?)
        }
        Err(fault) => Ok(format!(in alloc; "{fault}")?),
    }
}

/// Adds the places of a tree's brackets and words, in the order of the text.
fn push_places(places: &mut Vec<u32>, tree: &Tree) -> Result<()> {
    match tree {
        Tree::Word { at, .. } => places.push(*at)?,
        Tree::Group { at, end, items } => {
            places.push(*at)?;
            for item in items.as_slice() {
                push_places(places, item)?;
            }
            places.push(*end)?;
        }
    }
    Ok(())
}
