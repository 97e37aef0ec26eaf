//! The reports, each ended by a newline.
ghost use Rattle.std.specs.Prelude.{◌≡◌, ◌<◌, IfOk, length};
ghost use Rattle.lv_struct.specs.Tables.{HasVocabulary};
ghost use Rattle.lv_labels.specs.Obligations.{obligations_of};
ghost use Rattle.lv_labels.specs.Rows.{IsTableOf};
ghost use Rattle.lv_grammar.specs.ShownStructures.{shown_structure};
ghost use Rattle.lv_report.specs.Texts.{countermodel_text, heading, not_stratified_text, proved_text, spent_text, too_large_text, vocabulary_at};

use crate::names::{push_number, push_obligation, push_sorts};
use lv_formula::{Memory, SortId};
use lv_labels::LabelTable;
use lv_oblig::{vocabulary, which_obligation};
use lv_show::show_structure;
use lv_struct::Structure;
use lv_system::System;
use lv_tree::List;
use std::alloc::Global;

/// A word, the number of an obligation, and its name, with a space between each two.
fn heading(alloc: Global, word: &[u8], system: &System, index: u32) -> Result<Vec<u8>, Memory>
    requires { index < length (obligations_of system.now) }
    ensures { IfOk result (λ text. text.items ≡ heading word.now system.now index) }
{
    let mut text = Vec::from_slice(alloc, word)?;
    text.extend_from_slice(b" ")?;
    push_number(&mut text, index as u64)?;
    text.extend_from_slice(b" ")?;
    push_obligation(&mut text, system.parts(), which_obligation(system, index))?;
    Ok(text)
}

/// `proved N obligations`: all are valid, and there are so many. The error is want of memory.
pub fn proved(alloc: Global, obligations: u32) -> Result<List<u8>, Memory>
    ensures { IfOk result (λ text. text ≡ proved_text obligations) }
{
    let mut text = Vec::from_slice(alloc, b"proved ")?;
    push_number(&mut text, obligations as u64)?;
    text.extend_from_slice(b" obligations\n")?;
    Ok(List::from_vec(text))
}

/// The text of a structure over the obligation's vocabulary.
fn structure_text(
    alloc: Global,
    system: &System,
    table: &LabelTable,
    index: u32,
    structure: &Structure,
) -> Result<List<u8>, Memory>
    requires table { IsTableOf system.now table.now }
    requires number { index < length (obligations_of system.now) }
    requires vocabulary { HasVocabulary (vocabulary_at system.now index) structure.now }
    ensures { IfOk result (λ text. text ≡ shown_structure system.now (vocabulary_at system.now index) structure.now) }
{
    let voc = vocabulary(alloc, system, table, index)?;
    show_structure(alloc, structure, system, table, &voc)
}

/// `countermodel I NAME`, and the text of the structure that breaks the obligation. The error is want of memory.
///
/// The caller sees to it that the table is the system's, that there is an obligation with the number, and that the
/// structure has its vocabulary.
pub fn countermodel(
    alloc: Global,
    system: &System,
    table: &LabelTable,
    index: u32,
    structure: &Structure,
) -> Result<List<u8>, Memory>
    requires table { IsTableOf system.now table.now }
    requires number { index < length (obligations_of system.now) }
    requires vocabulary { HasVocabulary (vocabulary_at system.now index) structure.now }
    ensures { IfOk result (λ text. text ≡ countermodel_text system.now index structure.now) }
{
    let mut text = heading(alloc, b"countermodel", system, index)?;
    text.extend_from_slice(b"\n")?;
    let shown = structure_text(alloc, system, table, index, structure)?;
    text.extend_from_slice(shown.as_slice())?;
    Ok(List::from_vec(text))
}

/// `not stratified I NAME: S1 S2 ..`: the sorts are a cycle of the obligation. The error is want of memory.
///
/// The caller sees to it that there is an obligation with the number.
pub fn not_stratified(
    alloc: Global,
    system: &System,
    index: u32,
    sorts: &[SortId],
) -> Result<List<u8>, Memory>
    requires { index < length (obligations_of system.now) }
    ensures { IfOk result (λ text. text ≡ not_stratified_text system.now index sorts.now) }
{
    let mut text = heading(alloc, b"not stratified", system, index)?;
    text.extend_from_slice(b":")?;
    push_sorts(&mut text, system.parts(), sorts)?;
    text.extend_from_slice(b"\n")?;
    Ok(List::from_vec(text))
}

/// `too large I NAME`: the obligation's size is above the limit. The error is want of memory.
///
/// The caller sees to it that there is an obligation with the number.
pub fn too_large(alloc: Global, system: &System, index: u32) -> Result<List<u8>, Memory>
    requires { index < length (obligations_of system.now) }
    ensures { IfOk result (λ text. text ≡ too_large_text system.now index) }
{
    let mut text = heading(alloc, b"too large", system, index)?;
    text.extend_from_slice(b"\n")?;
    Ok(List::from_vec(text))
}

/// `spent I NAME after N learned clauses`: so many clauses were learned at the obligation, and no more may be. The error
/// is want of memory.
///
/// The caller sees to it that there is an obligation with the number.
pub fn spent(alloc: Global, system: &System, index: u32, learned: u64) -> Result<List<u8>, Memory>
    requires { index < length (obligations_of system.now) }
    ensures { IfOk result (λ text. text ≡ spent_text system.now index learned) }
{
    let mut text = heading(alloc, b"spent", system, index)?;
    text.extend_from_slice(b" after ")?;
    push_number(&mut text, learned)?;
    text.extend_from_slice(b" learned clauses\n")?;
    Ok(List::from_vec(text))
}
