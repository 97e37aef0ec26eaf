//! The words of symbols and sorts, found in the parts of a system and its table of labels.
ghost use Rattle.std.specs.Prelude.{◌≡◌, ◌++◌, ℕ, List, [], map, get_or, codes, decimal, IfOk};
ghost use Rattle.lv_grammar.specs.Words.{name_or_number, sort_name, own_name, symbol_word, label_word, justice_name};
ghost use Rattle.lv_grammar.specs.Tables.{IsTable, named_by, declaration_in};

use itoa::Buffer;
use lv_formula::{Memory, SortId, Sym};
use lv_labels::Label;
use lv_system::{HasName, LabelDecl, Parts};
use lv_tree::{List, Text};
use std::alloc::Global;

/// What words are looked up in: the parts of a system, and its table of labels. The caller sees to it that the table is
/// that of the system.
#[derive(Clone, Copy, Drop)]
pub struct Words<'a> {
    pub parts: &'a Parts,
    pub labels: &'a [Label],
}

/// The name of the item with the number, no bytes where there is none.
#[tactic(auto, using(crate::proofs::Elements::name_there, crate::proofs::Elements::name_past))]
fn name_at<T: HasName>(items: &[T], number: u32) -> &[u8]
    ensures { result.now ≡ get_or (map (λ x. T.text x) items.now) number [] }
{
    let place = number as usize;
    if place < items.len() {
        items[place].name()
    } else {
        &[]
    }
}

/// The name of the sort, no bytes where there is none.
pub fn sort_name(sort: SortId, parts: &Parts) -> &[u8]
    ensures { result.now ≡ sort_name parts.now sort }
{
    name_at(parts.sorts.as_slice(), sort.0)
}

/// The name of the system's symbol with the number, no bytes where there is none.
pub fn own_name(number: u32, parts: &Parts) -> &[u8]
    ensures { result.now ≡ own_name parts.now number }
{
    name_at(parts.symbols.as_slice(), number)
}

/// The name of the witness with the number.
fn witness_name(number: u32, parts: &Parts) -> &[u8]
    ensures { result.now ≡ get_or (map (λ x. x.name) parts.now.witnesses) number [] }
{
    name_at(parts.witnesses.as_slice(), number)
}

fn copied(alloc: Global, text: &[u8]) -> Result<Text, Memory>
    ensures { IfOk result (λ t. t ≡ text.now) }
{
    Ok(List::from_vec(Vec::from_slice(alloc, text)?))
}

/// The bytes of both, one behind the other.
fn joined(alloc: Global, front: &[u8], text: &[u8]) -> Result<Text, Memory>
    ensures { IfOk result (λ t. t ≡ front.now ++ text.now) }
{
    let mut all = Vec::from_slice(alloc, front)?;
    all.extend_from_slice(text)?;
    Ok(List::from_vec(all))
}

/// The bytes, and behind them the number.
fn counted(alloc: Global, front: &[u8], number: u32) -> Result<Text, Memory>
    ensures { IfOk result (λ t. t ≡ front.now ++ decimal number) }
{
    let mut buffer = Buffer::new();
    joined(alloc, front, buffer.format(number).as_bytes())
}

/// The name of the declaration with the number, or else `label.` and the label's number.
fn named_or_counted(
    alloc: Global,
    label: u32,
    declaration: Option<u32>,
    declarations: &[LabelDecl],
) -> Result<Text, Memory>
    ensures { IfOk result (λ t. t ≡ name_or_number label (named_by declarations.now declaration)) }
{
    match declaration {
        Some(number) => copied(alloc, name_at(declarations, number)),
        None => counted(alloc, b"label.", label),
    }
}

/// The number of the declaration that names the label, if there are such a label and declaration.
#[tactic(auto, using(crate::proofs::Elements::element_there, crate::proofs::Elements::element_past))]
fn declaration_of(labels: &[Label], label: u32) -> Option<u32>
    ensures { result ≡ declaration_in labels.now label }
{
    let place = label as usize;
    if place < labels.len() {
        labels[place].name
    } else {
        None
    }
}

/// A label's declared name, or `label.` and its number.
#[tactic(auto, using(crate::proofs::TableLaw::table_gives))]
fn label_word(alloc: Global, label: u32, words: &Words) -> Result<Text, Memory>
    requires { IsTable words.now.parts.now words.now.labels.now }
    ensures { IfOk result (λ t. t ≡ label_word words.now.parts.now label) }
{
    named_or_counted(
        alloc,
        label,
        declaration_of(words.labels, label),
        words.parts.labels.as_slice(),
    )
}

/// The name of a condition of fairness, or else the word of the label to which the condition belongs.
fn justice_word(alloc: Global, number: u32, words: &Words) -> Result<Text, Memory>
    requires { IsTable words.now.parts.now words.now.labels.now }
    ensures { IfOk result (λ t. t ≡ justice_name words.now.parts.now number) }
{
    let fairs = words.parts.fairs.as_slice();
    if (number as usize) < fairs.len() {
        copied(alloc, name_at(fairs, number))
    } else {
        label_word(alloc, number - fairs.len() as u32, words)
    }
}

/// The word of a label, behind these bytes.
fn behind_label(alloc: Global, front: &[u8], label: u32, words: &Words) -> Result<Text, Memory>
    requires { IsTable words.now.parts.now words.now.labels.now }
    ensures { IfOk result (λ t. t ≡ front.now ++ label_word words.now.parts.now label) }
{
    let word = label_word(alloc, label, words)?;
    joined(alloc, front, word.as_slice())
}

/// The word of the symbol. A label without a declared name is `label.` and its number. The only error is want of memory.
pub fn symbol_word(alloc: Global, sym: Sym, words: &Words) -> Result<Text, Memory>
    requires { IsTable words.now.parts.now words.now.labels.now }
    ensures { IfOk result (λ t. t ≡ symbol_word words.now.parts.now sym) }
{
    let parts = words.parts;
    match sym {
        Sym::Own(n) => copied(alloc, own_name(n, parts)),
        Sym::Witness(n) => copied(alloc, witness_name(n, parts)),
        Sym::Label(k) => label_word(alloc, k, words),
        Sym::Frozen => copied(alloc, b"frozen"),
        Sym::Saved => copied(alloc, b"saved"),
        Sym::Touched(s) => joined(alloc, b"touched.", sort_name(s, parts)),
        Sym::Kept(s) => joined(alloc, b"kept.", sort_name(s, parts)),
        Sym::Due(j) => {
            let word = justice_word(alloc, j, words)?;
            joined(alloc, b"due.", word.as_slice())
        }
        Sym::Copy(n) => joined(alloc, b"saved.", own_name(n, parts)),
        Sym::CopyLabel(k) => behind_label(alloc, b"saved.", k, words),
        Sym::Next(k) => behind_label(alloc, b"next.", k, words),
        Sym::Param(n) => counted(alloc, b"param.", n),
    }
}
