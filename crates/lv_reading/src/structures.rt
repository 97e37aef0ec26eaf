//! Structures of a vocabulary, read from trees.
ghost use Rattle.std.specs.Prelude.{◌≡◌, ◌<◌, length, codes, All, IfOk, Option, Some, Ok};
ghost use Rattle.lv_formula.specs.Vocabulary as vocabularies;
ghost use Rattle.lv_formula.specs.Vocabulary.{constant_in, relation_in};
ghost use Rattle.lv_struct.specs.Tables.{HasVocabulary, IsInRange, size_of, sort_in, sorts_in};
ghost use Rattle.lv_labels.specs.Table.{table_labels};
ghost use Rattle.lv_grammar.specs.Tables.{IsTable};
ghost use Rattle.lv_grammar.specs.Words.{sort_name, symbol_word};
ghost use Rattle.lv_fault.specs.Given.{Gives};
ghost use Rattle.lv_reading.specs.Structures.{constant_entry, entries_in, next_entry, next_size, relation_entry, size_from, size_in, sizes_in, structure_in, with_constant, with_entry, with_relation};

use crate::numbers::{Numbered, element, exactly, exactly_in, number};
use crate::tuples::tuples;
use lv_fault::trees::{finish, head, next, place, refusal, refuse_if};
use lv_fault::{Kind, ReadText};
use lv_formula::{List, Lookup, SortId, Sym, Vocabulary};
use lv_grammar::words::{Words, sort_name, symbol_word};
use lv_labels::LabelTable;
use lv_struct::Structure;
use lv_system::{Parts, System};
use lv_tree::Tree;
use std::alloc::Global;

/// The greatest size of a sort in a text.
const GREATEST: u32 = 256;

/// The number as the size of a sort.
fn size_of(number: Numbered) -> Result<u32, ReadText>
    ensures { Gives (λ x. x) result (size_from number) }
{
    refuse_if(number.value == 0, Kind::Unexpected, number.at)?;
    refuse_if(number.value > GREATEST, Kind::TooMany, number.at)?;
    Ok(number.value)
}

/// `(size SORT N)`
#[tactic(auto, unfolding(crate::specs::Structures::size_in))]
fn size(name: &[u8], tree: &Tree) -> Result<u32, ReadText>
    ensures { Gives (λ x. x) result (size_in name.now tree.now) }
{
    let list = head(tree)?;
    exactly(b"size", list.word)?;
    let (first, rest) = next(list.end, list.rest)?;
    exactly_in(name, first)?;
    let (second, rest) = next(list.end, rest)?;
    let size = size_of(number(second)?)?;
    finish(rest)?;
    Ok(size)
}

/// The size of the sort, and the items behind it.
#[tactic(auto, unfolding(crate::specs::Structures::next_size))]
fn next_size<'a>(
    parts: &Parts,
    end: u32,
    sort: SortId,
    items: &'a [Tree],
) -> Result<(u32, &'a [Tree]), ReadText>
    ensures { Gives (λ x. (x.0, x.1.now)) result (next_size parts.now end sort.0 items.now) }
{
    let (first, rest) = next(end, items)?;
    let size = size(sort_name(sort, parts), first)?;
    Ok((size, rest))
}

/// The sizes of so many sorts, and the items behind them.
fn sizes<'a>(
    alloc: Global,
    parts: &Parts,
    sorts: u32,
    end: u32,
    items: &'a [Tree],
) -> Result<(Vec<u32>, &'a [Tree]), ReadText>
    ensures given { Gives (λ x. (x.0.items, x.1.now)) result (sizes_in parts.now end 0 sorts items.now) }
    ensures many { IfOk result (λ x. length x.0.items ≡ sorts) }
    ensures elements { IfOk result (λ x. All (λ n. 0 < n) x.0.items) }
{
    let mut sizes = Vec::new(alloc);
    let mut rest = items;
    for k in 0..sorts {
        let (size, others) = next_size(parts, end, SortId(k), rest)?;
        sizes.push(size)?;
        rest = others;
    }
    Ok((sizes, rest))
}

/// The tuples of `(relation WORD (E ..) ..)`.
#[tactic(auto, unfolding(crate::specs::Structures::relation_entry))]
fn relation(
    alloc: Global,
    m: &Structure,
    sorts: &[SortId],
    name: &[u8],
    tree: &Tree,
) -> Result<Vec<List<u32>>, ReadText>
    ensures given { Gives (λ x. x.items) result (relation_entry m.now.sizes sorts.now name.now tree.now) }
    ensures in_range { IfOk result (λ x. All (IsInRange m.now.sizes sorts.now) x.items) }
{
    let list = head(tree)?;
    exactly(b"relation", list.word)?;
    let (first, items) = next(list.end, list.rest)?;
    exactly_in(name, first)?;
    tuples(alloc, m, sorts, items)
}

/// The element of `(constant WORD E)`.
#[tactic(auto, unfolding(crate::specs::Structures::constant_entry))]
fn constant(size: u32, name: &[u8], tree: &Tree) -> Result<u32, ReadText>
    ensures { Gives (λ x. x) result (constant_entry size name.now tree.now) }
{
    let list = head(tree)?;
    exactly(b"constant", list.word)?;
    let (first, rest) = next(list.end, list.rest)?;
    exactly_in(name, first)?;
    let (second, rest) = next(list.end, rest)?;
    let element = element(size, second)?;
    finish(rest)?;
    Ok(element)
}

/// The structure with the tuples of a relation's entry.
fn with_relation(
    alloc: Global,
    m: &Structure,
    sorts: &[SortId],
    sym: Sym,
    name: &[u8],
    tree: &Tree,
) -> Result<Structure, ReadText>
    requires { sorts_in m.now sym ≡ Some sorts.now }
    ensures { Gives (λ x. x) result (with_relation m.now name.now sorts.now sym tree.now) }
{
    let tuples = relation(alloc, m, sorts, name, tree)?;
    Ok(m.with_relation(alloc, sym, tuples.as_slice())?)
}

/// The structure with the element of a constant's entry.
fn with_constant(
    alloc: Global,
    m: &Structure,
    sort: SortId,
    sym: Sym,
    name: &[u8],
    tree: &Tree,
) -> Result<Structure, ReadText>
    requires { sort_in m.now sym ≡ Some sort }
    ensures { Gives (λ x. x) result (with_constant m.now name.now sort sym tree.now) }
{
    let element = constant(m.size(sort), name, tree)?;
    Ok(m.with_constant(alloc, sym, element)?)
}

/// The structure with the entry of the symbol.
fn with_entry(
    alloc: Global,
    m: &Structure,
    voc: &Vocabulary,
    sym: Sym,
    words: &Words,
    tree: &Tree,
) -> Result<Structure, ReadText>
    requires table { IsTable words.now.parts.now words.now.labels.now }
    requires vocabulary { HasVocabulary voc.now m.now }
    ensures given { Gives (λ x. x) result (with_entry m.now (symbol_word words.now.parts.now sym) (relation_in voc.now.relations sym) (constant_in voc.now.constants sym) sym tree.now) }
{
    let name = symbol_word(alloc, sym, words)?;
    match voc.relation(&sym) {
        Some(sorts) => with_relation(alloc, m, sorts, sym, name.as_slice(), tree),
        None => match voc.constant(sym) {
            Some(sort) => with_constant(alloc, m, sort, sym, name.as_slice(), tree),
            None => Err(refusal(Kind::Unexpected, place(tree))),
        },
    }
}

/// The structure with the next entry, which is that of the symbol, and the items behind it.
#[tactic(auto, unfolding(crate::specs::Structures::next_entry))]
fn next_entry<'a>(
    alloc: Global,
    m: &Structure,
    voc: &Vocabulary,
    sym: Sym,
    words: &Words,
    end: u32,
    items: &'a [Tree],
) -> Result<(Structure, &'a [Tree]), ReadText>
    requires table { IsTable words.now.parts.now words.now.labels.now }
    requires vocabulary { HasVocabulary voc.now m.now }
    ensures given { Gives (λ x. (x.0, x.1.now)) result (next_entry words.now.parts.now voc.now end m.now sym items.now) }
    ensures vocabulary { IfOk result (λ x. HasVocabulary voc.now x.0) }
{
    let (first, rest) = next(end, items)?;
    let m = with_entry(alloc, m, voc, sym, words, first)?;
    Ok((m, rest))
}

/// The structure with an entry for each symbol of the vocabulary, and the items behind them.
fn entries<'a>(
    alloc: Global,
    m: Structure,
    voc: &Vocabulary,
    words: &Words,
    end: u32,
    items: &'a [Tree],
) -> Result<(Structure, &'a [Tree]), ReadText>
    requires table { IsTable words.now.parts.now words.now.labels.now }
    requires vocabulary { HasVocabulary voc.now m }
    ensures given { Gives (λ x. (x.0, x.1.now)) result (entries_in words.now.parts.now voc.now end m voc.now.order items.now) }
    ensures vocabulary { IfOk result (λ x. HasVocabulary voc.now x.0) }
{
    let mut m = m;
    let mut rest = items;
    for sym in voc.order.as_slice() {
        (m, rest) = next_entry(alloc, &m, voc, *sym, words, end, rest)?;
    }
    Ok((m, rest))
}

/// The structure of a tree, over these words.
#[tactic(auto, unfolding(crate::specs::Structures::structure_in))]
fn structure(
    alloc: Global,
    tree: &Tree,
    words: &Words,
    voc: &Vocabulary,
) -> Result<Structure, ReadText>
    requires table { IsTable words.now.parts.now words.now.labels.now }
    requires sound { vocabularies.IsSound voc.now }
    ensures given { Gives (λ x. x) result (structure_in words.now.parts.now voc.now tree.now) }
    ensures vocabulary { IfOk result (HasVocabulary voc.now) }
{
    let list = head(tree)?;
    exactly(b"structure", list.word)?;
    let (sizes, rest) = sizes(alloc, words.parts, voc.sorts, list.end, list.rest)?;
    let empty = Structure::new(alloc, voc, sizes.as_slice())?;
    let (m, rest) = entries(alloc, empty, voc, words, list.end, rest)?;
    finish(rest)?;
    Ok(m)
}

/// The structure of the vocabulary that the tree spells: `(structure (size SORT N) .. ENTRY ..)`, with the sizes of all
/// sorts, and an entry for each symbol in order of the vocabulary. `Refused` comes exactly where the tree spells none, with
/// the first fault, from left to right and depth first. `Memory` is want of memory.
///
/// The caller sees to it that the table is the system's, and that the vocabulary is sound.
pub fn read_structure(
    alloc: Global,
    tree: &Tree,
    system: &System,
    table: &LabelTable,
    voc: &Vocabulary,
) -> Result<Structure, ReadText>
    requires table { table.now.labels ≡ table_labels system.now }
    requires sound { vocabularies.IsSound voc.now }
    ensures given { Gives (λ x. x) result (structure_in system.now voc.now tree.now) }
    ensures vocabulary { IfOk result (HasVocabulary voc.now) }
{
    let words = Words {
        parts: system.parts(),
        labels: table.labels.as_slice(),
    };
    structure(alloc, tree, &words, voc)
}
