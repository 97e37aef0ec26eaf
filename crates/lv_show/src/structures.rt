//! The trees of a structure's parts.
ghost use Rattle.std.specs.Prelude.{◌≡◌, ◌++◌, IfOk, OnOk, map};
ghost use Rattle.lv_struct.specs.Tables.{HasVocabulary};
ghost use Rattle.lv_grammar.specs.ShownFormulas.{word};
ghost use Rattle.lv_grammar.specs.Words.{symbol_word};
ghost use Rattle.lv_grammar.specs.ShownStructures.{shown_constant, shown_entry, shown_parts, shown_relation, shown_size, shown_sizes, shown_tuple, structure_tree, tuples_shown};
ghost use Rattle.lv_grammar.specs.Tables.{IsTable};

use crate::trees::{many, number, numbers, triple, word};
use lv_formula::{Lookup, Memory, SortId, Sym, Vocabulary};
use lv_grammar::words::{Words, sort_name, symbol_word};
use lv_struct::Structure;
use lv_system::Parts;
use lv_tree::Tree;
use std::alloc::Global;

/// The size of a sort.
fn size(alloc: Global, sort: SortId, elements: u32, parts: &Parts) -> Result<Tree, Memory>
    ensures { IfOk result (λ t. t ≡ shown_size parts.now sort elements) }
{
    let name = word(alloc, sort_name(sort, parts))?;
    triple(alloc, b"size", name, number(alloc, elements)?)
}

/// Adds the size of each sort.
fn push_sizes(
    alloc: Global,
    trees: &mut Vec<Tree>,
    m: &Structure,
    voc: &Vocabulary,
    parts: &Parts,
) -> Result<(), Memory>
    requires { HasVocabulary voc.now m.now }
    ensures { OnOk result (trees.new.items ≡ trees.old.items ++ shown_sizes parts.now 0 m.now.sizes) }
{
    for k in 0..voc.sorts {
        let sort = SortId(k);
        trees.push(size(alloc, sort, m.size(sort), parts)?)?;
    }
    Ok(())
}

/// The word of a symbol as a tree.
fn name(alloc: Global, sym: Sym, words: &Words) -> Result<Tree, Memory>
    requires { IsTable words.now.parts.now words.now.labels.now }
    ensures { IfOk result (λ t. t ≡ word (symbol_word words.now.parts.now sym)) }
{
    let text = symbol_word(alloc, sym, words)?;
    word(alloc, text.as_slice())
}

/// Adds the tuples of the relation, each once, in lexicographic order.
fn push_tuples(
    alloc: Global,
    trees: &mut Vec<Tree>,
    m: &Structure,
    sorts: &[SortId],
    sym: Sym,
) -> Result<(), Memory>
    ensures { OnOk result (trees.new.items ≡ trees.old.items ++ map shown_tuple (tuples_shown m.now sorts.now sym)) }
{
    let all = m.tuples(alloc, sorts)?;
    for tuple in all.as_slice() {
        if m.holds(sym, tuple.as_slice()) {
            trees.push(numbers(alloc, tuple.as_slice())?)?;
        }
    }
    Ok(())
}

/// A relation with its tuples.
fn relation(
    alloc: Global,
    m: &Structure,
    sorts: &[SortId],
    sym: Sym,
    words: &Words,
) -> Result<Tree, Memory>
    requires { IsTable words.now.parts.now words.now.labels.now }
    ensures { IfOk result (λ t. t ≡ shown_relation words.now.parts.now m.now sorts.now sym) }
{
    let mut trees = Vec::new(alloc);
    trees.push(name(alloc, sym, words)?)?;
    push_tuples(alloc, &mut trees, m, sorts, sym)?;
    many(alloc, b"relation", trees)
}

/// A constant with its element.
fn constant(alloc: Global, m: &Structure, sym: Sym, words: &Words) -> Result<Tree, Memory>
    requires { IsTable words.now.parts.now words.now.labels.now }
    ensures { IfOk result (λ t. t ≡ shown_constant words.now.parts.now m.now sym) }
{
    let name = name(alloc, sym, words)?;
    triple(alloc, b"constant", name, number(alloc, m.value(sym))?)
}

/// A symbol of the vocabulary with what the structure says of it.
fn entry(
    alloc: Global,
    m: &Structure,
    voc: &Vocabulary,
    sym: Sym,
    words: &Words,
) -> Result<Tree, Memory>
    requires { IsTable words.now.parts.now words.now.labels.now }
    ensures { IfOk result (λ t. t ≡ shown_entry words.now.parts.now voc.now m.now sym) }
{
    match voc.relation(&sym) {
        Some(sorts) => relation(alloc, m, sorts, sym, words),
        None => constant(alloc, m, sym, words),
    }
}

/// Adds an entry for each symbol of the vocabulary.
fn push_entries(
    alloc: Global,
    trees: &mut Vec<Tree>,
    m: &Structure,
    voc: &Vocabulary,
    words: &Words,
) -> Result<(), Memory>
    requires { IsTable words.now.parts.now words.now.labels.now }
    ensures { OnOk result (trees.new.items ≡ trees.old.items ++ map (shown_entry words.now.parts.now voc.now m.now) voc.now.order) }
{
    for sym in voc.order.as_slice() {
        trees.push(entry(alloc, m, voc, *sym, words)?)?;
    }
    Ok(())
}

/// The sizes of all sorts, and then an entry for each symbol of the vocabulary.
pub(crate) fn structure_parts(
    alloc: Global,
    m: &Structure,
    voc: &Vocabulary,
    words: &Words,
) -> Result<Vec<Tree>, Memory>
    requires table { IsTable words.now.parts.now words.now.labels.now }
    requires vocabulary { HasVocabulary voc.now m.now }
    ensures { IfOk result (λ trees. trees.items ≡ shown_parts words.now.parts.now voc.now m.now) }
{
    let mut trees = Vec::new(alloc);
    push_sizes(alloc, &mut trees, m, voc, words.parts)?;
    push_entries(alloc, &mut trees, m, voc, words)?;
    Ok(trees)
}

/// All parts of a structure as one tree.
pub(crate) fn whole_structure(
    alloc: Global,
    m: &Structure,
    voc: &Vocabulary,
    words: &Words,
) -> Result<Tree, Memory>
    requires table { IsTable words.now.parts.now words.now.labels.now }
    requires vocabulary { HasVocabulary voc.now m.now }
    ensures { IfOk result (λ tree. tree ≡ structure_tree words.now.parts.now voc.now m.now) }
{
    let parts = structure_parts(alloc, m, voc, words)?;
    many(alloc, b"structure", parts)
}
