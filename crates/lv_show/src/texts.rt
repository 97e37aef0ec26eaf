//! Texts of systems, structures, formulas and symbols.
ghost use Rattle.std.specs.Prelude.{◌≡◌, ◌++◌, List, codes, IfOk, OnOk};
ghost use Rattle.lv_tree.specs.Writing.{written};
ghost use Rattle.lv_labels.specs.Table.{table_labels};
ghost use Rattle.lv_grammar.specs.Words.{symbol_word};
ghost use Rattle.lv_grammar.specs.ShownFormulas.{shown_formula};
ghost use Rattle.lv_grammar.specs.ShownSystems.{shown_items};
ghost use Rattle.lv_grammar.specs.Layout.{in_lines, shown_text};
ghost use Rattle.lv_grammar.specs.ShownStructures.{shown_parts, shown_structure, structure_tree};
ghost use Rattle.lv_grammar.specs.StructureLaws.{StructureCanBeShown};
ghost use Rattle.lv_grammar.specs.Structures.{IsStructure, SpellsStructure};
ghost use Rattle.lv_struct.specs.Tables.{HasVocabulary};

use crate::formulas::formula;
use crate::items::items;
use crate::structures::{structure_parts, whole_structure};
use lv_formula::{Formula, Memory, Sym, Vocabulary};
use lv_grammar::words::{Words, symbol_word};
use lv_labels::{LabelTable, labels_of};
use lv_struct::Structure;
use lv_system::System;
use lv_tree::{List, Text, Tree, write_line};
use std::alloc::Global;

/// The tree on one line, with this crate's error.
fn line(alloc: Global, tree: &Tree) -> Result<List<u8>, Memory>
    ensures { IfOk result (λ bytes. bytes ≡ written tree.now) }
{
    match write_line(alloc, tree) {
        Ok(line) => Ok(line),
        Err(_) => Err(Memory),
    }
}

/// Adds the lines of the trees, each behind a newline and two spaces.
fn push_lines(alloc: Global, text: &mut Vec<u8>, trees: &[Tree]) -> Result<(), Memory>
    ensures { OnOk result (text.new.items ≡ text.old.items ++ in_lines trees.now) }
{
    for tree in trees {
        let line = line(alloc, tree)?;
        text.extend_from_slice(b"\n  ")?;
        text.extend_from_slice(line.as_slice())?;
    }
    Ok(())
}

/// The text of a system: its name on the first line, then each item on a line of its own behind two
/// spaces, `)` directly behind the last one, and a newline. Variables are `X0`, `X1` and so on, by the
/// number of variables in whose scope they stand. The only error is want of memory.
pub fn show_system(alloc: Global, system: &System) -> Result<List<u8>, Memory>
    ensures { IfOk result (λ bytes. bytes ≡ shown_text system.now) }
{
    let parts = system.parts();
    let table = labels_of(alloc, system)?;
    let words = Words {
        parts,
        labels: table.labels.as_slice(),
    };
    let trees = items(alloc, &words)?;
    let mut text = Vec::from_slice(alloc, b"(system ")?;
    text.extend_from_slice(parts.name.as_slice())?;
    push_lines(alloc, &mut text, trees.as_slice())?;
    text.extend_from_slice(b")\n")?;
    Ok(List::from_vec(text))
}

/// The text of a structure over a vocabulary: the size of each sort, and then each relation with its tuples and each
/// constant with its element, in order of the vocabulary, each on a line of its own behind two spaces, `)` directly behind
/// the last one, and a newline. The only error is want of memory.
///
/// The caller sees to it that the table is the system's and that the structure has the vocabulary.
pub fn show_structure(
    alloc: Global,
    m: &Structure,
    system: &System,
    table: &LabelTable,
    voc: &Vocabulary,
) -> Result<List<u8>, Memory>
    requires table { table.now.labels ≡ table_labels system.now }
    requires vocabulary { HasVocabulary voc.now m.now }
    ensures text { IfOk result (λ bytes. bytes ≡ shown_structure system.now voc.now m.now) }

    // Where no sort has more than 256 elements and the symbols have words, the text spells the structure.
    ensures spells { StructureCanBeShown system.now voc.now m.now → IfOk result (λ bytes. SpellsStructure system.now voc.now bytes m.now) }
{
    let words = Words {
        parts: system.parts(),
        labels: table.labels.as_slice(),
    };
    let trees = structure_parts(alloc, m, voc, &words)?;
    let mut text = Vec::from_slice(alloc, b"(structure")?;
    push_lines(alloc, &mut text, trees.as_slice())?;
    text.extend_from_slice(b")\n")?;
    Ok(List::from_vec(text))
}

/// The tree of a structure over a vocabulary, without places: the size of each sort, and then each relation with its
/// tuples and each constant with its element, in order of the vocabulary. The only error is want of memory.
///
/// The caller sees to it that the table is the system's and that the structure has the vocabulary.
pub fn structure_tree(
    alloc: Global,
    m: &Structure,
    system: &System,
    table: &LabelTable,
    voc: &Vocabulary,
) -> Result<Tree, Memory>
    requires table { table.now.labels ≡ table_labels system.now }
    requires vocabulary { HasVocabulary voc.now m.now }
    ensures tree { IfOk result (λ tree. tree ≡ structure_tree system.now voc.now m.now) }

    // Where no sort has more than 256 elements and the symbols have words, the tree spells the structure.
    ensures spells { StructureCanBeShown system.now voc.now m.now → IfOk result (λ tree. IsStructure system.now voc.now m.now tree) }
{
    let words = Words {
        parts: system.parts(),
        labels: table.labels.as_slice(),
    };
    whole_structure(alloc, m, voc, &words)
}

/// A formula of the system on one line. It stands in the scope of `context` variables, of which the
/// outermost is shown as `X0`. The only error is want of memory.
///
/// The caller sees to it that the table is the system's. However deep lists nest in the formula, and
/// whatever symbols it has, the line is written.
pub fn show_formula(
    alloc: Global,
    f: &Formula,
    system: &System,
    table: &LabelTable,
    context: u32,
) -> Result<List<u8>, Memory>
    requires table { table.now.labels ≡ table_labels system.now }
    ensures { IfOk result (λ bytes. bytes ≡ written (shown_formula system.now f.now context)) }
{
    let words = Words {
        parts: system.parts(),
        labels: table.labels.as_slice(),
    };
    let tree = formula(alloc, f, &words, context as u64)?;
    line(alloc, &tree)
}

/// The word of a symbol. A label without a declared name is `label.` and its number. The only error is
/// want of memory.
///
/// The caller sees to it that the table is the system's.
pub fn show_sym(
    alloc: Global,
    sym: Sym,
    system: &System,
    table: &LabelTable,
) -> Result<Text, Memory>
    requires table { table.now.labels ≡ table_labels system.now }
    ensures { IfOk result (λ word. word ≡ symbol_word system.now sym) }
{
    let words = Words {
        parts: system.parts(),
        labels: table.labels.as_slice(),
    };
    symbol_word(alloc, sym, &words)
}
