//! The kinds of items of a system.
ghost use Rattle.std.specs.Prelude.{◌≡◌};
ghost use Rattle.lv_fault.specs.Given.{Gives};
ghost use Rattle.lv_fault.specs.Seen.{headed_seen};
ghost use Rattle.lv_grammar.specs.Reading.{symbol_item};

use crate::declarations::{
    lone_closed, read_constant, read_fair, read_invariant, read_relation, read_sort,
};
use crate::labelled::{Labelled, read_label, read_property, read_witness};
use crate::sections::{Items, begins_with};
use crate::updates::read_action;
use lv_fault::ReadText;
use lv_fault::trees::{HeadedList, head};
use lv_formula::{Formula, Temporal};
use lv_grammar::reading::Role;
use lv_system::{Action, Fair, Invariant, LabelDecl, Sort, Symbol, WitnessDecl, same_bytes};
use lv_tree::Tree;
use lv_words::known::Known;
use std::alloc::Global;

pub(crate) struct Sorts;

impl Items for Sorts {
    ghost use Rattle.lv_grammar.specs.Reading.{sort_kind};

    type Item = Sort;

    ghost kind = { sort_kind };

    fn begins(tree: &Tree) -> bool {
        begins_with(b"sort", tree)
    }

    fn next(alloc: Global, known: &mut Known, tree: &Tree) -> Result<Sort, ReadText> {
        let list = head(tree)?;
        let sort = read_sort(alloc, &*known, &list)?;
        known.add_sort(alloc, &sort)?;
        Ok(sort)
    }
}

/// Relations and constants, which may be mixed.
pub(crate) struct Symbols;

fn read_symbol(alloc: Global, known: &Known, list: &HeadedList) -> Result<Symbol, ReadText>
    ensures { Gives (λ x. x) result (symbol_item known.now (headed_seen list.now)) }
{
    if same_bytes(list.word.text, b"relation") {
        read_relation(alloc, known, list)
    } else {
        read_constant(alloc, known, list)
    }
}

impl Items for Symbols {
    ghost use Rattle.lv_grammar.specs.Reading.{symbol_kind};

    type Item = Symbol;

    ghost kind = { symbol_kind };

    fn begins(tree: &Tree) -> bool {
        begins_with(b"relation", tree) || begins_with(b"constant", tree)
    }

    fn next(alloc: Global, known: &mut Known, tree: &Tree) -> Result<Symbol, ReadText> {
        let list = head(tree)?;
        let symbol = read_symbol(alloc, &*known, &list)?;
        known.add_symbol(alloc, &symbol)?;
        Ok(symbol)
    }
}

pub(crate) struct Axioms;

impl Items for Axioms {
    ghost use Rattle.lv_grammar.specs.Reading.{axiom_kind};

    type Item = Formula;

    ghost kind = { axiom_kind };

    fn begins(tree: &Tree) -> bool {
        begins_with(b"axiom", tree)
    }

    fn next(alloc: Global, known: &mut Known, tree: &Tree) -> Result<Formula, ReadText> {
        let list = head(tree)?;
        lone_closed(alloc, &*known, Role::Axiom, list.end, list.rest)
    }
}

pub(crate) struct Inits;

impl Items for Inits {
    ghost use Rattle.lv_grammar.specs.Reading.{init_kind};

    type Item = Formula;

    ghost kind = { init_kind };

    fn begins(tree: &Tree) -> bool {
        begins_with(b"init", tree)
    }

    fn next(alloc: Global, known: &mut Known, tree: &Tree) -> Result<Formula, ReadText> {
        let list = head(tree)?;
        lone_closed(alloc, &*known, Role::State, list.end, list.rest)
    }
}

pub(crate) struct Actions;

impl Items for Actions {
    ghost use Rattle.lv_grammar.specs.Reading.{action_kind};

    type Item = Action;

    ghost kind = { action_kind };

    fn begins(tree: &Tree) -> bool {
        begins_with(b"action", tree)
    }

    fn next(alloc: Global, known: &mut Known, tree: &Tree) -> Result<Action, ReadText> {
        let list = head(tree)?;
        let action = read_action(alloc, &*known, &list)?;
        known.add_action(alloc, &action)?;
        Ok(action)
    }
}

pub(crate) struct Fairs;

impl Items for Fairs {
    ghost use Rattle.lv_grammar.specs.Reading.{fair_kind};

    type Item = Fair;

    ghost kind = { fair_kind };

    fn begins(tree: &Tree) -> bool {
        begins_with(b"fair", tree)
    }

    fn next(alloc: Global, known: &mut Known, tree: &Tree) -> Result<Fair, ReadText> {
        let list = head(tree)?;
        let fair = read_fair(alloc, &*known, &list)?;
        known.add_fair(alloc, &fair)?;
        Ok(fair)
    }
}

pub(crate) struct Labels;

impl Items for Labels {
    ghost use Rattle.lv_grammar.specs.Reading.{label_kind};

    type Item = LabelDecl;

    ghost kind = { label_kind };

    fn begins(tree: &Tree) -> bool {
        begins_with(b"label", tree)
    }

    fn next(alloc: Global, known: &mut Known, tree: &Tree) -> Result<LabelDecl, ReadText> {
        let list = head(tree)?;
        let Labelled {
            label,
            number,
            sorts,
            table,
        } = read_label(alloc, &*known, &list)?;
        known.add_label(alloc, label.name.as_slice(), number, sorts)?;
        known.set_keys(table);
        Ok(label)
    }
}

pub(crate) struct Witnesses;

impl Items for Witnesses {
    ghost use Rattle.lv_grammar.specs.Reading.{witness_kind};

    type Item = WitnessDecl;

    ghost kind = { witness_kind };

    fn begins(tree: &Tree) -> bool {
        begins_with(b"witness", tree)
    }

    fn next(alloc: Global, known: &mut Known, tree: &Tree) -> Result<WitnessDecl, ReadText> {
        let list = head(tree)?;
        let (witness, table) = read_witness(alloc, &*known, &list)?;
        known.add_witness(alloc, &witness)?;
        known.set_keys(table);
        Ok(witness)
    }
}

pub(crate) struct Properties;

impl Items for Properties {
    ghost use Rattle.lv_grammar.specs.Reading.{property_kind};

    type Item = Temporal;

    ghost kind = { property_kind };

    fn begins(tree: &Tree) -> bool {
        begins_with(b"property", tree)
    }

    fn next(alloc: Global, known: &mut Known, tree: &Tree) -> Result<Temporal, ReadText> {
        let list = head(tree)?;
        let (property, table) = read_property(alloc, &*known, &list)?;
        known.set_keys(table);
        Ok(property)
    }
}

pub(crate) struct Invariants;

impl Items for Invariants {
    ghost use Rattle.lv_grammar.specs.Reading.{invariant_kind};

    type Item = Invariant;

    ghost kind = { invariant_kind };

    fn begins(tree: &Tree) -> bool {
        begins_with(b"invariant", tree)
    }

    fn next(alloc: Global, known: &mut Known, tree: &Tree) -> Result<Invariant, ReadText> {
        let list = head(tree)?;
        let invariant = read_invariant(alloc, &*known, &list)?;
        known.add_invariant(alloc, &invariant)?;
        Ok(invariant)
    }
}
