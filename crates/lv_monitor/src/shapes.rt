//! The words of the monitored structure: its relations and constants, and the order in which they are written.
ghost use Rattle.std.specs.Prelude.{◌≡◌, ◌∷◌, ◌++◌, [], IfOk, OnOk, map};
ghost use Rattle.lv_formula.specs.declared.symbols.Sym.TheVariants as S;
ghost use Rattle.lv_system.specs.InvariantWords.{sets_from};
ghost use Rattle.lv_system.specs.Vocabularies.{constants_from, relations_from, witnesses_from};
ghost use Rattle.lv_labels.specs.Problem.{problem_of, shapes_from};
ghost use Rattle.lv_labels.specs.Rows.{IsTableOf, condition_of, row_condition};
ghost use Rattle.lv_monitor.specs.Naming.{name_of, set_of, test_of};
ghost use Rattle.lv_labels.specs.Vocabularies as words;

use crate::naming::{ElementSet, Listed, Naming};
use lv_formula::{ConShape, List, Memory, RelShape, SortId, Sym};
use lv_labels::{Justice, Label, LabelTable, copied, number};
use lv_system::{Parts, Shape, Sort, Symbol, WitnessDecl};
use std::alloc::Global;

pub(crate) fn push_relations(
    alloc: Global,
    naming: Naming,
    listed: Listed,
    symbols: &[Symbol],
    shapes: &mut Vec<RelShape>,
) -> Result<(), Memory>
    ensures { OnOk result (shapes.new.items ≡ shapes.old.items ++ relations_from (test_of listed) (name_of naming) 0 symbols.now) }
{
    for (n, symbol) in symbols.iter().enumerate() {
        if let Shape::Relation(sorts) = &symbol.shape {
            if listed.has(symbol) {
                shapes.push(RelShape {
                    sym: naming.name(number(n)?),
                    sorts: copied(alloc, sorts.as_slice())?,
                })?;
            }
        }
    }
    Ok(())
}

pub(crate) fn push_constants(
    naming: Naming,
    listed: Listed,
    symbols: &[Symbol],
    shapes: &mut Vec<ConShape>,
) -> Result<(), Memory>
    ensures { OnOk result (shapes.new.items ≡ shapes.old.items ++ constants_from (test_of listed) (name_of naming) 0 symbols.now) }
{
    for (n, symbol) in symbols.iter().enumerate() {
        if let Shape::Constant(sort) = &symbol.shape {
            if listed.has(symbol) {
                shapes.push(ConShape {
                    sym: naming.name(number(n)?),
                    sort: *sort,
                })?;
            }
        }
    }
    Ok(())
}

pub(crate) fn push_labels(
    alloc: Global,
    naming: Naming,
    labels: &[Label],
    shapes: &mut Vec<RelShape>,
) -> Result<(), Memory>
    ensures { OnOk result (shapes.new.items ≡ shapes.old.items ++ shapes_from (name_of naming) 0 (map row_condition labels.now)) }
{
    for (n, label) in labels.iter().enumerate() {
        shapes.push(RelShape {
            sym: naming.name(number(n)?),
            sorts: copied(alloc, label.sorts.as_slice())?,
        })?;
    }
    Ok(())
}

fn push_due(alloc: Global, justice: &[Justice], shapes: &mut Vec<RelShape>) -> Result<(), Memory>
    ensures { OnOk result (shapes.new.items ≡ shapes.old.items ++ shapes_from S.Due 0 (map condition_of justice.now)) }
{
    for (n, condition) in justice.iter().enumerate() {
        shapes.push(RelShape {
            sym: Sym::Due(number(n)?),
            sorts: copied(alloc, condition.sorts.as_slice())?,
        })?;
    }
    Ok(())
}

fn push_sets(
    alloc: Global,
    set: ElementSet,
    sorts: &[Sort],
    shapes: &mut Vec<RelShape>,
) -> Result<(), Memory>
    ensures { OnOk result (shapes.new.items ≡ shapes.old.items ++ sets_from (set_of set) 0 sorts.now) }
{
    for (n, _) in sorts.iter().enumerate() {
        let sort = SortId(number(n)?);
        shapes.push(RelShape {
            sym: set.word(sort),
            sorts: List::from_vec(vec![in alloc; sort]?),
        })?;
    }
    Ok(())
}

fn push_marks(alloc: Global, shapes: &mut Vec<RelShape>) -> Result<(), Memory>
    ensures { OnOk result (shapes.new.items ≡ shapes.old.items ++ (words.mark S.Frozen ∷ words.mark S.Saved ∷ [])) }
{
    shapes.push(mark(alloc, Sym::Frozen))?;
    shapes.push(mark(alloc, Sym::Saved))?;
    Ok(())
}

fn mark(alloc: Global, sym: Sym) -> RelShape
    ensures { result ≡ words.mark sym }
{
    RelShape {
        sym,
        sorts: List::from_vec(Vec::new(alloc)),
    }
}

/// The relations of the monitored structure.
#[tactic(auto, using(crate::proofs::WordsMade::relations_made))]
pub(crate) fn catch_relations(
    alloc: Global,
    parts: &Parts,
    table: &LabelTable,
    justice: &[Justice],
) -> Result<Vec<RelShape>, Memory>
    requires table { IsTableOf parts.now table.now }
    requires justice { map condition_of justice.now ≡ (problem_of parts.now).justice }
    ensures { IfOk result (λ rs. rs.items ≡ (words.catch_vocabulary (problem_of parts.now)).relations) }
{
    let symbols = parts.symbols.as_slice();
    let labels = table.labels.as_slice();
    let mut shapes = Vec::new(alloc);
    push_relations(alloc, Naming::Own, Listed::All, symbols, &mut shapes)?;
    push_labels(alloc, Naming::Label, labels, &mut shapes)?;
    push_marks(alloc, &mut shapes)?;
    push_sets(
        alloc,
        ElementSet::Touched,
        parts.sorts.as_slice(),
        &mut shapes,
    )?;
    push_sets(alloc, ElementSet::Kept, parts.sorts.as_slice(), &mut shapes)?;
    push_due(alloc, justice, &mut shapes)?;
    push_relations(alloc, Naming::Copy, Listed::Changing, symbols, &mut shapes)?;
    push_labels(alloc, Naming::CopyLabel, labels, &mut shapes)?;
    Ok(shapes)
}

pub(crate) fn push_witnesses(
    witnesses: &[WitnessDecl],
    shapes: &mut Vec<ConShape>,
) -> Result<(), Memory>
    ensures { OnOk result (shapes.new.items ≡ shapes.old.items ++ witnesses_from 0 witnesses.now) }
{
    for (k, witness) in witnesses.iter().enumerate() {
        shapes.push(ConShape {
            sym: Sym::Witness(number(k)?),
            sort: witness.sort,
        })?;
    }
    Ok(())
}

/// The constants of the monitored structure.
#[tactic(auto, using(crate::proofs::WordsMade::constants_made))]
pub(crate) fn catch_constants(alloc: Global, parts: &Parts) -> Result<Vec<ConShape>, Memory>
    ensures { IfOk result (λ cs. cs.items ≡ (words.catch_vocabulary (problem_of parts.now)).constants) }
{
    let symbols = parts.symbols.as_slice();
    let mut shapes = Vec::new(alloc);
    push_constants(Naming::Own, Listed::All, symbols, &mut shapes)?;
    push_witnesses(parts.witnesses.as_slice(), &mut shapes)?;
    push_constants(Naming::Copy, Listed::Changing, symbols, &mut shapes)?;
    Ok(shapes)
}
