//! The vocabularies of the monitored structure.
ghost use Rattle.std.specs.Prelude.{◌≡◌, ◌∷◌, ◌++◌, [], IfOk, OnOk, length, map};
ghost use Rattle.lv_formula.specs.declared.symbols.Sym.TheVariants as S;
ghost use Rattle.lv_system.specs.Vocabularies.{names_from, witness_names};
ghost use Rattle.lv_labels.specs.Problem as problem;
ghost use Rattle.lv_labels.specs.Rows.{IsTableOf, condition_of};
ghost use Rattle.lv_labels.specs.Vocabularies as words;
ghost use Rattle.lv_monitor.specs.Naming.{added_order, name_of, test_of};

use crate::naming::{Listed, Naming};
use crate::shapes::{
    catch_constants, catch_relations, push_constants, push_labels, push_relations, push_witnesses,
};
use lv_formula::{ConShape, List, Memory, RelShape, SortId, Sym, Vocabulary};
use lv_labels::{Justice, LabelTable, number};
use lv_system::{Action, Parts, Symbol, WitnessDecl};
use std::alloc::Global;

fn push_symbols(
    naming: Naming,
    listed: Listed,
    symbols: &[Symbol],
    names: &mut Vec<Sym>,
) -> Result<(), Memory>
    ensures { OnOk result (names.new.items ≡ names.old.items ++ names_from (test_of listed) (name_of naming) 0 symbols.now) }
{
    for (n, symbol) in symbols.iter().enumerate() {
        if listed.has(symbol) {
            names.push(naming.name(number(n)?))?;
        }
    }
    Ok(())
}

fn push_witness_names(witnesses: &[WitnessDecl], names: &mut Vec<Sym>) -> Result<(), Memory>
    ensures { OnOk result (names.new.items ≡ names.old.items ++ witness_names 0 witnesses.now) }
{
    for (k, _) in witnesses.iter().enumerate() {
        names.push(Sym::Witness(number(k)?))?;
    }
    Ok(())
}

/// Adds a name for each item.
fn push_names<T>(naming: Naming, items: &[T], names: &mut Vec<Sym>) -> Result<(), Memory>
    ensures { OnOk result (names.new.items ≡ names.old.items ++ problem.names_for (name_of naming) 0 items.now) }
{
    for (n, _) in items.iter().enumerate() {
        names.push(naming.name(number(n)?))?;
    }
    Ok(())
}

/// The own symbols, the witnesses and the labels: what a labelled run has at each position. The error is want of
/// memory.
#[tactic(auto, using(crate::proofs::WordsMade::rows_are_labels, crate::proofs::VocabulariesMade::all_declared))]
pub fn state_vocabulary(
    alloc: Global,
    parts: &Parts,
    table: &LabelTable,
) -> Result<Vocabulary, Memory>
    requires { IsTableOf parts.now table.now }
    ensures { IfOk result (λ voc. voc ≡ problem.state_vocabulary (problem.problem_of parts.now)) }
{
    let symbols = parts.symbols.as_slice();
    let mut relations = Vec::new(alloc);
    push_relations(alloc, Naming::Own, Listed::All, symbols, &mut relations)?;
    push_labels(
        alloc,
        Naming::Label,
        table.labels.as_slice(),
        &mut relations,
    )?;
    let mut constants = Vec::new(alloc);
    push_constants(Naming::Own, Listed::All, symbols, &mut constants)?;
    push_witnesses(parts.witnesses.as_slice(), &mut constants)?;
    let mut order = Vec::new(alloc);
    push_state_order(parts, table, &mut order)?;
    vocabulary(parts, relations, constants, order)
}

fn vocabulary(
    parts: &Parts,
    relations: Vec<RelShape>,
    constants: Vec<ConShape>,
    order: Vec<Sym>,
) -> Result<Vocabulary, Memory>
    ensures { IfOk result (λ voc. voc ≡ record { sorts = length parts.now.sorts; relations = relations.items; constants = constants.items; order = order.items }) }
{
    Ok(Vocabulary {
        sorts: number(parts.sorts.as_slice().len())?,
        relations: List::from_vec(relations),
        constants: List::from_vec(constants),
        order: List::from_vec(order),
    })
}

#[tactic(auto, using(crate::proofs::VocabulariesMade::all_witnesses))]
fn push_state_order(parts: &Parts, table: &LabelTable, order: &mut Vec<Sym>) -> Result<(), Memory>
    requires { IsTableOf parts.now table.now }
    ensures { OnOk result (order.new.items ≡ order.old.items ++ (problem.state_vocabulary (problem.problem_of parts.now)).order) }
{
    push_symbols(Naming::Own, Listed::All, parts.symbols.as_slice(), order)?;
    push_witness_names(parts.witnesses.as_slice(), order)?;
    push_label_names(Naming::Label, parts, table, order)
}

/// Adds a name for each label.
fn push_label_names(
    naming: Naming,
    parts: &Parts,
    table: &LabelTable,
    names: &mut Vec<Sym>,
) -> Result<(), Memory>
    requires { IsTableOf parts.now table.now }
    ensures { OnOk result (names.new.items ≡ names.old.items ++ problem.names_for (name_of naming) 0 (problem.problem_of parts.now).labels) }
{
    push_names(naming, table.labels.as_slice(), names)
}

/// Adds the name of what is due for each justice condition.
fn push_due_names(parts: &Parts, justice: &[Justice], names: &mut Vec<Sym>) -> Result<(), Memory>
    requires { map condition_of justice.now ≡ (problem.problem_of parts.now).justice }
    ensures { OnOk result (names.new.items ≡ names.old.items ++ problem.names_for S.Due 0 (problem.problem_of parts.now).justice) }
{
    push_names(Naming::Due, justice, names)
}

/// Adds the names of what the monitor adds, in order.
fn push_added_order(
    parts: &Parts,
    table: &LabelTable,
    justice: &[Justice],
    order: &mut Vec<Sym>,
) -> Result<(), Memory>
    requires table { IsTableOf parts.now table.now }
    requires justice { map condition_of justice.now ≡ (problem.problem_of parts.now).justice }
    ensures { OnOk result (order.new.items ≡ order.old.items ++ added_order (problem.problem_of parts.now)) }
{
    order.push(Sym::Frozen)?;
    order.push(Sym::Saved)?;
    push_names(Naming::Touched, parts.sorts.as_slice(), order)?;
    push_names(Naming::Kept, parts.sorts.as_slice(), order)?;
    push_due_names(parts, justice, order)?;
    push_symbols(
        Naming::Copy,
        Listed::Changing,
        parts.symbols.as_slice(),
        order,
    )?;
    push_label_names(Naming::CopyLabel, parts, table, order)
}

/// The words of the monitored structure. The error is want of memory.
pub fn catch_vocabulary(
    alloc: Global,
    parts: &Parts,
    table: &LabelTable,
    justice: &[Justice],
) -> Result<Vocabulary, Memory>
    requires table { IsTableOf parts.now table.now }
    requires justice { map condition_of justice.now ≡ (problem.problem_of parts.now).justice }
    ensures { IfOk result (λ voc. voc ≡ words.catch_vocabulary (problem.problem_of parts.now)) }
{
    let relations = catch_relations(alloc, parts, table, justice)?;
    let constants = catch_constants(alloc, parts)?;
    let mut order = Vec::new(alloc);
    push_state_order(parts, table, &mut order)?;
    push_added_order(parts, table, justice, &mut order)?;
    vocabulary(parts, relations, constants, order)
}

/// The same, with the action's parameters and the next value of each label. The error is want of memory.
#[tactic(auto, using(crate::proofs::WordsMade::rows_are_labels))]
pub fn step_vocabulary(
    alloc: Global,
    parts: &Parts,
    table: &LabelTable,
    justice: &[Justice],
    action: &Action,
) -> Result<Vocabulary, Memory>
    requires table { IsTableOf parts.now table.now }
    requires justice { map condition_of justice.now ≡ (problem.problem_of parts.now).justice }
    ensures { IfOk result (λ voc. voc ≡ words.step_vocabulary (problem.problem_of parts.now) action.now) }
{
    let labels = table.labels.as_slice();
    let params = action.params.as_slice();
    let mut relations = catch_relations(alloc, parts, table, justice)?;
    push_labels(alloc, Naming::Next, labels, &mut relations)?;
    let mut constants = catch_constants(alloc, parts)?;
    push_params(params, 0, &mut constants)?;
    let mut order = Vec::new(alloc);
    push_state_order(parts, table, &mut order)?;
    push_added_order(parts, table, justice, &mut order)?;
    push_step_order(parts, table, params, &mut order)?;
    vocabulary(parts, relations, constants, order)
}

fn push_step_order(
    parts: &Parts,
    table: &LabelTable,
    params: &[SortId],
    order: &mut Vec<Sym>,
) -> Result<(), Memory>
    requires { IsTableOf parts.now table.now }
    ensures { OnOk result (order.new.items ≡ order.old.items ++ (problem.names_for S.Param 0 params.now ++ problem.names_for S.Next 0 (problem.problem_of parts.now).labels)) }
{
    push_names(Naming::Param, params, order)?;
    push_label_names(Naming::Next, parts, table, order)
}

fn push_params(params: &[SortId], k: usize, constants: &mut Vec<ConShape>) -> Result<(), Memory>
    ensures { OnOk result (constants.new.items ≡ constants.old.items ++ words.params_from k params.now) }
{
    match params {
        [sort, rest @ ..] => {
            constants.push(ConShape {
                sym: Sym::Param(number(k)?),
                sort: *sort,
            })?;
            push_params(rest, k.saturating_add(1), constants)
        }
        [] => Ok(()),
    }
}
