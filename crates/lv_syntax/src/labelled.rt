//! Items with temporal formulas: labels, witnesses, the property.
ghost use Rattle.std.specs.Prelude.{◌≡◌, ◌∷◌, [], codes, reverse, IfOk};
ghost use Rattle.lv_fault.specs.Given.{Gives};
ghost use Rattle.lv_fault.specs.Seen.{headed_seen};
ghost use Rattle.lv_grammar.specs.Rules.{table_behind};
ghost use Rattle.lv_grammar.specs.ReadItems.{always_in, label_checked, label_item, place_of_first, one_pair, witness_item, property_item, scope_of, ranges_of};
ghost use Rattle.lv_syntax.specs.Parameters.{params_seen, param_seen, opening_seen, IsLabelled};

use crate::labelling::{check_free, keys_over, own_number, own_sorts, read_path};
use crate::parameters::{Opening, name, open, sorts_of_parameters};
use lv_fault::trees::{HeadedList, finish, head, list, next, place, refuse_if};
use lv_fault::{Kind, ReadText};
use lv_formula::{List, SortId, Temporal};
use lv_grammar::reading::Role;
use lv_labels::{KnownKeys, free_variables};
use lv_system::{LabelDecl, WitnessDecl, same_bytes};
use lv_tree::Tree;
use lv_words::known::{Known, text_of};
use lv_words::names::{new_variable, sort};
use lv_words::scope::{Parameter, Scope};
use std::alloc::Global;

/// A declaration with the number of its label and the sorts of the label's free variables, and the table of labels with
/// its labels.
#[derive(Debug, Drop)]
pub(crate) struct Labelled {
    pub(crate) label: LabelDecl,
    pub(crate) number: u32,
    pub(crate) sorts: List<SortId>,
    pub(crate) table: KnownKeys,
}

/// `(always T)`
#[tactic(auto, unfolding(lv_grammar::specs::ReadItems::always_in))]
fn read_always(
    alloc: Global,
    known: &Known,
    params: &[Parameter],
    tree: &Tree,
) -> Result<(Temporal, KnownKeys), ReadText>
    ensures always { Gives (λ x. x.0) result (always_in known.now (scope_of (params_seen params.now)) tree.now) }
    ensures table { IfOk result (λ x. x.1 ≡ table_behind known.now (reverse (ranges_of (params_seen params.now))) x.0) }
{
    let list = head(tree)?;
    let is_other = !same_bytes(list.word.text, b"always");
    refuse_if(is_other, Kind::Unexpected, list.word.at)?;
    read_path(alloc, known, Role::Path, params, tree)
}

/// The declaration, where no earlier one has its label and the listed variables are the free ones. The table is the one
/// with the formula's labels.
#[tactic(auto, unfolding(lv_grammar::specs::ReadItems::label_checked))]
fn checked_label(
    alloc: Global,
    known: &Known,
    name_at: u32,
    opening: &Opening,
    formula: Temporal,
    table: KnownKeys,
) -> Result<Labelled, ReadText>
    requires { table ≡ table_behind known.now (reverse (ranges_of (params_seen opening.now.params))) formula }
    ensures label { Gives (λ x. x.label) result (label_checked known.now name_at (opening_seen opening.now) formula) }
    ensures labelled { IfOk result (IsLabelled known.now) }
{
    let params = opening.params.as_slice();
    let keys = keys_over(alloc, &formula, params)?;
    let number = own_number(&table, keys.as_slice());
    refuse_if(known.has_label(number), Kind::TwiceNamed, name_at)?;
    let free = free_variables(alloc, &formula)?;
    check_free(params, params.len() as u32, free.as_slice())?;
    let label = LabelDecl {
        name: text_of(alloc, opening.name)?,
        params: sorts_of_parameters(alloc, params)?,
        formula,
    };
    Ok(Labelled {
        label,
        number,
        sorts: own_sorts(alloc, keys.as_slice())?,
        table,
    })
}

/// The place of the first item, or of the bracket where there is none.
fn first_place(end: u32, items: &[Tree]) -> u32
    ensures { result ≡ place_of_first end items.now }
{
    match items {
        [first, ..] => place(first),
        [] => end,
    }
}

/// `(label NAME (VAR SORT ..) (always T))`
#[tactic(auto, unfolding(lv_grammar::specs::ReadItems::label_item))]
pub(crate) fn read_label(
    alloc: Global,
    known: &Known,
    list: &HeadedList,
) -> Result<Labelled, ReadText>
    ensures label { Gives (λ x. x.label) result (label_item known.now (headed_seen list.now)) }
    ensures labelled { IfOk result (IsLabelled known.now) }
{
    let opening = open(alloc, known, list.end, list.rest)?;
    let (first, rest) = next(list.end, opening.rest)?;
    let (f, table) = read_always(alloc, known, opening.params.as_slice(), first)?;
    let name_at = first_place(list.end, list.rest);
    let label = checked_label(alloc, known, name_at, &opening, f, table)?;
    finish(rest)?;
    Ok(label)
}

/// `(VAR SORT)`, and nothing more.
#[tactic(auto, unfolding(lv_grammar::specs::ReadItems::one_pair))]
fn pair<'a>(known: &Known, tree: &'a Tree) -> Result<Parameter<'a>, ReadText>
    ensures { Gives (λ x. (param_seen x).variable) result (one_pair known.now tree.now) }
{
    let inside = list(tree)?;
    let (first, rest) = next(inside.end, inside.items)?;
    let name = new_variable(&Scope::Empty, first)?;
    let (second, rest) = next(inside.end, rest)?;
    let sort = sort(known, second)?;
    finish(rest)?;
    Ok(Parameter {
        at: place(first),
        name,
        sort,
    })
}

/// `(witness NAME (VAR SORT) T)`, with the table of labels
#[tactic(auto, unfolding(lv_grammar::specs::ReadItems::witness_item))]
pub(crate) fn read_witness(
    alloc: Global,
    known: &Known,
    list: &HeadedList,
) -> Result<(WitnessDecl, KnownKeys), ReadText>
    ensures witness { Gives (λ x. x.0) result (witness_item known.now (headed_seen list.now)) }
    ensures table { IfOk result (λ x. x.1 ≡ table_behind known.now (x.0.sort ∷ []) x.0.formula) }
{
    let (name, rest) = name(known, list.end, list.rest)?;
    let (second, rest) = next(list.end, rest)?;
    let variable = pair(known, second)?;
    let (third, rest) = next(list.end, rest)?;
    let (formula, table) = read_path(alloc, known, Role::Witness, &[variable], third)?;
    finish(rest)?;
    let witness = WitnessDecl {
        name: text_of(alloc, name)?,
        sort: variable.sort,
        formula,
    };
    Ok((witness, table))
}

/// `(property T)`, with the table of labels
#[tactic(auto, unfolding(lv_grammar::specs::ReadItems::property_item))]
pub(crate) fn read_property(
    alloc: Global,
    known: &Known,
    list: &HeadedList,
) -> Result<(Temporal, KnownKeys), ReadText>
    ensures property { Gives (λ x. x.0) result (property_item known.now (headed_seen list.now)) }
    ensures table { IfOk result (λ x. x.1 ≡ table_behind known.now [] x.0) }
{
    let (first, rest) = next(list.end, list.rest)?;
    let found = read_path(alloc, known, Role::Path, &[], first)?;
    finish(rest)?;
    Ok(found)
}
