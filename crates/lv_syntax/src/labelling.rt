//! The labels of formulas, with the limits that are found once a formula is read.
ghost use Rattle.std.specs.Prelude.{◌≡◌, ◌++◌, IfOk, OnOk, drop, map, reverse};
ghost use Rattle.lv_labels.specs.Labels.{keys_of};
ghost use Rattle.lv_fault.specs.Given.{Gives};
ghost use Rattle.lv_grammar.specs.Labelling.{marked, is_operator_word, begins_operator, operator_places, operator_places_all, first_of, add_labels, path_in, free_name};
ghost use Rattle.lv_grammar.specs.Rules.{own_number, own_sorts, table_behind};
ghost use Rattle.lv_grammar.specs.ReadFormulas.{temporal_in};
ghost use Rattle.lv_grammar.specs.ReadItems.{scope_of, ranges_of, places_of};
ghost use Rattle.lv_syntax.specs.Parameters.{params_seen};

use crate::declarations::ROOM;
use crate::parameters::sorts_of_parameters;
use lv_fault::trees::{refusal, refuse_if};
use lv_fault::{Kind, ReadText};
use lv_formula::{List, Memory, Scope as Context, SortId, Temporal};
use lv_grammar::reading::Role;
use lv_labels::{Key, KnownKeys, copied};
use lv_system::same_bytes;
use lv_tree::Tree;
use lv_words::formulas::read_temporal;
use lv_words::known::Known;
use lv_words::scope::{Parameter, Scope};
use lv_words::symbols::Setting;
use std::alloc::Global;

fn is_operator(tree: &Tree) -> bool
    ensures { result ≡ is_operator_word (marked tree.now).word }
{
    match tree {
        Tree::Word { at: _, text } => {
            same_bytes(text.as_slice(), b"always") || same_bytes(text.as_slice(), b"eventually")
        }
        Tree::Group {
            at: _,
            end: _,
            items: _,
        } => false,
    }
}

fn begins_with_operator(items: &[Tree]) -> bool
    ensures { result ≡ begins_operator (map marked items.now) }
{
    match items {
        [first, ..] => is_operator(first),
        [] => false,
    }
}

/// Adds the places of the lists that begin with a temporal operator, an outer one before those inside it.
#[cycle(places)]
fn push_places(tree: &Tree, places: &mut Vec<u32>) -> Result<(), Memory>
    ensures { OnOk result (places.new.items ≡ places.old.items ++ operator_places tree.now) }
{
    match tree {
        Tree::Word { at: _, text: _ } => Ok(()),
        Tree::Group { at, end: _, items } => {
            if begins_with_operator(items.as_slice()) {
                places.push(*at)?;
            }
            push_all_places(items.as_slice(), places)
        }
    }
}

#[cycle(places)]
fn push_all_places(items: &[Tree], places: &mut Vec<u32>) -> Result<(), Memory>
    ensures { OnOk result (places.new.items ≡ places.old.items ++ operator_places_all items.now) }
{
    for item in items {
        push_places(item, places)?;
    }
    Ok(())
}

/// The first place, 0 where there is none, and the places behind it.
fn split_first(places: &[u32]) -> (u32, &[u32])
    ensures first { result.0 ≡ first_of places.now }
    ensures rest { result.1.now ≡ drop 1 places.now }
{
    match places {
        [] => (0, places),
        [first, rest @ ..] => (*first, rest),
    }
}

/// The labels that are known, and behind them those of a formula, each once. A label with five free
/// variables is one too many, and so is the 33rd.
#[tactic(auto, unfolding(lv_grammar::specs::Labelling::add_labels))]
fn with_keys(
    alloc: Global,
    mut known: KnownKeys,
    places: &[u32],
    keys: &[Key],
) -> Result<KnownKeys, ReadText>
    ensures { Gives (λ x. x) result (add_labels known places.now keys.now) }
{
    match keys {
        [] => Ok(known),
        [key, keys @ ..] => {
            known.add(key.share(alloc)?)?;
            let (at, places) = split_first(places);
            let wide = key.sorts.as_slice().len() > 4;
            refuse_if(wide || known.len() > 32, Kind::TooMany, at)?;
            with_keys(alloc, known, places, keys)
        }
    }
}

/// The labels of a formula over parameters, in order of text.
pub(crate) fn keys_over(
    alloc: Global,
    f: &Temporal,
    params: &[Parameter],
) -> Result<List<Key>, Memory>
    ensures { IfOk result (λ keys. keys ≡ keys_of f.now (reverse (ranges_of (params_seen params.now)))) }
{
    let sorts = sorts_of_parameters(alloc, params)?;
    lv_labels::keys_of(alloc, f, &Context::Outer(sorts.as_slice()))
}

fn operators(alloc: Global, tree: &Tree) -> Result<Vec<u32>, Memory>
    ensures { IfOk result (λ places. places.items ≡ operator_places tree.now) }
{
    let mut places = Vec::new(alloc);
    push_places(tree, &mut places)?;
    Ok(places)
}

#[tactic(auto, using(crate::proofs::ScopeLaws::scope_same))]
fn temporal_over(
    alloc: Global,
    setting: &Setting,
    params: &[Parameter],
    tree: &Tree,
) -> Result<Temporal, ReadText>
    ensures { Gives (λ x. x) result (temporal_in setting.now.known.now setting.now.role 58 (scope_of (params_seen params.now)) tree.now) }
{
    let outer = Scope::Empty;
    read_temporal(alloc, setting, ROOM, &Scope::Listed(&*params, &outer), tree)
}

/// A temporal formula over parameters, and the table of labels with its labels.
#[tactic(auto, using(crate::proofs::ScopeLaws::scope_sorts, crate::proofs::LabelLaws::table_is), unfolding(lv_grammar::specs::Labelling::path_in))]
pub(crate) fn read_path(
    alloc: Global,
    known: &Known,
    role: Role,
    params: &[Parameter],
    tree: &Tree,
) -> Result<(Temporal, KnownKeys), ReadText>
    ensures path { Gives (λ x. x.0) result (path_in known.now role (scope_of (params_seen params.now)) tree.now) }
    ensures table { IfOk result (λ x. x.1 ≡ table_behind known.now (reverse (ranges_of (params_seen params.now))) x.0) }
{
    let setting = Setting { known, role };
    let f = temporal_over(alloc, &setting, params, tree)?;
    let places = operators(alloc, tree)?;
    let keys = keys_over(alloc, &f, params)?;
    let table = with_keys(
        alloc,
        known.keys().copy(alloc)?,
        places.as_slice(),
        keys.as_slice(),
    )?;
    Ok((f, table))
}

/// The number of the formula's own label in the table, which is the first of its labels.
pub(crate) fn own_number(table: &KnownKeys, keys: &[Key]) -> u32
    ensures { result ≡ own_number table.now keys.now }
{
    match keys {
        [] => 0,
        [own, ..] => table.number(own),
    }
}

/// The sorts of the free variables of the formula's own label.
pub(crate) fn own_sorts(alloc: Global, keys: &[Key]) -> Result<List<SortId>, Memory>
    ensures { IfOk result (λ sorts. sorts ≡ own_sorts keys.now) }
{
    match keys {
        [] => copied(alloc, &[]),
        [own, ..] => copied(alloc, own.sorts.as_slice()),
    }
}

/// That the listed variables are the free ones, so many of them.
#[tactic(auto, unfolding(lv_grammar::specs::Labelling::free_name))]
pub(crate) fn check_free(params: &[Parameter], number: u32, free: &[u32]) -> Result<(), ReadText>
    ensures { Gives (λ x. x) result (free_name (places_of (params_seen params.now)) number free.now) }
{
    match params {
        [] => Ok(()),
        [first, params @ ..] => match free {
            [] => Err(refusal(Kind::FreeName, first.at)),
            [variable, free @ ..] => {
                if number == 0 {
                    return Err(refusal(Kind::FreeName, first.at));
                }
                refuse_if(*variable != number - 1, Kind::FreeName, first.at)?;
                check_free(params, number - 1, free)
            }
        },
    }
}
