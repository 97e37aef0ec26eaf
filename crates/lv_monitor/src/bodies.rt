//! Formulas over the places of a tuple.
ghost use Rattle.std.specs.Prelude.{◌≡◌, ◌++◌, IfOk, OnOk, get_or, length, map, reverse};
ghost use Rattle.lv_footprint.specs.Footprint as footprint;
ghost use Rattle.lv_system.specs.Step.{sorts_at};
ghost use Rattle.lv_labels.specs.Problem.{no_condition};
ghost use Rattle.lv_labels.specs.Rows.{condition_of};
ghost use Rattle.lv_monitor.specs.Naming.{member_of};
ghost use Rattle.lv_monitor.specs.Updates as updates;

use crate::naming::ElementSet;
use lv_footprint::first_touched;
use lv_formula::{Formula, Memory, SortId, Sym, Term, atom};
use lv_labels::{Justice, number, push_variables, tuple_variables};
use lv_rewrite::instantiate;
use lv_system::{Action, Parts, Shape};
use std::alloc::Global;

/// The relation for the tuple itself.
pub(crate) fn itself(alloc: Global, sym: Sym, sorts: &[SortId]) -> Result<Formula, Memory>
    ensures { IfOk result (λ f. f ≡ updates.itself sym sorts.now) }
{
    Ok(Formula::Atom(sym, tuple_variables(alloc, sorts)?))
}

/// The term is in the set of the kept or of the touched elements.
pub(crate) fn member(
    alloc: Global,
    set: ElementSet,
    sort: SortId,
    term: Term,
) -> Result<Formula, Memory>
    ensures { IfOk result (λ f. f ≡ member_of set sort term) }
{
    atom(alloc, set.word(sort), &[term])
}

/// Adds for each place of a tuple that it is in the set.
pub(crate) fn push_members(
    alloc: Global,
    set: ElementSet,
    sorts: &[SortId],
    places: &mut Vec<Formula>,
) -> Result<(), Memory>
    ensures { OnOk result (places.new.items ≡ places.old.items ++ updates.at_places (member_of set) sorts.now) }
{
    match sorts {
        [sort, rest @ ..] => {
            let place = Term::Var(number(rest.len())?);
            places.push(member(alloc, set, *sort, place)?)?;
            push_members(alloc, set, rest, places)
        }
        [] => Ok(()),
    }
}

/// Adds for each place of a tuple that it is touched at the start.
pub(crate) fn push_first(
    alloc: Global,
    parts: &Parts,
    sorts: &[SortId],
    places: &mut Vec<Formula>,
) -> Result<(), Memory>
    ensures { OnOk result (places.new.items ≡ places.old.items ++ updates.at_places (footprint.first_touched parts.now) sorts.now) }
{
    match sorts {
        [sort, rest @ ..] => {
            let place = Term::Var(number(rest.len())?);
            places.push(first_touched(alloc, parts, *sort, place)?)?;
            push_first(alloc, parts, rest, places)
        }
        [] => Ok(()),
    }
}

/// The formula, which stands in the action's parameters followed by a tuple's places, with the words of the parameters
/// in place of them. The error is want of memory, also where a variable's number would pass the greatest `u32`.
pub fn with_params(
    alloc: Global,
    action: &Action,
    sorts: &[SortId],
    body: &Formula,
) -> Result<Formula, Memory>
    ensures { IfOk result (λ f. f ≡ updates.with_params action.now sorts.now body.now) }
{
    let mut terms = Vec::new(alloc);
    push_params(action.params.as_slice(), 0, &mut terms)?;
    push_variables(sorts, &mut terms)?;
    terms.reverse();
    instantiate(alloc, body, terms.as_slice())
}

/// Adds the words of the parameters, of which the first has the number k.
fn push_params(params: &[SortId], k: usize, terms: &mut Vec<Term>) -> Result<(), Memory>
    ensures { OnOk result (terms.new.items ≡ terms.old.items ++ updates.param_terms k params.now) }
{
    match params {
        [_, rest @ ..] => {
            let word = Sym::Param(number(k)?);
            terms.push(Term::Const(word))?;
            push_params(rest, k.saturating_add(1), terms)
        }
        [] => Ok(()),
    }
}

/// The sorts of the symbol's arguments; a constant has none.
pub(crate) fn argument_sorts(parts: &Parts, symbol: u32) -> &[SortId]
    ensures { result.now ≡ sorts_at parts.now symbol }
{
    let symbol = symbol as usize;
    let symbols = parts.symbols.as_slice();
    if symbol < symbols.len() {
        match &symbols[symbol].shape {
            Shape::Relation(sorts) => sorts.as_slice(),
            Shape::Constant(_) => &[],
        }
    } else {
        &[]
    }
}

/// The justice condition with that number.
#[tactic(auto, using(crate::proofs::WordsMade::condition_at, crate::proofs::WordsMade::condition_past))]
pub(crate) fn condition(alloc: Global, justice: &[Justice], j: u32) -> Result<Formula, Memory>
    ensures { IfOk result (λ f. f ≡ (get_or (map condition_of justice.now) j no_condition).body) }
{
    let j = j as usize;
    if j < justice.len() {
        justice[j].condition.share(alloc)
    } else {
        Ok(Formula::True)
    }
}
