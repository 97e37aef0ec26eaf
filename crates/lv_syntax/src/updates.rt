//! Actions, with their guards and updates.
ghost use Rattle.std.specs.Prelude.{◌≡◌, ◌++◌, [], codes, reverse, slice_get};
ghost use Rattle.lv_system.specs.Fits.{is_target};
ghost use Rattle.lv_fault.specs.Given.{Gives};
ghost use Rattle.lv_words.specs.Scopes.{scope_seen, variables_seen};
ghost use Rattle.lv_fault.specs.Seen.{headed_seen};
ghost use Rattle.lv_syntax.specs.Parameters.{params_seen, target_seen};
ghost use Rattle.lv_syntax.specs.Behind.{arguments_behind};
ghost use Rattle.lv_grammar.specs.ReadItems.{guard_in, target_symbol, target_in, arguments_in, relation_update, constant_update, update_in, updates_in, action_item, scope_of};

use crate::declarations::lone_over;
use crate::parameters::{open, sorts_of_parameters};
use lv_fault::trees::{HeadedList, finish, head, list, next, place, refusal, refuse_if, word};
use lv_fault::{Kind, ReadText};
use lv_formula::{Formula, List, SortId};
use lv_grammar::reading::{Family, Named, Role};
use lv_system::{Action, ActionUpdate, Shape, same_bytes};
use lv_tree::Tree;
use lv_words::growing::Growing;
use lv_words::known::{Known, text_of};
use lv_words::names::new_variable;
use lv_words::scope::{Parameter, Scope};
use lv_words::states::lone;
use lv_words::symbols::Setting;
use lv_words::terms::term_in_sort;
use lv_words::words::family_in;
use std::alloc::Global;

/// How deep the lists of a formula may nest in a guard or an update, one list further in than an item's.
const INNER_ROOM: u32 = 57;

/// `(guard F)`
#[tactic(auto, unfolding(lv_grammar::specs::ReadItems::guard_in))]
fn read_guard(
    alloc: Global,
    known: &Known,
    params: &[Parameter],
    tree: &Tree,
) -> Result<Formula, ReadText>
    ensures { Gives (λ x. x) result (guard_in known.now (scope_of (params_seen params.now)) tree.now) }
{
    let list = head(tree)?;
    let is_other = !same_bytes(list.word.text, b"guard");
    refuse_if(is_other, Kind::Unexpected, list.word.at)?;
    lone_over(alloc, known, INNER_ROOM, params, list.end, list.rest)
}

/// A symbol that is to be set.
#[derive(Clone, Copy, Debug, Drop)]
pub(crate) struct Target<'a> {
    pub(crate) symbol: u32,
    pub(crate) shape: &'a Shape,
}

fn is_set(symbol: u32, updates: &[ActionUpdate]) -> bool
    ensures { result ≡ is_target symbol updates.now }
{
    for update in updates {
        let (ActionUpdate::Relation {
            symbol: other,
            body: _,
        }
        | ActionUpdate::Constant {
            symbol: other,
            term: _,
        }) = update;
        if *other == symbol {
            return true;
        }
    }
    false
}

/// The symbol, where it changes and isn't set yet.
fn unset<'a>(
    done: &[ActionUpdate],
    at: u32,
    symbol: u32,
    shape: &'a Shape,
    fixed: bool,
) -> Result<Target<'a>, ReadText>
    ensures { Gives target_seen result (target_symbol done.now at symbol shape.now fixed) }
{
    refuse_if(fixed, Kind::IsFixed, at)?;
    refuse_if(is_set(symbol, done), Kind::SetTwice, at)?;
    Ok(Target { symbol, shape })
}

/// A changing symbol that isn't set yet.
#[tactic(auto, unfolding(lv_grammar::specs::ReadItems::target_in))]
fn target_in<'a>(
    known: &'a Known,
    done: &[ActionUpdate],
    tree: &Tree,
) -> Result<Target<'a>, ReadText>
    ensures { Gives target_seen result (target_in known.now done.now tree.now) }
{
    let word = word(tree)?;
    match family_in(word.text) {
        Family::Name => match known.named(word.text) {
            None => Err(refusal(Kind::UnknownName, word.at)),
            Some(Named::Symbol(n, shape, fixed)) => unset(done, word.at, *n, shape, *fixed),
            Some(_) => Err(refusal(Kind::Unexpected, word.at)),
        },
        Family::Frozen | Family::Saved | Family::Dotted | Family::Variable | Family::Other => {
            Err(refusal(Kind::Unexpected, word.at))
        }
    }
}

/// `VAR ..`, one for each sort, behind those that are done.
#[tactic(auto, using(crate::proofs::ScopeLaws::variables_more), unfolding(crate::specs::Behind::arguments_behind))]
fn arguments_after<'a>(
    scope: &Scope,
    mut done: Growing<Parameter<'a>>,
    sorts: &[SortId],
    end: u32,
    items: &'a [Tree],
) -> Result<Growing<Parameter<'a>>, ReadText>
    ensures { Gives variables_seen result (arguments_behind (scope_seen scope.now) (variables_seen done.entry) sorts.now end items.now) }
{
    match sorts {
        [] => {
            finish(items)?;
            Ok(done)
        }
        [sort, sorts @ ..] => {
            let (first, rest) = next(end, items)?;
            let name = new_variable(&Scope::Listed(done.as_slice(), &*scope), first)?;
            let at = place(first);
            done.push(Parameter {
                at,
                name,
                sort: *sort,
            })?;
            arguments_after(scope, done, sorts, end, rest)
        }
    }
}

/// `(VAR ..)`, one for each sort.
#[tactic(auto, using(crate::proofs::BehindLaws::arguments_read), unfolding(lv_grammar::specs::ReadItems::arguments_in))]
fn arguments<'a>(
    alloc: Global,
    scope: &Scope,
    sorts: &[SortId],
    tree: &'a Tree,
) -> Result<Growing<Parameter<'a>>, ReadText>
    ensures { Gives variables_seen result (arguments_in (scope_seen scope.now) sorts.now tree.now) }
{
    let inside = list(tree)?;
    arguments_after(scope, Growing::new(alloc), sorts, inside.end, inside.items)
}

/// `(VAR ..) F`, of the update of a relation.
#[tactic(auto, unfolding(lv_grammar::specs::ReadItems::relation_update))]
fn update_relation(
    alloc: Global,
    known: &Known,
    scope: &Scope,
    symbol: u32,
    sorts: &[SortId],
    end: u32,
    items: &[Tree],
) -> Result<ActionUpdate, ReadText>
    ensures { Gives (λ x. x) result (relation_update known.now (scope_seen scope.now) symbol sorts.now end items.now) }
{
    let (first, rest) = next(end, items)?;
    let arguments = arguments(alloc, scope, sorts, first)?;
    let inner = Scope::Listed(arguments.as_slice(), &*scope);
    let setting = Setting {
        known,
        role: Role::State,
    };
    let body = lone(alloc, &setting, INNER_ROOM, &inner, end, rest)?;
    Ok(ActionUpdate::Relation { symbol, body })
}

/// `TERM`, of the update of a constant.
#[tactic(auto, unfolding(lv_grammar::specs::ReadItems::constant_update))]
fn update_constant(
    known: &Known,
    scope: &Scope,
    symbol: u32,
    sort: SortId,
    end: u32,
    items: &[Tree],
) -> Result<ActionUpdate, ReadText>
    ensures { Gives (λ x. x) result (constant_update known.now (scope_seen scope.now) symbol sort end items.now) }
{
    let (first, rest) = next(end, items)?;
    let setting = Setting {
        known,
        role: Role::State,
    };
    let term = term_in_sort(&setting, scope, sort, first)?;
    finish(rest)?;
    Ok(ActionUpdate::Constant { symbol, term })
}

/// `(set R (VAR ..) F)` or `(set C TERM)`
#[tactic(auto, unfolding(lv_grammar::specs::ReadItems::update_in))]
fn read_update(
    alloc: Global,
    known: &Known,
    scope: &Scope,
    done: &[ActionUpdate],
    tree: &Tree,
) -> Result<ActionUpdate, ReadText>
    ensures { Gives (λ x. x) result (update_in known.now (scope_seen scope.now) done.now tree.now) }
{
    let list = head(tree)?;
    let is_other = !same_bytes(list.word.text, b"set");
    refuse_if(is_other, Kind::Unexpected, list.word.at)?;
    let (first, rest) = next(list.end, list.rest)?;
    let target = target_in(known, done, first)?;
    let symbol = target.symbol;
    match target.shape {
        Shape::Relation(sorts) => {
            update_relation(
                alloc,
                known,
                scope,
                symbol,
                sorts.as_slice(),
                list.end,
                rest,
            )
        }
        Shape::Constant(sort) => update_constant(known, scope, symbol, *sort, list.end, rest),
    }
}

fn read_updates(
    alloc: Global,
    known: &Known,
    scope: &Scope,
    items: &[Tree],
) -> Result<List<ActionUpdate>, ReadText>
    ensures { Gives (λ x. x) result (updates_in known.now (scope_seen scope.now) [] items.now) }
{
    let mut updates = Growing::new(alloc);
    for tree in items {
        let update = read_update(alloc, known, scope, updates.as_slice(), tree)?;
        updates.push(update)?;
    }
    Ok(updates.into_list())
}

/// The updates of an action with these parameters.
#[tactic(auto, using(crate::proofs::ScopeLaws::scope_same))]
fn updates_over(
    alloc: Global,
    known: &Known,
    params: &[Parameter],
    items: &[Tree],
) -> Result<List<ActionUpdate>, ReadText>
    ensures { Gives (λ x. x) result (updates_in known.now (scope_of (params_seen params.now)) [] items.now) }
{
    let outer = Scope::Empty;
    read_updates(alloc, known, &Scope::Listed(&*params, &outer), items)
}

/// `(action NAME (VAR SORT ..) (guard F) UPDATE ..)`
#[tactic(auto, unfolding(lv_grammar::specs::ReadItems::action_item))]
pub(crate) fn read_action(
    alloc: Global,
    known: &Known,
    list: &HeadedList,
) -> Result<Action, ReadText>
    ensures { Gives (λ x. x) result (action_item known.now (headed_seen list.now)) }
{
    let opening = open(alloc, known, list.end, list.rest)?;
    let params = opening.params.as_slice();
    let (first, rest) = next(list.end, opening.rest)?;
    let guard = read_guard(alloc, known, params, first)?;
    let updates = updates_over(alloc, known, params, rest)?;
    Ok(Action {
        name: text_of(alloc, opening.name)?,
        params: sorts_of_parameters(alloc, params)?,
        guard,
        updates,
    })
}
