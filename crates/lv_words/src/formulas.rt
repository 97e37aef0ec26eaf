//! Formulas, read from trees in the scope of variables.
ghost use Rattle.std.specs.Prelude.{◌≡◌, Some};
ghost use Rattle.lv_grammar.specs.declared.reading.Keyword.TheVariants as K;
ghost use Rattle.lv_fault.specs.Given.{Gives};
ghost use Rattle.lv_words.specs.Scopes.{scope_seen};
ghost use Rattle.lv_fault.specs.Seen.{headed_seen};
ghost use Rattle.lv_grammar.specs.WordKinds.{keyword_of};
ghost use Rattle.lv_grammar.specs.ReadFormulas.{each, one_part, two_parts, bound_part, list_by, word_formula, formula_of, temporal_in, formula_in, lone_formula};

use crate::atoms::{atom, bare, equation};
use crate::names::{new_variable, sort};
use crate::scope::Scope;
use crate::symbols::{Setting, is_temporal};
use crate::words::keyword_in;
use lv_fault::trees::{HeadedList, finish, list_headed, next, place, refusal, refuse_if};
use lv_fault::{Kind, ReadText};
use lv_formula::{List, Rc, SortId, Temporal};
use lv_grammar::reading::Keyword;
use lv_tree::Tree;
use std::alloc::Global;

/// The formula that one word is.
fn word_as_formula(
    alloc: Global,
    setting: &Setting,
    at: u32,
    text: &[u8],
) -> Result<Temporal, ReadText>
    ensures { Gives (λ x. x) result (word_formula setting.now.known.now setting.now.role at text.now) }
{
    match keyword_in(text) {
        Some(Keyword::True) => Ok(Temporal::True),
        Some(Keyword::False) => Ok(Temporal::False),
        Some(_) => Err(refusal(Kind::Unexpected, at)),
        None => bare(alloc, setting, at, text),
    }
}

/// A formula whose lists nest at most `room` deep, and where an `iff` stands inside fewer than `iffs`
/// others.
#[cycle(formula)]
fn formula(
    alloc: Global,
    setting: &Setting,
    room: u32,
    iffs: u32,
    scope: &Scope,
    tree: &Tree,
) -> Result<Temporal, ReadText>
    ensures { Gives (λ x. x) result (formula_of setting.now.known.now setting.now.role room iffs (scope_seen scope.now) tree.now) }
{
    match tree {
        Tree::Word { at, text } => word_as_formula(alloc, setting, *at, text.as_slice()),
        Tree::Group { at, end, items } => {
            if room == 0 {
                return Err(refusal(Kind::TooMany, *at));
            }
            let list = list_headed(*at, *end, items.as_slice())?;
            listed(alloc, setting, room - 1, iffs, scope, &list)
        }
    }
}

/// The formula that a list is, whose parts have room for so many lists in one another.
#[cycle(formula)]
fn listed(
    alloc: Global,
    setting: &Setting,
    room: u32,
    iffs: u32,
    scope: &Scope,
    list: &HeadedList,
) -> Result<Temporal, ReadText>
    ensures { Gives (λ x. x) result (list_by setting.now.known.now setting.now.role (formula_of setting.now.known.now setting.now.role room) iffs (scope_seen scope.now) (headed_seen list.now) (keyword_of list.now.word.text.now)) }
{
    match keyword_in(list.word.text) {
        None => atom(alloc, setting, scope, list.end, &list.word, list.rest),
        Some(Keyword::True) | Some(Keyword::False) => {
            Err(refusal(Kind::Unexpected, list.word.at))
        }
        Some(Keyword::Equals) => equation(setting, scope, list.end, list.rest),
        Some(Keyword::Not) => negation(alloc, setting, room, iffs, scope, list),
        Some(Keyword::And) => conjunction(alloc, setting, room, iffs, scope, list),
        Some(Keyword::Or) => disjunction(alloc, setting, room, iffs, scope, list),
        Some(Keyword::Implies) => implication(alloc, setting, room, iffs, scope, list),
        Some(Keyword::Iff) => equivalence(alloc, setting, room, iffs, scope, list),
        Some(Keyword::All) => universal(alloc, setting, room, iffs, scope, list),
        Some(Keyword::Some) => existential(alloc, setting, room, iffs, scope, list),
        Some(Keyword::Always) => always(alloc, setting, room, iffs, scope, list),
        Some(Keyword::Eventually) => eventually(alloc, setting, room, iffs, scope, list),
    }
}

#[cycle(formula)]
fn negation(
    alloc: Global,
    setting: &Setting,
    room: u32,
    iffs: u32,
    scope: &Scope,
    list: &HeadedList,
) -> Result<Temporal, ReadText>
    ensures { Gives (λ x. x) result (list_by setting.now.known.now setting.now.role (formula_of setting.now.known.now setting.now.role room) iffs (scope_seen scope.now) (headed_seen list.now) (Some K.Not)) }
{
    let f = one(alloc, setting, room, iffs, scope, list)?;
    Ok(Temporal::Not(Rc::new(alloc, f)?))
}

#[cycle(formula)]
fn conjunction(
    alloc: Global,
    setting: &Setting,
    room: u32,
    iffs: u32,
    scope: &Scope,
    list: &HeadedList,
) -> Result<Temporal, ReadText>
    ensures { Gives (λ x. x) result (list_by setting.now.known.now setting.now.role (formula_of setting.now.known.now setting.now.role room) iffs (scope_seen scope.now) (headed_seen list.now) (Some K.And)) }
{
    let fs = all_parts(alloc, setting, room, iffs, scope, list.rest)?;
    Ok(Temporal::And(fs))
}

#[cycle(formula)]
fn disjunction(
    alloc: Global,
    setting: &Setting,
    room: u32,
    iffs: u32,
    scope: &Scope,
    list: &HeadedList,
) -> Result<Temporal, ReadText>
    ensures { Gives (λ x. x) result (list_by setting.now.known.now setting.now.role (formula_of setting.now.known.now setting.now.role room) iffs (scope_seen scope.now) (headed_seen list.now) (Some K.Or)) }
{
    let fs = all_parts(alloc, setting, room, iffs, scope, list.rest)?;
    Ok(Temporal::Or(fs))
}

#[cycle(formula)]
fn implication(
    alloc: Global,
    setting: &Setting,
    room: u32,
    iffs: u32,
    scope: &Scope,
    list: &HeadedList,
) -> Result<Temporal, ReadText>
    ensures { Gives (λ x. x) result (list_by setting.now.known.now setting.now.role (formula_of setting.now.known.now setting.now.role room) iffs (scope_seen scope.now) (headed_seen list.now) (Some K.Implies)) }
{
    let (f, g) = two(alloc, setting, room, iffs, scope, list)?;
    Ok(Temporal::Implies(Rc::new(alloc, f)?, Rc::new(alloc, g)?))
}

#[cycle(formula)]
fn equivalence(
    alloc: Global,
    setting: &Setting,
    room: u32,
    iffs: u32,
    scope: &Scope,
    list: &HeadedList,
) -> Result<Temporal, ReadText>
    ensures { Gives (λ x. x) result (list_by setting.now.known.now setting.now.role (formula_of setting.now.known.now setting.now.role room) iffs (scope_seen scope.now) (headed_seen list.now) (Some K.Iff)) }
{
    if iffs == 0 {
        return Err(refusal(Kind::TooMany, list.at));
    }
    let (f, g) = two(alloc, setting, room, iffs - 1, scope, list)?;
    Ok(Temporal::Iff(Rc::new(alloc, f)?, Rc::new(alloc, g)?))
}

#[cycle(formula)]
fn universal(
    alloc: Global,
    setting: &Setting,
    room: u32,
    iffs: u32,
    scope: &Scope,
    list: &HeadedList,
) -> Result<Temporal, ReadText>
    ensures { Gives (λ x. x) result (list_by setting.now.known.now setting.now.role (formula_of setting.now.known.now setting.now.role room) iffs (scope_seen scope.now) (headed_seen list.now) (Some K.All)) }
{
    let (sort, f) = bound(alloc, setting, room, iffs, scope, list)?;
    Ok(Temporal::All(sort, Rc::new(alloc, f)?))
}

#[cycle(formula)]
fn existential(
    alloc: Global,
    setting: &Setting,
    room: u32,
    iffs: u32,
    scope: &Scope,
    list: &HeadedList,
) -> Result<Temporal, ReadText>
    ensures { Gives (λ x. x) result (list_by setting.now.known.now setting.now.role (formula_of setting.now.known.now setting.now.role room) iffs (scope_seen scope.now) (headed_seen list.now) (Some K.Some)) }
{
    let (sort, f) = bound(alloc, setting, room, iffs, scope, list)?;
    Ok(Temporal::Any(sort, Rc::new(alloc, f)?))
}

#[cycle(formula)]
#[tactic(auto, unfolding(lv_grammar::specs::ReadFormulas::operator_in))]
fn always(
    alloc: Global,
    setting: &Setting,
    room: u32,
    iffs: u32,
    scope: &Scope,
    list: &HeadedList,
) -> Result<Temporal, ReadText>
    ensures { Gives (λ x. x) result (list_by setting.now.known.now setting.now.role (formula_of setting.now.known.now setting.now.role room) iffs (scope_seen scope.now) (headed_seen list.now) (Some K.Always)) }
{
    refuse_if(!is_temporal(setting.role), Kind::Unexpected, list.word.at)?;
    let f = one(alloc, setting, room, iffs, scope, list)?;
    Ok(Temporal::Always(Rc::new(alloc, f)?))
}

#[cycle(formula)]
#[tactic(auto, unfolding(lv_grammar::specs::ReadFormulas::operator_in))]
fn eventually(
    alloc: Global,
    setting: &Setting,
    room: u32,
    iffs: u32,
    scope: &Scope,
    list: &HeadedList,
) -> Result<Temporal, ReadText>
    ensures { Gives (λ x. x) result (list_by setting.now.known.now setting.now.role (formula_of setting.now.known.now setting.now.role room) iffs (scope_seen scope.now) (headed_seen list.now) (Some K.Eventually)) }
{
    refuse_if(!is_temporal(setting.role), Kind::Unexpected, list.word.at)?;
    let f = one(alloc, setting, room, iffs, scope, list)?;
    Ok(Temporal::Eventually(Rc::new(alloc, f)?))
}

/// The one part of a list.
#[cycle(formula)]
#[tactic(auto, unfolding(lv_grammar::specs::ReadFormulas::one_part))]
fn one(
    alloc: Global,
    setting: &Setting,
    room: u32,
    iffs: u32,
    scope: &Scope,
    list: &HeadedList,
) -> Result<Temporal, ReadText>
    ensures { Gives (λ x. x) result (one_part (formula_of setting.now.known.now setting.now.role room iffs (scope_seen scope.now)) list.now.end list.now.rest.now) }
{
    let (part, rest) = next(list.end, list.rest)?;
    let f = formula(alloc, setting, room, iffs, scope, part)?;
    finish(rest)?;
    Ok(f)
}

/// The two parts of a list.
#[cycle(formula)]
#[tactic(auto, unfolding(lv_grammar::specs::ReadFormulas::two_parts))]
fn two(
    alloc: Global,
    setting: &Setting,
    room: u32,
    iffs: u32,
    scope: &Scope,
    list: &HeadedList,
) -> Result<(Temporal, Temporal), ReadText>
    ensures { Gives (λ x. x) result (two_parts (formula_of setting.now.known.now setting.now.role room iffs (scope_seen scope.now)) list.now.end list.now.rest.now) }
{
    let (left, rest) = next(list.end, list.rest)?;
    let f = formula(alloc, setting, room, iffs, scope, left)?;
    let (right, rest) = next(list.end, rest)?;
    let g = formula(alloc, setting, room, iffs, scope, right)?;
    finish(rest)?;
    Ok((f, g))
}

/// `VAR SORT F`, of a quantifier.
#[cycle(formula)]
#[tactic(auto, unfolding(lv_grammar::specs::ReadFormulas::bound_part))]
fn bound(
    alloc: Global,
    setting: &Setting,
    room: u32,
    iffs: u32,
    scope: &Scope,
    list: &HeadedList,
) -> Result<(SortId, Temporal), ReadText>
    ensures { Gives (λ x. x) result (bound_part setting.now.known.now (formula_of setting.now.known.now setting.now.role room iffs) (scope_seen scope.now) list.now.end list.now.rest.now) }
{
    let (first, rest) = next(list.end, list.rest)?;
    let name = new_variable(scope, first)?;
    let (range, rest) = next(list.end, rest)?;
    let sort = sort(setting.known, range)?;
    let (part, rest) = next(list.end, rest)?;
    let inner = Scope::Inner(name, sort, &*scope);
    let f = formula(alloc, setting, room, iffs, &inner, part)?;
    finish(rest)?;
    Ok((sort, f))
}

/// The parts of a list of any number.
#[cycle(formula)]
fn all_parts(
    alloc: Global,
    setting: &Setting,
    room: u32,
    iffs: u32,
    scope: &Scope,
    items: &[Tree],
) -> Result<List<Rc<Temporal>>, ReadText>
    ensures { Gives (λ x. x) result (each (formula_of setting.now.known.now setting.now.role room iffs (scope_seen scope.now)) items.now) }
{
    let mut parts = Vec::new(alloc);
    for item in items {
        let f = formula(alloc, setting, room, iffs, scope, item)?;
        parts.push(Rc::new(alloc, f)?)?;
    }
    Ok(List::from_vec(parts))
}

/// A whole formula: an `iff` stands inside at most one other, and there are at most 1,024 nodes, which are
/// counted once it is read.
#[tactic(auto, unfolding(lv_grammar::specs::ReadFormulas::temporal_in))]
pub fn read_temporal(
    alloc: Global,
    setting: &Setting,
    room: u32,
    scope: &Scope,
    tree: &Tree,
) -> Result<Temporal, ReadText>
    ensures { Gives (λ x. x) result (temporal_in setting.now.known.now setting.now.role room (scope_seen scope.now) tree.now) }
{
    let f = formula(alloc, setting, room, 2, scope, tree)?;
    refuse_if(f.nodes() > 1024, Kind::TooMany, place(tree))?;
    Ok(f)
}
