//! Atoms and equations, read from trees in the scope of variables.
ghost use Rattle.std.specs.Prelude.{◌≡◌};
ghost use Rattle.lv_fault.specs.Given.{Gives};
ghost use Rattle.lv_words.specs.Scopes.{scope_seen};
ghost use Rattle.lv_fault.specs.Seen.{spelled_seen};
ghost use Rattle.lv_grammar.specs.ReadFormulas.{bare_atom, fail_arity, listed_atom, equation_in};

use crate::scope::Scope;
use crate::symbols::{Setting, relation};
use crate::terms::{term, term_in_sort, terms};
use lv_fault::trees::{Spelled, finish, next, refusal, refuse_if};
use lv_fault::{Kind, ReadText};
use lv_formula::{SortId, Temporal, Terms};
use lv_tree::Tree;
use std::alloc::Global;

/// A relation without arguments as a bare word.
#[tactic(auto, unfolding(lv_grammar::specs::ReadFormulas::bare_atom))]
pub fn bare(alloc: Global, setting: &Setting, at: u32, text: &[u8]) -> Result<Temporal, ReadText>
    ensures { Gives (λ x. x) result (bare_atom setting.now.known.now setting.now.role at text.now) }
{
    let relation = relation(setting, at, text)?;
    refuse_if(relation.sorts.as_slice().len() != 0, Kind::WrongArity, at)?;
    Ok(Temporal::Atom(relation.sym, Terms::of(alloc, &[])?))
}

/// That there is a term for each sort. A list without a term behind a relation without arguments lacks one.
fn check_arity(at: u32, end: u32, items: &[Tree], sorts: &[SortId]) -> Result<(), ReadText>
    ensures { Gives (λ x. x) result (fail_arity at end items.now sorts.now) }
{
    match sorts {
        [] => match items {
            [] => Err(refusal(Kind::Missing, end)),
            [_, ..] => Err(refusal(Kind::WrongArity, at)),
        },
        [_, ..] => refuse_if(items.len() != sorts.len(), Kind::WrongArity, at),
    }
}

/// `(R TERM ..)`, from the relation's word on.
#[tactic(auto, unfolding(lv_grammar::specs::ReadFormulas::listed_atom))]
pub fn atom(
    alloc: Global,
    setting: &Setting,
    scope: &Scope,
    end: u32,
    word: &Spelled<'_>,
    items: &[Tree],
) -> Result<Temporal, ReadText>
    ensures { Gives (λ x. x) result (listed_atom setting.now.known.now setting.now.role (scope_seen scope.now) end (spelled_seen word.now) items.now) }
{
    let relation = relation(setting, word.at, word.text)?;
    let sorts = relation.sorts.as_slice();
    check_arity(word.at, end, items, sorts)?;
    let found = terms(alloc, setting, scope, sorts, items)?;
    Ok(Temporal::Atom(relation.sym, Terms::of(alloc, found.as_slice())?))
}

/// `(= TERM TERM)`, behind its first word.
#[tactic(auto, unfolding(lv_grammar::specs::ReadFormulas::equation_in))]
pub fn equation(
    setting: &Setting,
    scope: &Scope,
    end: u32,
    items: &[Tree],
) -> Result<Temporal, ReadText>
    ensures { Gives (λ x. x) result (equation_in setting.now.known.now setting.now.role (scope_seen scope.now) end items.now) }
{
    let (left, rest) = next(end, items)?;
    let (x, sort) = term(setting, scope, left)?;
    let (right, rest) = next(end, rest)?;
    let y = term_in_sort(setting, scope, sort, right)?;
    finish(rest)?;
    Ok(Temporal::Same(x, y))
}
