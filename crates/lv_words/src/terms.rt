//! Terms, read from trees in the scope of variables.
ghost use Rattle.std.specs.Prelude.{◌≡◌, ◌++◌, []};
ghost use Rattle.lv_grammar.specs.Words.{variable_number};
ghost use Rattle.lv_fault.specs.Given.{Gives};
ghost use Rattle.lv_words.specs.Scopes.{scope_seen};
ghost use Rattle.lv_grammar.specs.ReadFormulas.{variable_term, constant_term, term_in, term_of_sort, terms_in};
ghost use Rattle.lv_words.specs.Behind.{terms_behind};

use crate::growing::Growing;
use crate::scope::Scope;
use crate::symbols::{Setting, constant};
use crate::words::family_in;
use lv_fault::trees::{place, refusal, refuse_if, word};
use lv_fault::{Kind, ReadText};
use lv_formula::{SortId, Term};
use lv_grammar::reading::Family;
use lv_tree::Tree;
use std::alloc::Global;

#[tactic(auto, using(crate::proofs::ScopeLemmas::found_number))]
fn variable_with_sort(scope: &Scope, at: u32, text: &[u8]) -> Result<(Term, SortId), ReadText>
    ensures { Gives (λ x. x) result (variable_term (scope_seen scope.now) at (variable_number (scope_seen scope.now) text.now)) }
{
    match scope.find(text)? {
        None => Err(refusal(Kind::UnknownName, at)),
        Some((number, sort)) => Ok((Term::Var(number), sort)),
    }
}

fn constant_with_sort(setting: &Setting, at: u32, text: &[u8]) -> Result<(Term, SortId), ReadText>
    ensures { Gives (λ x. x) result (constant_term setting.now.known.now setting.now.role at text.now) }
{
    let (sym, sort) = constant(setting, at, text)?;
    Ok((Term::Const(sym), sort))
}

/// A term with its sort.
#[tactic(auto, unfolding(lv_grammar::specs::ReadFormulas::term_in))]
pub fn term(setting: &Setting, scope: &Scope, tree: &Tree) -> Result<(Term, SortId), ReadText>
    ensures { Gives (λ x. x) result (term_in setting.now.known.now setting.now.role (scope_seen scope.now) tree.now) }
{
    let word = word(tree)?;
    match family_in(word.text) {
        Family::Variable => variable_with_sort(scope, word.at, word.text),
        Family::Frozen | Family::Saved | Family::Dotted | Family::Name | Family::Other => {
            constant_with_sort(setting, word.at, word.text)
        }
    }
}

/// A term of this sort.
#[tactic(auto, unfolding(lv_grammar::specs::ReadFormulas::term_of_sort))]
pub fn term_in_sort(
    setting: &Setting,
    scope: &Scope,
    sort: SortId,
    tree: &Tree,
) -> Result<Term, ReadText>
    ensures { Gives (λ x. x) result (term_of_sort setting.now.known.now setting.now.role (scope_seen scope.now) sort tree.now) }
{
    let (term, found) = term(setting, scope, tree)?;
    refuse_if(found.0 != sort.0, Kind::WrongSort, place(tree))?;
    Ok(term)
}

/// Behind the terms that are done, one term of each sort. As many were counted before.
#[tactic(auto, unfolding(crate::specs::Behind::terms_behind))]
fn terms_after(
    setting: &Setting,
    scope: &Scope,
    mut done: Growing<Term>,
    sorts: &[SortId],
    items: &[Tree],
) -> Result<Growing<Term>, ReadText>
    ensures { Gives (λ x. x) result (terms_behind setting.now.known.now setting.now.role (scope_seen scope.now) done sorts.now items.now) }
{
    match sorts {
        [] => Ok(done),
        [sort, sorts @ ..] => match items {
            [] => Ok(done),
            [first, items @ ..] => {
                done.push(term_in_sort(setting, scope, *sort, first)?)?;
                terms_after(setting, scope, done, sorts, items)
            }
        },
    }
}

/// One term of each sort. As many were counted before.
#[tactic(auto, using(crate::proofs::BehindLaws::terms_read))]
pub fn terms(
    alloc: Global,
    setting: &Setting,
    scope: &Scope,
    sorts: &[SortId],
    items: &[Tree],
) -> Result<Growing<Term>, ReadText>
    ensures { Gives (λ x. x) result (terms_in setting.now.known.now setting.now.role (scope_seen scope.now) sorts.now items.now) }
{
    terms_after(setting, scope, Growing::new(alloc), sorts, items)
}
