//! What items have in common: names, marks, lists of sorts and of parameters.
ghost use Rattle.std.specs.Prelude.{◌≡◌, ◌++◌, ◌∷◌, [], IfOk, IfErr};
ghost use Rattle.lv_fault.specs.Given.{Gives};
ghost use Rattle.lv_grammar.specs.ReadItems.{mark_in, sorts_in, parameters_in, ranges_of, name_in, opened_in};
ghost use Rattle.lv_syntax.specs.Behind.{sorts_behind, parameter_in, pairs_behind};
ghost use Rattle.lv_syntax.specs.Parameters.{params_seen, opening_seen};

use lv_fault::trees::{finish, list, next, place, refusal, refuse_if, word};
use lv_fault::{Kind, ReadText};
use lv_formula::{List, Memory, SortId};
use lv_system::same_bytes;
use lv_tree::Tree;
use lv_words::growing::Growing;
use lv_words::known::Known;
use lv_words::names::{new_name, new_variable, sort};
use lv_words::scope::{Parameter, Scope};
use std::alloc::Global;

/// The first items of many a list: a name, parameters, and what follows.
#[derive(Drop)]
pub(crate) struct Opening<'a> {
    pub(crate) name: &'a [u8],
    pub(crate) params: Growing<Parameter<'a>>,
    pub(crate) rest: &'a [Tree],
}

/// Whether this word follows as the last item, or nothing does.
#[tactic(auto, unfolding(lv_grammar::specs::ReadItems::mark_in))]
pub(crate) fn is_marked(text: &[u8], items: &[Tree]) -> Result<bool, ReadText>
    ensures { Gives (λ x. x) result (mark_in text.now items.now) }
{
    match items {
        [] => Ok(false),
        [first, rest @ ..] => {
            let word = word(first)?;
            refuse_if(!same_bytes(word.text, text), Kind::Unexpected, word.at)?;
            finish(rest)?;
            Ok(true)
        }
    }
}

/// `SORT ..`, at most four, behind those that are done.
#[tactic(auto, unfolding(crate::specs::Behind::sorts_behind))]
fn sorts_after(
    known: &Known,
    mut done: Growing<SortId>,
    items: &[Tree],
) -> Result<Growing<SortId>, ReadText>
    ensures { Gives (λ x. x) result (sorts_behind known.now done items.now) }
{
    match items {
        [] => Ok(done),
        [first, rest @ ..] => {
            let sort = sort(known, first)?;
            refuse_if(done.as_slice().len() >= 4, Kind::TooMany, place(first))?;
            done.push(sort)?;
            sorts_after(known, done, rest)
        }
    }
}

/// `(SORT ..)`
#[tactic(auto, using(crate::proofs::BehindLaws::sorts_read), unfolding(lv_grammar::specs::ReadItems::sorts_in))]
pub(crate) fn sorts(alloc: Global, known: &Known, tree: &Tree) -> Result<List<SortId>, ReadText>
    ensures { Gives (λ x. x) result (sorts_in known.now tree.now) }
{
    let inside = list(tree)?;
    let sorts = sorts_after(known, Growing::new(alloc), inside.items)?;
    Ok(sorts.into_list())
}

/// The name of a new variable in the scope of these parameters alone.
#[tactic(auto, using(crate::proofs::ScopeLaws::scope_same, crate::proofs::ScopeLaws::params_length), unfolding(crate::specs::Behind::parameter_in))]
fn parameter<'a>(done: &[Parameter], tree: &'a Tree) -> Result<&'a [u8], ReadText>
    ensures { Gives (λ x. x.now) result (parameter_in (params_seen done.now) tree.now) }
{
    let outer = Scope::Empty;
    let name = new_variable(&Scope::Listed(&*done, &outer), tree)?;
    refuse_if(done.len() >= 4, Kind::TooMany, place(tree))?;
    Ok(name)
}

/// The parameters that are done, with one more behind them.
#[tactic(auto, using(crate::proofs::ScopeLaws::params_more))]
fn with_parameter<'a>(
    mut done: Growing<Parameter<'a>>,
    at: u32,
    name: &'a [u8],
    sort: SortId,
) -> Result<Growing<Parameter<'a>>, ReadText>
    ensures added { IfOk result (λ xs. params_seen xs ≡ params_seen done.entry ++ record { at = at; variable = record { name = name.now; sort = sort } } ∷ []) }
    ensures memory { IfErr result (λ e. e ≡ ReadText.Memory) }
{
    done.push(Parameter { at, name, sort })?;
    Ok(done)
}

/// `VAR SORT ..`, behind the pairs that are done.
#[tactic(auto, unfolding(crate::specs::Behind::pairs_behind))]
fn pairs<'a>(
    known: &Known,
    done: Growing<Parameter<'a>>,
    end: u32,
    items: &'a [Tree],
) -> Result<Growing<Parameter<'a>>, ReadText>
    ensures { Gives params_seen result (pairs_behind known.now (params_seen done.entry) end items.now) }
{
    match items {
        [] => Ok(done),
        [first, rest @ ..] => {
            let name = parameter(done.as_slice(), first)?;
            match rest {
                [] => Err(refusal(Kind::Missing, end)),
                [second, rest @ ..] => {
                    let sort = sort(known, second)?;
                    let done = with_parameter(done, place(first), name, sort)?;
                    pairs(known, done, end, rest)
                }
            }
        }
    }
}

/// `(VAR SORT ..)`
#[tactic(auto, using(crate::proofs::BehindLaws::pairs_read), unfolding(lv_grammar::specs::ReadItems::parameters_in))]
fn parameters<'a>(
    alloc: Global,
    known: &Known,
    tree: &'a Tree,
) -> Result<Growing<Parameter<'a>>, ReadText>
    ensures { Gives params_seen result (parameters_in known.now tree.now) }
{
    let inside = list(tree)?;
    pairs(known, Growing::new(alloc), inside.end, inside.items)
}

/// The parameters' sorts.
pub(crate) fn sorts_of_parameters(
    alloc: Global,
    params: &[Parameter],
) -> Result<List<SortId>, Memory>
    ensures { IfOk result (λ sorts. sorts ≡ ranges_of (params_seen params.now)) }
{
    let mut sorts = Vec::new(alloc);
    for param in params {
        sorts.push(param.sort)?;
    }
    Ok(List::from_vec(sorts))
}

/// A name, and what follows it.
#[tactic(auto, unfolding(lv_grammar::specs::ReadItems::name_in))]
pub(crate) fn name<'a>(
    known: &Known,
    end: u32,
    items: &'a [Tree],
) -> Result<(&'a [u8], &'a [Tree]), ReadText>
    ensures { Gives (λ x. (x.0.now, x.1.now)) result (name_in known.now end items.now) }
{
    let (first, rest) = next(end, items)?;
    let name = new_name(known, first)?;
    Ok((name, rest))
}

/// A name, parameters, and what follows.
#[tactic(auto, unfolding(lv_grammar::specs::ReadItems::opened_in))]
pub(crate) fn open<'a>(
    alloc: Global,
    known: &Known,
    end: u32,
    items: &'a [Tree],
) -> Result<Opening<'a>, ReadText>
    ensures { Gives opening_seen result (opened_in known.now end items.now) }
{
    let (name, rest) = name(known, end, items)?;
    let (second, rest) = next(end, rest)?;
    let params = parameters(alloc, known, second)?;
    Ok(Opening { name, params, rest })
}
