//! The terms that stand for variables, constants and places.
ghost use Rattle.std.specs.Prelude.{◌≡◌, ◌<◌, length, map, get_or, IfOk};
ghost use Rattle.lv_formula.specs.declared.terms.Term.{Term};
ghost use Rattle.lv_places.specs.declared.terms.TermId.{TermId};
ghost use Rattle.lv_places.specs.Universes.{term, count_at, constant_id, constant_sort, constant_number, tuple_number};
ghost use Rattle.lv_places.specs.GroundForms.{term_id};
ghost use Rattle.lv_ground.specs.Positions.{sort};
ghost use Rattle.lv_ground.specs.Settings.{IsReady, naming, numbers};
ghost use Rattle.lv_ground.specs.Instances.{terms_around, arguments_around, place_number};

use crate::setting::{Setting, count_of};
use lv_formula::{ConShape, Formula, Memory, SortId, Sym, Term};
use lv_places::{PlaceArg, TermId};
use std::alloc::Global;

/// The variables around a node, from the innermost on, with the terms that stand for them.
#[derive(Drop)]
pub(crate) enum Around<'a> {
    Outside,
    /// An `All` variable.
    Every(TermId, &'a Around<'a>),
    /// The variable of a place with this body.
    Chosen(TermId, &'a Formula, &'a Around<'a>),
}

/// The term that stands for the variable.
fn variable(around: &Around, x: u32) -> TermId
    ensures { result ≡ get_or (terms_around around.now) x (term (sort 0) 0) }
{
    match around {
        Around::Outside => TermId {
            sort: SortId(0),
            place: 0,
        },
        Around::Every(term, outer) => {
            if x == 0 {
                *term
            } else {
                variable(outer, x - 1)
            }
        }
        Around::Chosen(term, _, outer) => {
            if x == 0 {
                *term
            } else {
                variable(outer, x - 1)
            }
        }
    }
}

/// The sort of the constant, which is 0 where it is not among these.
fn sort_of_constant(constants: &[ConShape], sym: Sym) -> SortId
    ensures { result ≡ constant_sort constants.now sym }
{
    for shape in constants {
        if shape.sym.equals(sym) {
            return shape.sort;
        }
    }
    SortId(0)
}

/// How many constants of the sort come before this one.
fn number_of_constant(sort: SortId, constants: &[ConShape], sym: Sym) -> Result<u32, Memory>
    ensures { IfOk result (λ k. k ≡ constant_number sort constants.now sym) }
{
    let mut count: u32 = 0;
    for shape in constants {
        if shape.sym.equals(sym) {
            return Ok(count);
        }
        if shape.sort.0 == sort.0 {
            count = count.checked_add(1).ok_or(Memory)?;
        }
    }
    Ok(count)
}

/// The term of the constant.
fn constant(constants: &[ConShape], sym: Sym) -> Result<TermId, Memory>
    ensures { IfOk result (λ t. t ≡ term (constant_sort constants.now sym) (constant_number (constant_sort constants.now sym) constants.now sym)) }
{
    let sort = sort_of_constant(constants, sym);
    let place = number_of_constant(sort, constants, sym)?;
    Ok(TermId { sort, place })
}

/// The term that stands for a term of a formula.
pub(crate) fn instance(setting: &Setting, around: &Around, t: &Term) -> Result<TermId, Memory>
    ensures { IfOk result (λ i. i ≡ term_id (naming setting.now) (terms_around around.now) t.now) }
{
    match t {
        Term::Var(x) => Ok(variable(around, *x)),
        Term::Const(sym) => constant(setting.sk.constants.as_slice(), *sym),
    }
}

/// The terms that stand for terms of a formula.
pub(crate) fn instances_of(
    alloc: Global,
    setting: &Setting,
    around: &Around,
    terms: &[Term],
) -> Result<Vec<TermId>, Memory>
    ensures { IfOk result (λ ts. ts.items ≡ map (term_id (naming setting.now) (terms_around around.now)) terms.now) }
{
    let mut all = Vec::new(alloc);
    for term in terms {
        all.push(instance(setting, around, term)?)?;
    }
    Ok(all)
}

/// The number of a tuple of terms, in lexicographic order.
pub(crate) fn number_of(counts: &[u32], tuple: &[TermId]) -> Result<u32, Memory>
    ensures { IfOk result (λ k. k ≡ tuple_number (count_at counts.now) tuple.now) }
{
    let mut number: u32 = 0;
    let mut weight: u32 = 1;
    for i in (0..tuple.len()).rev() {
        let here = tuple[i].place.checked_mul(weight).ok_or(Memory)?;
        number = here.checked_add(number).ok_or(Memory)?;
        weight = count_of(counts, tuple[i].sort)
            .checked_mul(weight)
            .ok_or(Memory)?;
    }
    Ok(number)
}

/// The terms that stand for the arguments of a place.
fn arguments_of(
    alloc: Global,
    around: &Around,
    arguments: &[PlaceArg],
) -> Result<Vec<TermId>, Memory>
    ensures { IfOk result (λ ts. ts.items ≡ map (λ a. get_or (terms_around around.now) a.var (term (sort 0) 0)) arguments.now) }
{
    let mut terms = Vec::new(alloc);
    for argument in arguments {
        terms.push(variable(around, argument.var))?;
    }
    Ok(terms)
}

/// The term of a place at a tuple of terms.
pub(crate) fn place_at(setting: &Setting, place: u32, tuple: &[TermId]) -> Result<TermId, Memory>
    requires ready { IsReady setting.now }
    requires there { place < length setting.now.sk.now.places }
    ensures { IfOk result (λ t. t ≡ place_number setting.now place tuple.now) }
{
    let at = place as usize;
    let sort = setting.sk.places.as_slice()[at].sort;
    let number = number_of(setting.counts.as_slice(), tuple)?;
    let place = setting.firsts[at].checked_add(number).ok_or(Memory)?;
    Ok(TermId { sort, place })
}

/// The term of a place, for the terms that stand around it.
pub(crate) fn place_around(
    alloc: Global,
    setting: &Setting,
    around: &Around,
    place: u32,
) -> Result<TermId, Memory>
    requires ready { IsReady setting.now }
    requires there { place < length setting.now.sk.now.places }
    ensures { IfOk result (λ t. t ≡ place_number setting.now place (arguments_around setting.now around.now place)) }
{
    let arguments = setting.sk.places.as_slice()[place as usize]
        .arguments
        .as_slice();
    let tuple = arguments_of(alloc, around, arguments)?;
    place_at(setting, place, tuple.as_slice())
}
