//! Ground sentences under an assignment, and their terms.
ghost use Rattle.std.specs.Prelude.{◌≡◌, map, IfOk, OnOk, ◌<◌, ◌^◌};
ghost use Rattle.lv_cnf.specs.Literals.{assignment_of};
ghost use Rattle.lv_formula.specs.Tuples.{pairwise};
ghost use Rattle.lv_places.specs.Universes.{counts, product, tuple_number};
ghost use Rattle.lv_model.specs.Truths.{is_term, are_terms};

use lv_cnf::Assignment;
use lv_formula::{Memory, SortId};
use lv_places::{Grounded, Skolem, TermId};
use lv_skolem::Universe;

/// Ground sentences, and which of their atoms are true.
#[derive(Clone, Copy, Drop)]
pub(crate) struct Assigned<'a> {
    pub(crate) sk: &'a Skolem,
    pub(crate) u: &'a Universe,
    pub(crate) g: &'a Grounded,
    pub(crate) a: &'a Assignment,
}

/// Whether the atom with this number is true. One that has no value is false.
pub(crate) fn is_true(a: &Assignment, atom: usize) -> bool
    ensures { result ≡ assignment_of a.now atom }
{
    match a.as_slice().get(atom) {
        Some(value) => *value,
        None => false,
    }
}

/// The number as a `u32`. More elements than that have no room in memory.
pub(crate) fn small(number: usize) -> Result<u32, Memory>
    ensures { IfOk result (λ n. n ≡ number) }
{
    if number > u32::MAX as usize {
        return Err(Memory);
    }
    Ok(number as u32)
}

/// How many terms the sort has.
pub(crate) fn count_of(u: &Universe, sort: SortId) -> usize
    ensures { result ≡ counts u.now.terms sort }
{
    match u.terms.as_slice().get(sort.0 as usize) {
        Some(terms) => terms.as_slice().len(),
        None => 0,
    }
}

/// How many tuples of terms the sorts have.
pub(crate) fn product_of(u: &Universe, sorts: &[SortId]) -> Result<usize, Memory>
    ensures { IfOk result (λ k. k ≡ product (counts u.now.terms) sorts.now) }
{
    let mut all: usize = 1;
    for i in (0..sorts.len()).rev() {
        all = count_of(u, sorts[i]).checked_mul(all).ok_or(Memory)?;
    }
    Ok(all)
}

/// Whether it is a term of the sort.
fn is_term(u: &Universe, sort: SortId, term: TermId) -> bool
    ensures { result ≡ is_term (counts u.now.terms) sort term }
{
    term.sort.0 == sort.0 && (term.place as usize) < count_of(u, sort)
}

/// Whether there is one term for each of these sorts.
pub(crate) fn are_terms(u: &Universe, sorts: &[SortId], terms: &[TermId]) -> bool
    ensures { result ≡ are_terms (counts u.now.terms) sorts.now terms.now }
{
    if sorts.len() != terms.len() {
        return false;
    }
    for i in 0..sorts.len() {
        if !is_term(u, sorts[i], terms[i]) {
            return false;
        }
    }
    true
}

/// The number of a tuple of terms, in lexicographic order.
pub(crate) fn number_of(u: &Universe, tuple: &[TermId]) -> Result<usize, Memory>
    ensures { IfOk result (λ k. k ≡ tuple_number (counts u.now.terms) tuple.now) }
{
    let mut number: usize = 0;
    let mut weight: usize = 1;
    for i in (0..tuple.len()).rev() {
        let here = (tuple[i].place as usize).checked_mul(weight).ok_or(Memory)?;
        number = here.checked_add(number).ok_or(Memory)?;
        weight = count_of(u, tuple[i].sort)
            .checked_mul(weight)
            .ok_or(Memory)?;
    }
    Ok(number)
}
