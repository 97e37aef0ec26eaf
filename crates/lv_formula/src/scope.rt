ghost use Rattle.std.specs.Prelude.{◌≡◌, slice_get, reverse};
ghost use Rattle.lv_formula.specs.Contexts.{context_of};
ghost use Rattle.lv_formula.specs.Vocabulary.{relation_in};
ghost use Rattle.lv_formula.specs.Fits.{sort_of, is_sort, agree, have_sorts, are_arguments, has_sort, are_scoped, fits_up_to, all_fit_up_to};

use crate::formula::Formula;
use crate::lookup::Lookup;
use crate::rc::Rc;
use crate::symbols::{SortId, Sym};
use crate::terms::Term;

/// A context in parts, so that it can grow without memory.
#[derive(Drop)]
pub enum Scope<'a> {
    /// The sorts of the variables, the innermost last.
    Outer(&'a [SortId]),
    /// The sorts of further variables, the innermost last, inside a scope.
    Further(&'a [SortId], &'a Scope<'a>),
    /// One bound variable inside a scope.
    Inner(SortId, &'a Scope<'a>),
}

impl<'a> Scope<'a> {
    /// The sort of a variable, if it is in the scope.
    pub fn sort(&self, i: u32) -> Option<SortId>
        ensures { result ≡ slice_get (context_of self.now) i }
    {
        match self {
            Scope::Outer(sorts) => from_last(sorts, i),
            Scope::Further(sorts, outer) => {
                if (i as usize) < sorts.len() {
                    from_last(sorts, i)
                } else {
                    outer.sort(i - sorts.len() as u32)
                }
            }
            Scope::Inner(sort, outer) => {
                if i == 0 {
                    Some(*sort)
                } else {
                    outer.sort(i - 1)
                }
            }
        }
    }
}

/// The sort that has so many others behind it.
fn from_last(sorts: &[SortId], i: u32) -> Option<SortId>
    ensures { result ≡ slice_get (reverse sorts.now) i }
{
    let i = i as usize;
    if i < sorts.len() {
        Some(sorts[sorts.len() - 1 - i])
    } else {
        None
    }
}

/// Whether there is a sort, and it is this one.
fn have_sort(found: Option<SortId>, sort: SortId) -> bool
    ensures { result ≡ is_sort found sort }
{
    match found {
        Some(s) => s.0 == sort.0,
        None => false,
    }
}

/// The sort of a term, if it has one.
fn sort_of_term<L: Lookup>(term: &Term, lookup: &L, scope: &Scope) -> Option<SortId>
    ensures { result ≡ sort_of (L.vocabulary lookup.now) (context_of scope.now) term.now }
{
    match term {
        Term::Var(i) => scope.sort(*i),
        Term::Const(sym) => lookup.constant(*sym),
    }
}

/// Whether the term has this sort in the scope.
pub fn has_sort_in<L: Lookup>(term: &Term, sort: SortId, lookup: &L, scope: &Scope) -> bool
    ensures { result ≡ is_sort (sort_of (L.vocabulary lookup.now) (context_of scope.now) term.now) sort }
{
    have_sort(sort_of_term(term, lookup, scope), sort)
}

/// Whether both terms have a sort in the scope, the same one.
pub(crate) fn have_one_sort<L: Lookup>(a: &Term, b: &Term, lookup: &L, scope: &Scope) -> bool
    ensures { result ≡ agree (sort_of (L.vocabulary lookup.now) (context_of scope.now) a.now) (sort_of (L.vocabulary lookup.now) (context_of scope.now) b.now) }
{
    match sort_of_term(b, lookup, scope) {
        Some(sort) => have_sort(sort_of_term(a, lookup, scope), sort),
        None => false,
    }
}

/// Whether there are as many terms as sorts, and each term has the sort of its place.
#[tactic(auto, using(crate::proofs::FitsLemmas::lengths_differ))]
fn arguments_fit<L: Lookup>(terms: &[Term], sorts: &[SortId], lookup: &L, scope: &Scope) -> bool
    ensures { result ≡ have_sorts (L.vocabulary lookup.now) (context_of scope.now) terms.now sorts.now }
{
    if terms.len() != sorts.len() {
        return false;
    }
    for i in 0..terms.len() {
        if !has_sort_in(&terms[i], sorts[i], lookup, scope) {
            return false;
        }
    }
    true
}

/// Whether the relation is there, and the terms are arguments for it.
pub(crate) fn atom_fits<L: Lookup>(sym: &Sym, terms: &[Term], lookup: &L, scope: &Scope) -> bool
    ensures { result ≡ are_arguments (L.vocabulary lookup.now) (context_of scope.now) terms.now (relation_in (L.vocabulary lookup.now).relations sym.now) }
{
    match lookup.relation(sym) {
        Some(sorts) => arguments_fit(terms, sorts, lookup, scope),
        None => false,
    }
}

/// Whether each term has a sort.
fn all_have_sorts<L: Lookup>(terms: &[Term], lookup: &L, scope: &Scope) -> bool
    ensures { result ≡ are_scoped (L.vocabulary lookup.now) (context_of scope.now) terms.now }
{
    for term in terms {
        if !has_a_sort(term, lookup, scope) {
            return false;
        }
    }
    true
}

/// Whether the term has a sort.
fn has_a_sort<L: Lookup>(term: &Term, lookup: &L, scope: &Scope) -> bool
    ensures { result ≡ has_sort (sort_of (L.vocabulary lookup.now) (context_of scope.now) term.now) }
{
    match sort_of_term(term, lookup, scope) {
        Some(_) => true,
        None => false,
    }
}

/// Whether the formula stands in the scope.
#[cycle(fits)]
pub(crate) fn fits_in_scope<L: Lookup>(f: &Formula, lookup: &L, scope: &Scope) -> bool
    ensures { result ≡ fits_up_to (L.is_free lookup.now) (L.vocabulary lookup.now) (context_of scope.now) f.now }
{
    match f {
        Formula::True | Formula::False => true,
        Formula::Atom(sym, terms) => {
            if lookup.is_free(*sym) {
                all_have_sorts(terms.as_slice(), lookup, scope)
            } else {
                atom_fits(sym, terms.as_slice(), lookup, scope)
            }
        }
        Formula::Same(a, b) => have_one_sort(a, b, lookup, scope),
        Formula::Not(f) => fits_in_scope(f, lookup, scope),
        Formula::And(fs) | Formula::Or(fs) => all_fit_in_scope(fs.as_slice(), lookup, scope),
        Formula::Implies(a, b) | Formula::Iff(a, b) => {
            fits_in_scope(a, lookup, scope) && fits_in_scope(b, lookup, scope)
        }
        Formula::All(sort, f) | Formula::Any(sort, f) => {
            lookup.has_sort(*sort) && fits_in_scope(f, lookup, &Scope::Inner(*sort, &*scope))
        }
    }
}

/// Whether each formula stands in the scope.
#[cycle(fits)]
fn all_fit_in_scope<L: Lookup>(fs: &[Rc<Formula>], lookup: &L, scope: &Scope) -> bool
    ensures { result ≡ all_fit_up_to (L.is_free lookup.now) (L.vocabulary lookup.now) (context_of scope.now) fs.now }
{
    for f in fs {
        if !fits_in_scope(f, lookup, scope) {
            return false;
        }
    }
    true
}
