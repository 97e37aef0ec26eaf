ghost use Rattle.std.specs.Prelude.{◌≡◌, IfOk, IsTrue, ◌↔◌};
ghost use Rattle.lv_formula.specs.TemporalMeasures.{temporal_nodes_of, temporal_nodes_of_all};
ghost use Rattle.lv_formula.specs.Measures.{at_most_u64};
ghost use Rattle.lv_formula.specs.TemporalFits.{temporal_fits_in};
ghost use Rattle.lv_formula.specs.Contexts.{context_of};

use crate::list::List;
use crate::lookup::Lookup;
use crate::memory::Memory;
use crate::rc::Rc;
use crate::scope::Scope;
use crate::symbols::{SortId, Sym};
use crate::temporal_scope::temporal_fits_in_scope;
use crate::terms::{Term, Terms, equal_terms};
use std::alloc::Global;

/// A temporal formula: a formula with `Always` and `Eventually`.
#[derive(Debug, Drop)]
pub enum Temporal {
    True,
    False,
    /// The relation holds for the terms.
    Atom(Sym, Terms),
    /// The two terms are equal.
    Same(Term, Term),
    Not(Rc<Temporal>),
    And(List<Rc<Temporal>>),
    Or(List<Rc<Temporal>>),
    Implies(Rc<Temporal>, Rc<Temporal>),
    Iff(Rc<Temporal>, Rc<Temporal>),
    /// For all elements of the sort.
    All(SortId, Rc<Temporal>),
    /// For some element of the sort.
    Any(SortId, Rc<Temporal>),
    /// Now and at each later moment.
    Always(Rc<Temporal>),
    /// Now or at some later moment.
    Eventually(Rc<Temporal>),
}

impl Temporal {
    /// The temporal formulas in this one, itself included, ending at the greatest `u64`. A part is
    /// counted at each place where it stands.
    #[cycle(nodes)]
    pub fn nodes(&self) -> u64
        ensures { result ≡ at_most_u64 (temporal_nodes_of self.now) }
    {
        match self {
            Temporal::True | Temporal::False | Temporal::Atom(_, _) | Temporal::Same(_, _) => 1,
            Temporal::Not(f)
            | Temporal::All(_, f)
            | Temporal::Any(_, f)
            | Temporal::Always(f)
            | Temporal::Eventually(f) => f.nodes().saturating_add(1),
            Temporal::And(fs) | Temporal::Or(fs) => nodes_of_list(fs.as_slice()).saturating_add(1),
            Temporal::Implies(a, b) | Temporal::Iff(a, b) => {
                a.nodes().saturating_add(b.nodes()).saturating_add(1)
            }
        }
    }

    /// Whether the temporal formula stands in the scope over what is looked up: each variable is bound or in
    /// the scope, each symbol is the vocabulary's, and each term has the sort of its place.
    pub fn fits_over<L: Lookup>(&self, lookup: &L, scope: &Scope) -> bool
        ensures { result ≡ temporal_fits_in (L.vocabulary lookup.now) (context_of scope.now) self.now }
    {
        temporal_fits_in_scope(self, lookup, scope)
    }

    /// Whether the two are one temporal formula.
    #[cycle(equal)]
    pub fn equal(&self, other: &Temporal) -> bool
        ensures { IsTrue result ↔ (self.now ≡ other.now) }
    {
        match (self, other) {
            (Temporal::True, Temporal::True) | (Temporal::False, Temporal::False) => true,
            (Temporal::Atom(sym, terms), Temporal::Atom(other_sym, other_terms)) => {
                sym.is(other_sym) && equal_terms(terms.as_slice(), other_terms.as_slice())
            }
            (Temporal::Same(a, b), Temporal::Same(c, d)) => a.is(c) && b.is(d),
            (Temporal::Not(f), Temporal::Not(g))
            | (Temporal::Always(f), Temporal::Always(g))
            | (Temporal::Eventually(f), Temporal::Eventually(g)) => f.equal(g),
            (Temporal::And(fs), Temporal::And(gs)) | (Temporal::Or(fs), Temporal::Or(gs)) => {
                equal_lists(fs.as_slice(), gs.as_slice())
            }
            (Temporal::Implies(a, b), Temporal::Implies(c, d))
            | (Temporal::Iff(a, b), Temporal::Iff(c, d)) => a.equal(c) && b.equal(d),
            (Temporal::All(s, f), Temporal::All(t, g))
            | (Temporal::Any(s, f), Temporal::Any(t, g)) => s.is(t) && f.equal(g),
            _ => false,
        }
    }

    /// An equal temporal formula, which shares its parts with this one. The error is want of memory.
    pub fn share(&self, alloc: Global) -> Result<Temporal, Memory>
        ensures { IfOk result (λ f. f ≡ self.now) }
    {
        Ok(match self {
            Temporal::True => Temporal::True,
            Temporal::False => Temporal::False,
            Temporal::Atom(sym, terms) => Temporal::Atom(*sym, Terms::of(alloc, terms.as_slice())?),
            Temporal::Same(a, b) => Temporal::Same(*a, *b),
            Temporal::Not(f) => Temporal::Not(f.clone()?),
            Temporal::And(fs) => Temporal::And(share_all(alloc, fs.as_slice())?),
            Temporal::Or(fs) => Temporal::Or(share_all(alloc, fs.as_slice())?),
            Temporal::Implies(a, b) => Temporal::Implies(a.clone()?, b.clone()?),
            Temporal::Iff(a, b) => Temporal::Iff(a.clone()?, b.clone()?),
            Temporal::All(sort, f) => Temporal::All(*sort, f.clone()?),
            Temporal::Any(sort, f) => Temporal::Any(*sort, f.clone()?),
            Temporal::Always(f) => Temporal::Always(f.clone()?),
            Temporal::Eventually(f) => Temporal::Eventually(f.clone()?),
        })
    }
}

#[cycle(nodes)]
fn nodes_of_list(fs: &[Rc<Temporal>]) -> u64
    ensures { result ≡ at_most_u64 (temporal_nodes_of_all fs.now) }
{
    let mut sum = 0u64;
    for f in fs {
        sum = sum.saturating_add(f.nodes());
    }
    sum
}

#[cycle(equal)]
fn equal_lists(fs: &[Rc<Temporal>], gs: &[Rc<Temporal>]) -> bool
    ensures { IsTrue result ↔ (fs.now ≡ gs.now) }
{
    if fs.len() != gs.len() {
        return false;
    }
    for i in 0..fs.len() {
        if !fs[i].equal(&gs[i]) {
            return false;
        }
    }
    true
}

fn share_all(alloc: Global, fs: &[Rc<Temporal>]) -> Result<List<Rc<Temporal>>, Memory>
    ensures { IfOk result (λ gs. gs ≡ fs.now) }
{
    let mut all = Vec::new(alloc);
    for f in fs {
        all.push(f.clone()?)?;
    }
    Ok(List::from_vec(all))
}
