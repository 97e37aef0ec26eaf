ghost use Rattle.std.specs.Prelude.{◌≡◌, IfOk, IsTrue, ◌↔◌, reverse};
ghost use Rattle.lv_formula.specs.Fits.{fits_in, fits_up_to};
ghost use Rattle.lv_formula.specs.Contexts.{context_of};
ghost use Rattle.lv_formula.specs.Measures.{depth_of, depth_of_all, at_most_u32, nodes_of, nodes_of_all, at_most_u64, free_bound_of, free_bound_of_all};

use crate::list::List;
use crate::lookup::Lookup;
use crate::memory::Memory;
use crate::rc::Rc;
use crate::scope::{Scope, fits_in_scope};
use crate::symbols::{SortId, Sym};
use crate::terms::{Term, Terms, bound_of_terms, equal_terms};
use crate::vocabulary::Vocabulary;
use std::alloc::Global;

/// A formula of first-order logic with sorts, which stands in a context: a list of the sorts of its
/// free variables.
#[derive(Debug, Drop)]
pub enum Formula {
    True,
    False,
    /// The relation holds for the terms.
    Atom(Sym, Terms),
    /// The two terms are equal.
    Same(Term, Term),
    Not(Rc<Formula>),
    And(List<Rc<Formula>>),
    Or(List<Rc<Formula>>),
    Implies(Rc<Formula>, Rc<Formula>),
    Iff(Rc<Formula>, Rc<Formula>),
    /// For all elements of the sort.
    All(SortId, Rc<Formula>),
    /// For some element of the sort.
    Any(SortId, Rc<Formula>),
}

impl Formula {
    /// The greatest number of binders that stand inside one another, ending at the greatest `u32`.
    #[cycle(depth)]
    pub fn depth(&self) -> u32
        ensures { result ≡ at_most_u32 (depth_of self.now) }
    {
        match self {
            Formula::True | Formula::False | Formula::Atom(_, _) | Formula::Same(_, _) => 0,
            Formula::Not(f) => f.depth(),
            Formula::And(fs) | Formula::Or(fs) => depth_of_list(fs.as_slice()),
            Formula::Implies(a, b) | Formula::Iff(a, b) => a.depth().max(b.depth()),
            Formula::All(_, f) | Formula::Any(_, f) => f.depth().saturating_add(1),
        }
    }

    /// The formulas in this one, itself included, ending at the greatest `u64`. A part is counted at
    /// each place where it stands.
    #[cycle(nodes)]
    pub fn nodes(&self) -> u64
        ensures { result ≡ at_most_u64 (nodes_of self.now) }
    {
        match self {
            Formula::True | Formula::False | Formula::Atom(_, _) | Formula::Same(_, _) => 1,
            Formula::Not(f) | Formula::All(_, f) | Formula::Any(_, f) => f
                .nodes()
                .saturating_add(1),
            Formula::And(fs) | Formula::Or(fs) => nodes_of_list(fs.as_slice()).saturating_add(1),
            Formula::Implies(a, b) | Formula::Iff(a, b) => a
                .nodes()
                .saturating_add(b.nodes())
                .saturating_add(1),
        }
    }

    /// The least number above every free variable.
    #[cycle(free)]
    pub fn free_bound(&self) -> u64
        ensures { result ≡ free_bound_of self.now }
    {
        match self {
            Formula::True | Formula::False => 0,
            Formula::Atom(_, terms) => bound_of_terms(terms.as_slice()),
            Formula::Same(a, b) => a.bound().max(b.bound()),
            Formula::Not(f) => f.free_bound(),
            Formula::And(fs) | Formula::Or(fs) => bound_of_list(fs.as_slice()),
            Formula::Implies(a, b) | Formula::Iff(a, b) => a.free_bound().max(b.free_bound()),
            Formula::All(_, f) | Formula::Any(_, f) => f.free_bound().saturating_sub(1),
        }
    }

    /// An equal formula, which shares its parts with this one. The error is want of memory.
    pub fn share(&self, alloc: Global) -> Result<Formula, Memory>
        ensures { IfOk result (λ f. f ≡ self.now) }
    {
        Ok(match self {
            Formula::True => Formula::True,
            Formula::False => Formula::False,
            Formula::Atom(sym, terms) => Formula::Atom(*sym, Terms::of(alloc, terms.as_slice())?),
            Formula::Same(a, b) => Formula::Same(*a, *b),
            Formula::Not(f) => Formula::Not(f.clone()?),
            Formula::And(fs) => Formula::And(share_all(alloc, fs.as_slice())?),
            Formula::Or(fs) => Formula::Or(share_all(alloc, fs.as_slice())?),
            Formula::Implies(a, b) => Formula::Implies(a.clone()?, b.clone()?),
            Formula::Iff(a, b) => Formula::Iff(a.clone()?, b.clone()?),
            Formula::All(sort, f) => Formula::All(*sort, f.clone()?),
            Formula::Any(sort, f) => Formula::Any(*sort, f.clone()?),
        })
    }

    /// Whether the formula stands in the context over the vocabulary: each variable is bound or in the
    /// context, each symbol is the vocabulary's, and each term has the sort of its place. The context
    /// lists the innermost variable's sort last.
    #[tactic(auto, using(crate::proofs::FitsLemmas::fits_where_none_is_free))]
    pub fn fits(&self, voc: &Vocabulary, context: &[SortId]) -> bool
        ensures { result ≡ fits_in voc.now (reverse context.now) self.now }
    {
        fits_in_scope(self, voc, &Scope::Outer(context))
    }

    /// Whether the formula stands in the scope over what is looked up, where the relations that are
    /// free may have any terms that have a sort.
    pub fn fits_over<L: Lookup>(&self, lookup: &L, scope: &Scope) -> bool
        ensures { result ≡ fits_up_to (L.is_free lookup.now) (L.vocabulary lookup.now) (context_of scope.now) self.now }
    {
        fits_in_scope(self, lookup, scope)
    }

    /// Whether the two are one formula.
    #[cycle(equal)]
    pub fn equal(&self, other: &Formula) -> bool
        ensures { IsTrue result ↔ (self.now ≡ other.now) }
    {
        match (self, other) {
            (Formula::True, Formula::True) | (Formula::False, Formula::False) => true,
            (Formula::Atom(sym, terms), Formula::Atom(other_sym, other_terms)) => {
                sym.is(other_sym) && equal_terms(terms.as_slice(), other_terms.as_slice())
            }
            (Formula::Same(a, b), Formula::Same(c, d)) => a.is(c) && b.is(d),
            (Formula::Not(f), Formula::Not(g)) => f.equal(g),
            (Formula::And(fs), Formula::And(gs)) | (Formula::Or(fs), Formula::Or(gs)) => {
                equal_lists(fs.as_slice(), gs.as_slice())
            }
            (Formula::Implies(a, b), Formula::Implies(c, d))
            | (Formula::Iff(a, b), Formula::Iff(c, d)) => { a.equal(c) && b.equal(d) }
            (Formula::All(s, f), Formula::All(t, g)) | (Formula::Any(s, f), Formula::Any(t, g)) => {
                s.is(t) && f.equal(g)
            }
            _ => false,
        }
    }
}

#[cycle(equal)]
fn equal_lists(fs: &[Rc<Formula>], gs: &[Rc<Formula>]) -> bool
    ensures { IsTrue result ↔ (fs.now ≡ gs.now) }
{
    if fs.len() != gs.len() {
        return false;
    }
    for i in 0..fs.len() {
        if !fs[i].equal(&gs[i]) {
            return false;
        }
    }
    true
}

#[cycle(depth)]
fn depth_of_list(fs: &[Rc<Formula>]) -> u32
    ensures { result ≡ at_most_u32 (depth_of_all fs.now) }
{
    let mut most = 0;
    for f in fs {
        most = most.max(f.depth());
    }
    most
}

#[cycle(nodes)]
fn nodes_of_list(fs: &[Rc<Formula>]) -> u64
    ensures { result ≡ at_most_u64 (nodes_of_all fs.now) }
{
    let mut sum = 0u64;
    for f in fs {
        sum = sum.saturating_add(f.nodes());
    }
    sum
}

#[cycle(free)]
fn bound_of_list(fs: &[Rc<Formula>]) -> u64
    ensures { result ≡ free_bound_of_all fs.now }
{
    let mut most = 0;
    for f in fs {
        most = most.max(f.free_bound());
    }
    most
}

fn share_all(alloc: Global, fs: &[Rc<Formula>]) -> Result<List<Rc<Formula>>, Memory>
    ensures { IfOk result (λ gs. gs ≡ fs.now) }
{
    let mut all = Vec::new(alloc);
    for f in fs {
        all.push(f.clone()?)?;
    }
    Ok(List::from_vec(all))
}
