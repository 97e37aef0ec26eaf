//! The builders: each gives the formula of its constructor. Their only error is want of memory.
ghost use Rattle.std.specs.Prelude.{◌≡◌, ◌≤◌, IfOk, IsOk, length};

use crate::formula::Formula;
use crate::list::List;
use crate::memory::Memory;
use crate::rc::Rc;
use crate::symbols::{SortId, Sym};
use crate::terms::{Term, Terms};
use std::alloc::Global;

/// The two terms are equal. Takes no memory.
pub fn same(a: Term, b: Term) -> Formula
    ensures { result ≡ Formula.Same a b }
{
    Formula::Same(a, b)
}

/// The relation holds for the terms. Only more than four of them ask for memory.
pub fn atom(alloc: Global, sym: Sym, terms: &[Term]) -> Result<Formula, Memory>
    ensures value { IfOk result (λ f. f ≡ Formula.Atom sym terms.now) }
    ensures four { length terms.now ≤ 4 → IsOk result }
{
    Ok(Formula::Atom(sym, Terms::of(alloc, terms)?))
}

/// The formula does not hold.
pub fn not(alloc: Global, f: Formula) -> Result<Formula, Memory>
    ensures { IfOk result (λ g. g ≡ Formula.Not f) }
{
    Ok(Formula::Not(Rc::new(alloc, f)?))
}

/// Each of the parts holds.
pub fn and(alloc: Global, parts: &[Formula]) -> Result<Formula, Memory>
    ensures { IfOk result (λ f. f ≡ Formula.And parts.now) }
{
    Ok(Formula::And(shared_all(alloc, parts)?))
}

/// Some of the parts holds.
pub fn or(alloc: Global, parts: &[Formula]) -> Result<Formula, Memory>
    ensures { IfOk result (λ f. f ≡ Formula.Or parts.now) }
{
    Ok(Formula::Or(shared_all(alloc, parts)?))
}

/// If the first holds, so does the second.
pub fn implies(alloc: Global, a: Formula, b: Formula) -> Result<Formula, Memory>
    ensures { IfOk result (λ f. f ≡ Formula.Implies a b) }
{
    Ok(Formula::Implies(Rc::new(alloc, a)?, Rc::new(alloc, b)?))
}

/// Both hold, or neither does.
pub fn iff(alloc: Global, a: Formula, b: Formula) -> Result<Formula, Memory>
    ensures { IfOk result (λ f. f ≡ Formula.Iff a b) }
{
    Ok(Formula::Iff(Rc::new(alloc, a)?, Rc::new(alloc, b)?))
}

/// The formula holds for each element of the sort, which becomes variable 0.
pub fn all(alloc: Global, sort: SortId, f: Formula) -> Result<Formula, Memory>
    ensures { IfOk result (λ g. g ≡ Formula.All sort f) }
{
    Ok(Formula::All(sort, Rc::new(alloc, f)?))
}

/// The formula holds for some element of the sort, which becomes variable 0.
pub fn any(alloc: Global, sort: SortId, f: Formula) -> Result<Formula, Memory>
    ensures { IfOk result (λ g. g ≡ Formula.Any sort f) }
{
    Ok(Formula::Any(sort, Rc::new(alloc, f)?))
}

fn shared_all(alloc: Global, parts: &[Formula]) -> Result<List<Rc<Formula>>, Memory>
    ensures { IfOk result (λ fs. fs ≡ parts.now) }
{
    let mut all = Vec::new(alloc);
    for part in parts {
        all.push(Rc::new(alloc, part.share(alloc)?)?)?;
    }
    Ok(List::from_vec(all))
}
