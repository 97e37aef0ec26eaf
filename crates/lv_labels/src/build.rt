//! The temporal formula of each constructor that has parts. The only error is want of memory.
ghost use Rattle.std.specs.Prelude.{◌≡◌, IfOk};

use lv_formula::{Memory, Rc, SortId, Temporal};
use std::alloc::Global;

pub(crate) fn not(alloc: Global, f: Temporal) -> Result<Temporal, Memory>
    ensures { IfOk result (λ g. g ≡ Temporal.Not f) }
{
    Ok(Temporal::Not(Rc::new(alloc, f)?))
}

pub(crate) fn implies(alloc: Global, a: Temporal, b: Temporal) -> Result<Temporal, Memory>
    ensures { IfOk result (λ g. g ≡ Temporal.Implies a b) }
{
    Ok(Temporal::Implies(Rc::new(alloc, a)?, Rc::new(alloc, b)?))
}

pub(crate) fn iff(alloc: Global, a: Temporal, b: Temporal) -> Result<Temporal, Memory>
    ensures { IfOk result (λ g. g ≡ Temporal.Iff a b) }
{
    Ok(Temporal::Iff(Rc::new(alloc, a)?, Rc::new(alloc, b)?))
}

pub(crate) fn all(alloc: Global, sort: SortId, f: Temporal) -> Result<Temporal, Memory>
    ensures { IfOk result (λ g. g ≡ Temporal.All sort f) }
{
    Ok(Temporal::All(sort, Rc::new(alloc, f)?))
}

pub(crate) fn any(alloc: Global, sort: SortId, f: Temporal) -> Result<Temporal, Memory>
    ensures { IfOk result (λ g. g ≡ Temporal.Any sort f) }
{
    Ok(Temporal::Any(sort, Rc::new(alloc, f)?))
}

pub(crate) fn always(alloc: Global, f: Temporal) -> Result<Temporal, Memory>
    ensures { IfOk result (λ g. g ≡ Temporal.Always f) }
{
    Ok(Temporal::Always(Rc::new(alloc, f)?))
}

pub(crate) fn eventually(alloc: Global, f: Temporal) -> Result<Temporal, Memory>
    ensures { IfOk result (λ g. g ≡ Temporal.Eventually f) }
{
    Ok(Temporal::Eventually(Rc::new(alloc, f)?))
}
