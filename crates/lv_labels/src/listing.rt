//! The labels of the `always` parts of a temporal formula.
ghost use Rattle.std.specs.Prelude.{◌≡◌, ◌++◌, get_or, map, IfOk, OnOk};
ghost use Rattle.lv_formula.specs.Contexts.{context_of};
ghost use Rattle.lv_labels.specs.Labels.{key_of, keys_of, keys_of_all, plain, plain_all};

use crate::build::{all, always, any, iff, implies, not};
use crate::key::Key;
use crate::renumber::{Renaming, rename};
use crate::variables::free_variables;
use lv_formula::{List, Memory, Rc, Scope, SortId, Temporal, Terms};
use std::alloc::Global;

/// The labels of the `always` parts of the formula, which stands in the scope, in order of text: an outer one
/// before those inside it, and equal ones as often as they occur. `eventually f` counts as
/// `not always not f`.
///
/// The error is want of memory, also where a variable's number would pass the greatest `u32`.
pub fn keys_of(alloc: Global, f: &Temporal, scope: &Scope) -> Result<List<Key>, Memory>
    ensures { IfOk result (λ keys. keys ≡ keys_of f.now (context_of scope.now)) }
{
    let mut found = Vec::new(alloc);
    push_keys(alloc, f, scope, &mut found)?;
    Ok(List::from_vec(found))
}

/// Adds the labels of the formula's `always` parts.
#[cycle(keys)]
pub(crate) fn push_keys(
    alloc: Global,
    f: &Temporal,
    scope: &Scope,
    found: &mut Vec<Key>,
) -> Result<(), Memory>
    ensures { OnOk result (found.new.items ≡ found.old.items ++ keys_of f.now (context_of scope.now)) }
{
    match f {
        Temporal::True | Temporal::False | Temporal::Atom(_, _) | Temporal::Same(_, _) => Ok(()),
        Temporal::Not(f) => push_keys(alloc, f, scope, found),
        Temporal::And(fs) | Temporal::Or(fs) => push_all_keys(alloc, fs.as_slice(), scope, found),
        Temporal::Implies(a, b) | Temporal::Iff(a, b) => {
            push_keys(alloc, a, scope, found)?;
            push_keys(alloc, b, scope, found)
        }
        Temporal::All(sort, f) | Temporal::Any(sort, f) => {
            push_keys(alloc, f, &Scope::Inner(*sort, &*scope), found)
        }
        Temporal::Always(f) => {
            found.push(key_of(alloc, &plain_of(alloc, f)?, scope)?)?;
            push_keys(alloc, f, scope, found)
        }
        Temporal::Eventually(f) => {
            found.push(key_of(alloc, &denied(alloc, f)?, scope)?)?;
            push_keys(alloc, f, scope, found)
        }
    }
}

#[cycle(keys)]
fn push_all_keys(
    alloc: Global,
    fs: &[Rc<Temporal>],
    scope: &Scope,
    found: &mut Vec<Key>,
) -> Result<(), Memory>
    ensures { OnOk result (found.new.items ≡ found.old.items ++ keys_of_all fs.now (context_of scope.now)) }
{
    for f in fs {
        push_keys(alloc, f, scope, found)?;
    }
    Ok(())
}

/// The label of `always f`, where `f` stands in the scope and has no `eventually`. A variable out of the scope
/// counts as of the first sort.
///
/// The error is want of memory, also where a variable's number would pass the greatest `u32`.
pub fn key_of(alloc: Global, f: &Temporal, scope: &Scope) -> Result<Key, Memory>
    ensures { IfOk result (λ key. key ≡ key_of (context_of scope.now) f.now) }
{
    let variables = free_variables(alloc, f)?;
    Ok(Key {
        sorts: sorts_of(alloc, variables.as_slice(), scope)?,
        inner: rename(alloc, f, &Renaming::Listed(variables.as_slice()))?,
    })
}

fn sorts_of(alloc: Global, variables: &[u32], scope: &Scope) -> Result<List<SortId>, Memory>
    ensures { IfOk result (λ sorts. sorts ≡ map (λ v. get_or (context_of scope.now) v (record { 0 = 0 })) variables.now) }
{
    let mut sorts = Vec::new(alloc);
    for v in variables {
        sorts.push(sort_of(*v, scope))?;
    }
    Ok(List::from_vec(sorts))
}

/// The sort of the variable, the first sort where the variable is out of the scope.
fn sort_of(v: u32, scope: &Scope) -> SortId
    ensures { result ≡ get_or (context_of scope.now) v (record { 0 = 0 }) }
{
    scope.sort(v).unwrap_or(SortId(0))
}

/// The formula with `not always not` for each `eventually`. The error is want of memory.
#[cycle(plain)]
pub fn plain_of(alloc: Global, f: &Temporal) -> Result<Temporal, Memory>
    ensures { IfOk result (λ g. g ≡ plain f.now) }
{
    Ok(match f {
        Temporal::True => Temporal::True,
        Temporal::False => Temporal::False,
        Temporal::Atom(sym, terms) => Temporal::Atom(*sym, Terms::of(alloc, terms.as_slice())?),
        Temporal::Same(a, b) => Temporal::Same(*a, *b),
        Temporal::Not(f) => not(alloc, plain_of(alloc, f)?)?,
        Temporal::And(fs) => Temporal::And(plain_all_of(alloc, fs.as_slice())?),
        Temporal::Or(fs) => Temporal::Or(plain_all_of(alloc, fs.as_slice())?),
        Temporal::Implies(a, b) => implies(alloc, plain_of(alloc, a)?, plain_of(alloc, b)?)?,
        Temporal::Iff(a, b) => iff(alloc, plain_of(alloc, a)?, plain_of(alloc, b)?)?,
        Temporal::All(sort, f) => all(alloc, *sort, plain_of(alloc, f)?)?,
        Temporal::Any(sort, f) => any(alloc, *sort, plain_of(alloc, f)?)?,
        Temporal::Always(f) => always(alloc, plain_of(alloc, f)?)?,
        Temporal::Eventually(f) => not_always_not(alloc, plain_of(alloc, f)?)?,
    })
}

#[cycle(plain)]
fn plain_all_of(alloc: Global, fs: &[Rc<Temporal>]) -> Result<List<Rc<Temporal>>, Memory>
    ensures { IfOk result (λ gs. gs ≡ plain_all fs.now) }
{
    let mut all = Vec::new(alloc);
    for f in fs {
        all.push(Rc::new(alloc, plain_of(alloc, f)?)?)?;
    }
    Ok(List::from_vec(all))
}

fn not_always_not(alloc: Global, f: Temporal) -> Result<Temporal, Memory>
    ensures { IfOk result (λ g. g ≡ Temporal.Not (Temporal.Always (Temporal.Not f))) }
{
    not(alloc, always(alloc, not(alloc, f)?)?)
}

/// What stands under the `always` that `eventually f` counts as.
pub(crate) fn denied(alloc: Global, f: &Temporal) -> Result<Temporal, Memory>
    ensures { IfOk result (λ g. g ≡ Temporal.Not (plain f.now)) }
{
    not(alloc, plain_of(alloc, f)?)
}
