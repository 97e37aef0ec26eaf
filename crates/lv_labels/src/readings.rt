//! The readings of temporal formulas as formulas over labels.
ghost use Rattle.std.specs.Prelude.{◌≡◌, reverse, map, IfOk};
ghost use Rattle.lv_formula.specs.declared.terms.Term.TheVariants.{Var};
ghost use Rattle.lv_formula.specs.Contexts.{context_of};
ghost use Rattle.lv_labels.specs.Labels.{label_atom, reading, readings};

use crate::known::KnownKeys;
use crate::labelling::LabelTable;
use crate::listing::{denied, key_of, plain_of};
use crate::variables::free_variables;
use lv_formula::{
    Formula, List, Memory, Rc, Scope, SortId, Sym, Temporal, Term, Terms, all, any, iff, implies,
    not,
};
use std::alloc::Global;

/// The reading of a temporal formula as a formula over the table's labels: in place of each outermost `always f`
/// stands the atom of its label, with the free variables of `f` in order of first occurrence, and in place of
/// each outermost `eventually f` the negated atom of the label of `always not f`. The context has the sorts of
/// the formula's variables, the innermost last. A label that the table lacks is read as the one past its last.
///
/// The error is want of memory, also where a variable's number would pass the greatest `u32`.
pub fn reading(
    alloc: Global,
    f: &Temporal,
    context: &[SortId],
    table: &LabelTable,
) -> Result<Formula, Memory>
    ensures { IfOk result (λ g. g ≡ reading table.now.keys (reverse context.now) f.now) }
{
    read(alloc, f, &Scope::Outer(context), &table.keys)
}

/// The reading in a scope.
#[cycle(read)]
pub(crate) fn read(
    alloc: Global,
    f: &Temporal,
    scope: &Scope,
    keys: &KnownKeys,
) -> Result<Formula, Memory>
    ensures { IfOk result (λ g. g ≡ reading keys.now (context_of scope.now) f.now) }
{
    Ok(match f {
        Temporal::True => Formula::True,
        Temporal::False => Formula::False,
        Temporal::Atom(sym, terms) => Formula::Atom(*sym, Terms::of(alloc, terms.as_slice())?),
        Temporal::Same(a, b) => Formula::Same(*a, *b),
        Temporal::Not(f) => not(alloc, read(alloc, f, scope, keys)?)?,
        Temporal::And(fs) => Formula::And(read_all(alloc, fs.as_slice(), scope, keys)?),
        Temporal::Or(fs) => Formula::Or(read_all(alloc, fs.as_slice(), scope, keys)?),
        Temporal::Implies(a, b) => implies(
            alloc,
            read(alloc, a, scope, keys)?,
            read(alloc, b, scope, keys)?,
        )?,
        Temporal::Iff(a, b) => iff(
            alloc,
            read(alloc, a, scope, keys)?,
            read(alloc, b, scope, keys)?,
        )?,
        Temporal::All(sort, f) => all(
            alloc,
            *sort,
            read(alloc, f, &Scope::Inner(*sort, &*scope), keys)?,
        )?,
        Temporal::Any(sort, f) => any(
            alloc,
            *sort,
            read(alloc, f, &Scope::Inner(*sort, &*scope), keys)?,
        )?,
        Temporal::Always(f) => read_always(alloc, f, scope, keys)?,
        Temporal::Eventually(f) => read_eventually(alloc, f, scope, keys)?,
    })
}

#[cycle(read)]
fn read_all(
    alloc: Global,
    fs: &[Rc<Temporal>],
    scope: &Scope,
    keys: &KnownKeys,
) -> Result<List<Rc<Formula>>, Memory>
    ensures { IfOk result (λ gs. gs ≡ readings keys.now fs.now (context_of scope.now)) }
{
    let mut all = Vec::new(alloc);
    for f in fs {
        all.push(Rc::new(alloc, read(alloc, f, scope, keys)?)?)?;
    }
    Ok(List::from_vec(all))
}

/// The reading of `always f`.
#[tactic(auto, using(crate::proofs::Plain::always_read))]
fn read_always(
    alloc: Global,
    f: &Temporal,
    scope: &Scope,
    keys: &KnownKeys,
) -> Result<Formula, Memory>
    ensures { IfOk result (λ g. g ≡ reading keys.now (context_of scope.now) (Temporal.Always f.now)) }
{
    let inner = plain_of(alloc, f)?;
    Ok(label_atom(alloc, &inner, scope, keys)?)
}

/// The reading of `eventually f`.
#[tactic(auto, using(crate::proofs::Plain::eventually_read))]
fn read_eventually(
    alloc: Global,
    f: &Temporal,
    scope: &Scope,
    keys: &KnownKeys,
) -> Result<Formula, Memory>
    ensures { IfOk result (λ g. g ≡ reading keys.now (context_of scope.now) (Temporal.Eventually f.now)) }
{
    let inner = denied(alloc, f)?;
    not(alloc, label_atom(alloc, &inner, scope, keys)?)
}

/// The atom of the label of `always f`, where `f` has no `eventually`, with the free variables of `f` in order of first occurrence.
fn label_atom(
    alloc: Global,
    f: &Temporal,
    scope: &Scope,
    keys: &KnownKeys,
) -> Result<Formula, Memory>
    ensures { IfOk result (λ g. g ≡ label_atom keys.now (context_of scope.now) f.now) }
{
    let key = key_of(alloc, f, scope)?;
    let variables = free_variables(alloc, f)?;
    let terms = terms_of(alloc, variables.as_slice())?;
    Ok(Formula::Atom(Sym::Label(keys.number(&key)), terms))
}

fn terms_of(alloc: Global, variables: &[u32]) -> Result<Terms, Memory>
    ensures { IfOk result (λ terms. terms ≡ map Var variables.now) }
{
    let mut terms = Vec::new(alloc);
    for v in variables {
        terms.push(Term::Var(*v))?;
    }
    Terms::of(alloc, terms.as_slice())
}
