//! The free variables of a temporal formula.
ghost use Rattle.std.specs.Prelude.{◌≡◌, ◌++◌, eqb, IfOk, OnOk};
ghost use Rattle.lv_labels.specs.Once.{each_once, is_among, place_of};
ghost use Rattle.lv_labels.specs.Renaming.{free_variables, occurrences_of, occurrences_of_all, outside, term_variables, terms_variables};

use lv_formula::{List, Memory, Rc, Temporal, Term};
use std::alloc::Global;

/// The free variables of the formula, each once, in order of first occurrence. The error is want of memory.
pub fn free_variables(alloc: Global, f: &Temporal) -> Result<List<u32>, Memory>
    ensures { IfOk result (λ variables. variables ≡ free_variables f.now) }
{
    let mut occurrences = Vec::new(alloc);
    push_occurrences(alloc, f, &mut occurrences)?;
    once(alloc, occurrences.as_slice())
}

/// Adds the free variables where they occur, from left to right.
#[cycle(occurrences)]
fn push_occurrences(alloc: Global, f: &Temporal, found: &mut Vec<u32>) -> Result<(), Memory>
    ensures { OnOk result (found.new.items ≡ found.old.items ++ occurrences_of f.now) }
{
    match f {
        Temporal::True | Temporal::False => Ok(()),
        Temporal::Atom(_, terms) => push_of_terms(terms.as_slice(), found),
        Temporal::Same(a, b) => {
            push_of_term(a, found)?;
            push_of_term(b, found)
        }
        Temporal::Not(f) | Temporal::Always(f) | Temporal::Eventually(f) => {
            push_occurrences(alloc, f, found)
        }
        Temporal::And(fs) | Temporal::Or(fs) => push_all_occurrences(alloc, fs.as_slice(), found),
        Temporal::Implies(a, b) | Temporal::Iff(a, b) => {
            push_occurrences(alloc, a, found)?;
            push_occurrences(alloc, b, found)
        }
        Temporal::All(_, f) | Temporal::Any(_, f) => {
            let mut inside = Vec::new(alloc);
            push_occurrences(alloc, f, &mut inside)?;
            push_outside(inside.as_slice(), found)
        }
    }
}

#[cycle(occurrences)]
fn push_all_occurrences(
    alloc: Global,
    fs: &[Rc<Temporal>],
    found: &mut Vec<u32>,
) -> Result<(), Memory>
    ensures { OnOk result (found.new.items ≡ found.old.items ++ occurrences_of_all fs.now) }
{
    for f in fs {
        push_occurrences(alloc, f, found)?;
    }
    Ok(())
}

fn push_of_terms(terms: &[Term], found: &mut Vec<u32>) -> Result<(), Memory>
    ensures { OnOk result (found.new.items ≡ found.old.items ++ terms_variables terms.now) }
{
    for term in terms {
        push_of_term(term, found)?;
    }
    Ok(())
}

fn push_of_term(term: &Term, found: &mut Vec<u32>) -> Result<(), Memory>
    ensures { OnOk result (found.new.items ≡ found.old.items ++ term_variables term.now) }
{
    if let Term::Var(v) = term {
        found.push(*v)?;
    }
    Ok(())
}

/// Adds the variables as they are called outside one binder. The binder's own is not free there.
fn push_outside(inside: &[u32], found: &mut Vec<u32>) -> Result<(), Memory>
    ensures { OnOk result (found.new.items ≡ found.old.items ++ outside inside.now) }
{
    for v in inside {
        if *v > 0 {
            found.push(*v - 1)?;
        }
    }
    Ok(())
}

/// Each variable once, at its first place.
fn once(alloc: Global, variables: &[u32]) -> Result<List<u32>, Memory>
    ensures { IfOk result (λ known. known ≡ each_once eqb variables.now) }
{
    let mut known = Vec::new(alloc);
    for v in variables {
        if !is_known(known.as_slice(), *v) {
            known.push(*v)?;
        }
    }
    Ok(List::from_vec(known))
}

fn is_known(known: &[u32], v: u32) -> bool
    ensures { result ≡ is_among eqb v known.now }
{
    for other in known {
        if v == *other {
            return true;
        }
    }
    false
}

/// The place of the variable, the number of variables where it is not there.
pub(crate) fn place(variables: &[u32], v: u32) -> usize
    ensures { result ≡ place_of eqb v variables.now }
{
    for (i, other) in variables.iter().enumerate() {
        if v == *other {
            return i;
        }
    }
    variables.len()
}
