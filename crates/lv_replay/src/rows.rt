ghost use Rattle.std.specs.Prelude.{◌≡◌, ◌<◌, ◌∷◌, ℕ, IfOk, length, map, drop, eqb, leb, min, not};
ghost use Rattle.lv_struct.specs.Tables.{meaning};
ghost use Rattle.lv_formula.specs.Truth.{value_of, values_of};
ghost use Rattle.lv_replay.specs.Rows.{are_true, first_state, has_terms, joined, joined_all, joined_below, later, plain, row_of};

use crate::joins::Join;
use lv_formula::{List, Memory, Rc, SortId, Sym, Temporal, Term};
use lv_struct::{Elements, Structure};
use std::alloc::Global;

/// Whether the temporal formula holds at each of the positions, whose states are given and of which the loop
/// begins at `stem`. The values are those of the free variables, the innermost first. The error is want of memory.
#[cycle(row)]
pub(crate) fn row(
    alloc: Global,
    f: &Temporal,
    states: &[Structure],
    stem: usize,
    values: &[u32],
) -> Result<List<bool>, Memory>
    requires { 0 < length states.now }
    ensures { IfOk result (λ r. r ≡ row_of (map meaning states.now) stem f.now values.now) }
{
    match f {
        Temporal::True => same_everywhere(alloc, true, states),
        Temporal::False => same_everywhere(alloc, false, states),
        Temporal::Atom(sym, terms) => atom_row(alloc, *sym, terms.as_slice(), states, values),
        Temporal::Same(a, b) => same_row(alloc, a, b, states, values),
        Temporal::Not(f) => opposite(alloc, row(alloc, f, states, stem, values)?.as_slice()),
        Temporal::And(fs) => {
            join_each(alloc, Join::And, true, fs.as_slice(), states, stem, values)
        }
        Temporal::Or(fs) => {
            join_each(alloc, Join::Or, false, fs.as_slice(), states, stem, values)
        }
        Temporal::Implies(a, b) => {
            let first = row(alloc, a, states, stem, values)?;
            let second = row(alloc, b, states, stem, values)?;
            join_rows(alloc, Join::Implies, first.as_slice(), second.as_slice())
        }
        Temporal::Iff(a, b) => {
            let first = row(alloc, a, states, stem, values)?;
            let second = row(alloc, b, states, stem, values)?;
            join_rows(alloc, Join::Iff, first.as_slice(), second.as_slice())
        }
        Temporal::All(sort, f) => {
            join_elements(alloc, Join::And, true, *sort, f, states, stem, values)
        }
        Temporal::Any(sort, f) => {
            join_elements(alloc, Join::Or, false, *sort, f, states, stem, values)
        }
        Temporal::Always(f) => {
            at_each_later(alloc, stem, row(alloc, f, states, stem, values)?.as_slice())
        }
        Temporal::Eventually(f) => {
            at_some_later(alloc, stem, row(alloc, f, states, stem, values)?.as_slice())
        }
    }
}

/// The row with those of the formulas joined to it. The error is want of memory.
#[cycle(row)]
fn join_each(
    alloc: Global,
    how: Join,
    first: bool,
    fs: &[Rc<Temporal>],
    states: &[Structure],
    stem: usize,
    values: &[u32],
) -> Result<List<bool>, Memory>
    requires { 0 < length states.now }
    ensures { IfOk result (λ r. r ≡ joined_all how (map (λ m. first) (map meaning states.now)) (map (row_of (map meaning states.now) stem) fs.now) values.now) }
{
    let mut joined = same_everywhere(alloc, first, states)?;
    for f in fs {
        let next = row(alloc, f, states, stem, values)?;
        joined = join_rows(alloc, how, joined.as_slice(), next.as_slice())?;
    }
    Ok(joined)
}

/// The row with those of the elements of the sort joined to it, each as the innermost value. The error is want of memory.
#[cycle(row)]
fn join_elements(
    alloc: Global,
    how: Join,
    first: bool,
    sort: SortId,
    f: &Temporal,
    states: &[Structure],
    stem: usize,
    values: &[u32],
) -> Result<List<bool>, Memory>
    requires { 0 < length states.now }
    ensures { IfOk result (λ r. r ≡ joined_below how (map (λ m. first) (map meaning states.now)) ((first_state (map meaning states.now)).size sort) (row_of (map meaning states.now) stem f.now) values.now) }
{
    let mut joined = same_everywhere(alloc, first, states)?;
    for x in 0..states[0].size(sort) {
        let mut inner = Vec::new(alloc);
        inner.push(x)?;
        inner.extend_from_slice(values)?;
        let next = row(alloc, f, states, stem, inner.as_slice())?;
        joined = join_rows(alloc, how, joined.as_slice(), next.as_slice())?;
    }
    Ok(joined)
}

/// The two rows joined position by position. The error is want of memory.
fn join_rows(alloc: Global, how: Join, a: &[bool], b: &[bool]) -> Result<List<bool>, Memory>
    ensures { IfOk result (λ r. r ≡ joined how a.now b.now) }
{
    let mut row = Vec::new(alloc);
    for i in 0..least(a.len(), b.len()) {
        row.push(how.apply(a[i], b[i]))?;
    }
    Ok(List::from_vec(row))
}

/// The row with each truth value turned. The error is want of memory.
fn opposite(alloc: Global, values: &[bool]) -> Result<List<bool>, Memory>
    ensures { IfOk result (λ r. r ≡ map not values.now) }
{
    let mut row = Vec::new(alloc);
    for value in values {
        row.push(!*value)?;
    }
    Ok(List::from_vec(row))
}

/// For each position whether the row is true at each later one. The error is want of memory.
fn at_each_later(alloc: Global, stem: usize, values: &[bool]) -> Result<List<bool>, Memory>
    ensures { IfOk result (λ r. r ≡ later stem values.now) }
{
    let from = true_from(values);
    let mut row = Vec::new(alloc);
    for i in 0..values.len() {
        row.push(from <= least(i, stem))?;
    }
    Ok(List::from_vec(row))
}

/// For each position whether the row is true at some later one. The error is want of memory.
fn at_some_later(alloc: Global, stem: usize, values: &[bool]) -> Result<List<bool>, Memory>
    ensures { IfOk result (λ r. r ≡ map not (later stem (map not values.now))) }
{
    let never = opposite(alloc, values)?;
    let all = at_each_later(alloc, stem, never.as_slice())?;
    opposite(alloc, all.as_slice())
}

/// The lesser of the two.
fn least(a: usize, b: usize) -> usize
    ensures { result ≡ min a b }
{
    if a < b { a } else { b }
}

/// The first place from which on all truth values are true; the end, where the last one is false.
fn true_from(values: &[bool]) -> usize
    ensures { (k : ℕ) → are_true (drop k values.now) ≡ leb result k }
{
    let mut from = 0;
    for i in 0..values.len() {
        if !values[i] {
            from = i + 1;
        }
    }
    from
}

/// The one truth value at each position. The error is want of memory.
fn same_everywhere(alloc: Global, value: bool, states: &[Structure]) -> Result<List<bool>, Memory>
    ensures { IfOk result (λ r. r ≡ map (λ m. value) (map meaning states.now)) }
{
    let mut row = Vec::new(alloc);
    for state in states {
        let _ = state;
        row.push(value)?;
    }
    Ok(List::from_vec(row))
}

/// The elements that some terms stand for, as a tuple.
#[derive(Clone, Copy, Drop)]
struct TermElements<'a> {
    terms: &'a [Term],
    structure: &'a Structure,
    values: &'a [u32],
}

impl Elements for TermElements<'_> {
    ghost elements = { λ t. values_of (plain (meaning t.structure.now)) t.values.now t.terms.now };

    #[tactic(auto, using(lv_eval::proofs::TermLaws::as_many_values))]
    fn count(&self) -> usize {
        self.terms.len()
    }

    #[tactic(auto, using(lv_eval::proofs::TermLaws::as_many_values, lv_eval::proofs::TermLaws::value_at))]
    fn at(&self, i: usize) -> u32 {
        element_of(&self.terms[i], self.structure, self.values)
    }
}

/// Where the relation has the terms. The error is want of memory.
fn atom_row(
    alloc: Global,
    sym: Sym,
    terms: &[Term],
    states: &[Structure],
    values: &[u32],
) -> Result<List<bool>, Memory>
    ensures { IfOk result (λ r. r ≡ map (has_terms sym terms.now values.now) (map meaning states.now)) }
{
    let mut row = Vec::new(alloc);
    for m in states {
        let holds = has_terms(sym, terms, m, values);
        row.push(holds)?;
    }
    Ok(List::from_vec(row))
}

/// Whether the relation has the terms.
fn has_terms(sym: Sym, terms: &[Term], m: &Structure, values: &[u32]) -> bool
    ensures { result ≡ has_terms sym terms.now values.now (meaning m.now) }
{
    let tuple = TermElements {
        terms,
        structure: m,
        values,
    };
    m.has(sym, &tuple)
}

/// Where the two terms are one element. The error is want of memory.
fn same_row(
    alloc: Global,
    a: &Term,
    b: &Term,
    states: &[Structure],
    values: &[u32],
) -> Result<List<bool>, Memory>
    ensures { IfOk result (λ r. r ≡ map (λ m. eqb (value_of (plain m) values.now a.now) (value_of (plain m) values.now b.now)) (map meaning states.now)) }
{
    let mut row = Vec::new(alloc);
    for m in states {
        row.push(element_of(a, m, values) == element_of(b, m, values))?;
    }
    Ok(List::from_vec(row))
}

/// The element of the term. A witness counts as element 0, and so does a variable without a value.
fn element_of(term: &Term, m: &Structure, values: &[u32]) -> u32
    ensures { result ≡ value_of (plain (meaning m.now)) values.now term.now }
{
    match term {
        Term::Var(i) => match values.get(*i as usize) {
            Some(value) => *value,
            None => 0,
        },
        Term::Const(sym) => constant_of(*sym, m),
    }
}

/// The element that the constant is, and 0 for a witness.
fn constant_of(sym: Sym, m: &Structure) -> u32
    ensures { result ≡ (plain (meaning m.now)).value sym }
{
    match sym {
        Sym::Witness(_) => 0,
        _ => m.value(sym),
    }
}
