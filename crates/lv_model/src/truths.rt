//! Which ground atoms are true, as tables that are read by the numbers of tuples.
ghost use Rattle.std.specs.Prelude.{◌≡◌, ℕ, true, false, length, get_or, IfOk};
ghost use Rattle.lv_places.specs.Universes.{counts};
ghost use Rattle.lv_model.specs.Truths.{numbers, truth, is_head_of, is_named, is_equality, AreTruths, NumberIs, TupleNumberIs};

use crate::assigned::{Assigned, are_terms, is_true, number_of, product_of};
use lv_formula::{List, Memory, SortId, Sym};
use lv_places::{GroundAtom, TermId};
use lv_skolem::Universe;
use std::alloc::Global;

/// What an atom says of its terms.
#[derive(Clone, Copy, Drop)]
pub(crate) enum Head {
    /// This relation holds for them.
    Relation(Sym),
    /// The first equals the second.
    Equal,
}

/// Whether it is this relation.
fn is_named(head: Head, sym: Sym) -> bool
    ensures { result ≡ is_named head sym }
{
    match head {
        Head::Relation(name) => name.equals(sym),
        Head::Equal => false,
    }
}

/// Whether it is equality.
fn is_equality(head: Head) -> bool
    ensures { result ≡ is_equality head }
{
    match head {
        Head::Relation(_) => false,
        Head::Equal => true,
    }
}

/// The number of the tuple, where its terms are of these sorts.
fn tuple_number(u: &Universe, sorts: &[SortId], terms: &[TermId]) -> Result<Option<usize>, Memory>
    ensures { IfOk result (TupleNumberIs (counts u.now.terms) sorts.now terms.now) }
{
    if !are_terms(u, sorts, terms) {
        return Ok(None);
    }
    Ok(Some(number_of(u, terms)?))
}

/// The number of the atom's tuple, where it has this head and its terms are of these sorts.
fn number_in(
    u: &Universe,
    head: Head,
    sorts: &[SortId],
    atom: &GroundAtom,
) -> Result<Option<usize>, Memory>
    requires { is_head_of head sorts.now ≡ true }
    ensures { IfOk result (NumberIs (counts u.now.terms) head sorts.now atom.now) }
{
    match atom {
        GroundAtom::Relation { sym, terms } => {
            if is_named(head, *sym) {
                tuple_number(u, sorts, terms.as_slice())
            } else {
                Ok(None)
            }
        }
        GroundAtom::Equal { left, right } => {
            if is_equality(head) {
                tuple_number(u, sorts, &[*left, *right])
            } else {
                Ok(None)
            }
        }
    }
}

/// So many times "false".
fn none_true(alloc: Global, count: usize) -> Result<Vec<bool>, Memory>
    ensures len { IfOk result (λ truths. length truths.items ≡ count) }
    ensures none { IfOk result (λ truths. (i : ℕ) → get_or truths.items i false ≡ false) }
{
    let mut truths = Vec::new(alloc);
    for _i in 0..count {
        truths.push(false)?;
    }
    Ok(truths)
}

/// For each tuple of terms of these sorts, by its number, whether the atom with this head is true of it. What is no atom
/// is false.
///
/// The atoms are gone through once, from the last to the first.
pub(crate) fn truths_of(
    alloc: Global,
    st: &Assigned,
    head: Head,
    sorts: &[SortId],
) -> Result<List<bool>, Memory>
    requires { is_head_of head sorts.now ≡ true }
    ensures { IfOk result (AreTruths (numbers st.now) (truth st.now) head sorts.now) }
{
    let atoms = st.g.atoms.as_slice();
    let mut truths = none_true(alloc, product_of(st.u, sorts)?)?;
    for k in (0..atoms.len()).rev() {
        if let Some(number) = number_in(st.u, head, sorts, &atoms[k])? {
            truths[number] = is_true(st.a, k);
        }
    }
    Ok(List::from_vec(truths))
}
