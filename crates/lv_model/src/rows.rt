//! The relations of the structure of classes.
ghost use Rattle.std.specs.Prelude.{◌≡◌, ◌*◌, ◌++◌, min, length, map, IfOk};
ghost use Rattle.lv_places.specs.Universes.{counts};
ghost use Rattle.lv_model.specs.Quotients.{offsets_of, offset, row_holds, IsRow, AreRows};

use crate::assigned::{Assigned, product_of};
use crate::classes::{Classes, firsts_in};
use crate::truths::{Head, truths_of};
use lv_formula::{List, Memory, RelShape, SortId, Sym};
use lv_skolem::Universe;
use std::alloc::Global;

/// A relation over classes.
///
/// Its truth is kept for each tuple of terms, and is looked up at the first terms of the classes.
#[derive(Drop)]
pub(crate) struct Row {
    pub(crate) sym: Sym,
    /// For each argument and each element, what they add to the number of a tuple.
    pub(crate) offsets: List<List<usize>>,
    /// For each tuple of terms, by its number, whether the relation holds.
    pub(crate) truths: List<bool>,
}

/// The number of the tuple of first terms. One past the greatest `usize` stands for those above.
fn offset(offsets: &[List<usize>], tuple: &[u32]) -> usize
    ensures { result ≡ min (offset offsets.now tuple.now) 18446744073709551615 }
{
    match (offsets.split_first(), tuple.split_first()) {
        (Some((of, others)), Some((element, rest))) => {
            let here = match of.as_slice().get(*element as usize) {
                Some(offset) => *offset,
                None => 0,
            };
            here.saturating_add(offset(others, rest))
        }
        _ => 0,
    }
}

impl Row {
    /// Whether the relation holds for the elements. They are of its sorts; for others the answer says nothing.
    pub(crate) fn holds(&self, tuple: &[u32]) -> bool
        ensures { result ≡ row_holds self.now tuple.now }
    {
        match self
            .truths
            .as_slice()
            .get(offset(self.offsets.as_slice(), tuple))
        {
            Some(truth) => *truth,
            None => false,
        }
    }
}

/// Each first term so many times.
fn scaled(alloc: Global, firsts: &[usize], weight: usize) -> Result<List<usize>, Memory>
    ensures { IfOk result (λ all. all ≡ map (λ place. place * weight) firsts.now) }
{
    let mut all = Vec::new(alloc);
    for place in firsts {
        all.push(place.checked_mul(weight).ok_or(Memory)?)?;
    }
    Ok(List::from_vec(all))
}

/// For each of the sorts and each element, what they add to the number of a tuple.
fn offsets_of(
    alloc: Global,
    u: &Universe,
    classes: &[Classes],
    sorts: &[SortId],
) -> Result<List<List<usize>>, Memory>
    ensures { IfOk result (λ all. all ≡ offsets_of (counts u.now.terms) classes.now sorts.now) }
{
    let mut all = Vec::new(alloc);
    for i in 0..sorts.len() {
        let weight = product_of(u, &sorts[i + 1..])?;
        all.push(scaled(alloc, firsts_in(classes, sorts[i]), weight)?)?;
    }
    Ok(List::from_vec(all))
}

/// The relation over classes.
fn row_of(
    alloc: Global,
    st: &Assigned,
    classes: &[Classes],
    shape: &RelShape,
) -> Result<Row, Memory>
    ensures { IfOk result (IsRow st.now classes.now shape.now) }
{
    let sorts = shape.sorts.as_slice();
    Ok(Row {
        sym: shape.sym,
        offsets: offsets_of(alloc, st.u, classes, sorts)?,
        truths: truths_of(alloc, st, Head::Relation(shape.sym), sorts)?,
    })
}

/// The relations that occur, over classes.
pub(crate) fn rows_of(
    alloc: Global,
    st: &Assigned,
    classes: &[Classes],
) -> Result<List<Row>, Memory>
    ensures { IfOk result (AreRows st.now classes.now (length st.now.sk.now.relations) st.now.sk.now.relations) }
{
    let mut all = Vec::new(alloc);
    for shape in st.sk.relations.as_slice() {
        all.push(row_of(alloc, st, classes, shape)?)?;
    }
    Ok(List::from_vec(all))
}
