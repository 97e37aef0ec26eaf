//! The structure of classes, as it is looked up.
ghost use Rattle.std.specs.Prelude.{◌≡◌, length, map, IfOk};
ghost use Rattle.lv_places.specs.Universes.{constant_number};
ghost use Rattle.lv_model.specs.declared.classes.Classes.{Classes};
ghost use Rattle.lv_model.specs.Quotients.{element_of, IsQuotientOf};

use crate::assigned::{Assigned, small};
use crate::classes::{Classes, all_classes, class_in};
use crate::rows::{Row, rows_of};
use lv_formula::{ConShape, List, Memory, SortId, Sym};
use lv_struct::Interpretation;
use std::alloc::Global;

/// Which element a constant is.
#[derive(Drop)]
pub(crate) struct Element {
    pub(crate) sym: Sym,
    pub(crate) element: u32,
}

/// The structure whose elements are the classes of equal terms.
#[derive(Drop)]
pub(crate) struct Quotient {
    /// How many classes each sort has.
    pub(crate) sizes: List<u32>,
    pub(crate) rows: List<Row>,
    pub(crate) elements: List<Element>,
}

/// How many classes each sort has.
fn sizes_of(alloc: Global, classes: &[Classes]) -> Result<List<u32>, Memory>
    ensures { IfOk result (λ ns. ns ≡ map (λ (c : Classes). length c.firsts) classes.now) }
{
    let mut sizes = Vec::new(alloc);
    for of in classes {
        sizes.push(small(of.firsts.as_slice().len())?)?;
    }
    Ok(List::from_vec(sizes))
}

/// How many constants of the sort come before this one.
fn number_of_constant(sort: SortId, constants: &[ConShape], sym: Sym) -> Result<usize, Memory>
    ensures { IfOk result (λ k. k ≡ constant_number sort constants.now sym) }
{
    let mut count: usize = 0;
    for shape in constants {
        if shape.sym.equals(sym) {
            return Ok(count);
        }
        if shape.sort.0 == sort.0 {
            count = count.checked_add(1).ok_or(Memory)?;
        }
    }
    Ok(count)
}

/// Which elements the constants that occur are.
fn elements_of(alloc: Global, st: &Assigned, classes: &[Classes]) -> Result<List<Element>, Memory>
    ensures { IfOk result (λ es. es ≡ map (element_of st.now classes.now) st.now.sk.now.constants) }
{
    let constants = st.sk.constants.as_slice();
    let mut elements = Vec::new(alloc);
    for shape in constants {
        let place = number_of_constant(shape.sort, constants, shape.sym)?;
        elements.push(Element {
            sym: shape.sym,
            element: small(class_in(classes, shape.sort, place))?,
        })?;
    }
    Ok(List::from_vec(elements))
}

impl Quotient {
    /// The structure of classes of ground sentences under an assignment. The error is want of memory.
    pub(crate) fn new(alloc: Global, st: &Assigned) -> Result<Quotient, Memory>
        ensures { IfOk result (IsQuotientOf st.now) }
    {
        let classes = all_classes(alloc, st)?;
        Ok(Quotient {
            sizes: sizes_of(alloc, classes.as_slice())?,
            rows: rows_of(alloc, st, classes.as_slice())?,
            elements: elements_of(alloc, st, classes.as_slice())?,
        })
    }
}

impl Interpretation for Quotient {
    ghost use Rattle.lv_model.specs.Quotients.{told};

    ghost meaning = { told };

    fn size(&self, sort: SortId) -> u32 {
        match self.sizes.as_slice().get(sort.0 as usize) {
            Some(size) => *size,
            None => 1,
        }
    }

    fn holds(&self, sym: Sym, tuple: &[u32]) -> bool {
        for row in self.rows.as_slice() {
            if row.sym.equals(sym) {
                return row.holds(tuple);
            }
        }
        false
    }

    fn value(&self, sym: Sym) -> u32 {
        for constant in self.elements.as_slice() {
            if constant.sym.equals(sym) {
                return constant.element;
            }
        }
        0
    }
}
