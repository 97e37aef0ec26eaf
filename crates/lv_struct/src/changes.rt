//! The relations and constants of new structures.
ghost use Rattle.std.specs.Prelude.{◌≡◌, IfOk, map};
ghost use Rattle.lv_struct.specs.Changes.{empty_relation, first_element, put_element, put_tuples};

use crate::tables::{Constant, Relation};
use crate::tuple_list::TupleList;
use crate::tuples::copy;
use lv_formula::{ConShape, List, Memory, Rc, RelShape, Sym};
use std::alloc::Global;

/// The relation without tuples. The error is want of memory.
fn without_tuples(alloc: Global, shape: &RelShape) -> Result<Relation, Memory>
    ensures { IfOk result (λ r. r ≡ empty_relation shape.now) }
{
    Ok(Relation {
        sym: shape.sym,
        sorts: copy(alloc, shape.sorts.as_slice())?,
        tuples: Rc::new(alloc, TupleList::empty(alloc))?,
    })
}

/// The relations without tuples. The error is want of memory.
pub(crate) fn empty_relations(alloc: Global, shapes: &[RelShape]) -> Result<List<Relation>, Memory>
    ensures { IfOk result (λ rs. rs ≡ map empty_relation shapes.now) }
{
    let mut all = Vec::new(alloc);
    for shape in shapes {
        all.push(without_tuples(alloc, shape)?)?;
    }
    Ok(List::from_vec(all))
}

/// The constants as element 0. The error is want of memory.
pub(crate) fn first_elements(alloc: Global, shapes: &[ConShape]) -> Result<List<Constant>, Memory>
    ensures { IfOk result (λ cs. cs ≡ map first_element shapes.now) }
{
    let mut all = Vec::new(alloc);
    for shape in shapes {
        all.push(Constant {
            sym: shape.sym,
            sort: shape.sort,
            element: 0,
        })?;
    }
    Ok(List::from_vec(all))
}

/// The relation with these tuples, which are shared. The error is want of memory.
fn with_tuples(
    alloc: Global,
    relation: &Relation,
    tuples: &Rc<TupleList>,
) -> Result<Relation, Memory>
    ensures { IfOk result (λ r. r ≡ record relation.now { tuples = tuples.now }) }
{
    Ok(Relation {
        sym: relation.sym,
        sorts: copy(alloc, relation.sorts.as_slice())?,
        tuples: tuples.clone()?,
    })
}

/// The relation, with these tuples if it is named so. The error is want of memory.
fn put_if_named(
    alloc: Global,
    relation: &Relation,
    sym: Sym,
    tuples: &Rc<TupleList>,
) -> Result<Relation, Memory>
    ensures { IfOk result (λ r. r ≡ put_tuples sym tuples.now relation.now) }
{
    if relation.sym.equals(sym) {
        with_tuples(alloc, relation, tuples)
    } else {
        with_tuples(alloc, relation, &relation.tuples)
    }
}

/// The relations, where the one named so has these tuples. The error is want of memory.
pub(crate) fn put_relation(
    alloc: Global,
    relations: &[Relation],
    sym: Sym,
    tuples: &Rc<TupleList>,
) -> Result<List<Relation>, Memory>
    ensures { IfOk result (λ rs. rs ≡ map (put_tuples sym tuples.now) relations.now) }
{
    let mut all = Vec::new(alloc);
    for relation in relations {
        all.push(put_if_named(alloc, relation, sym, tuples)?)?;
    }
    Ok(List::from_vec(all))
}

/// Equal relations, which share their tuples. The error is want of memory.
pub(crate) fn copy_relations(
    alloc: Global,
    relations: &[Relation],
) -> Result<List<Relation>, Memory>
    ensures { IfOk result (λ rs. rs ≡ relations.now) }
{
    let mut all = Vec::new(alloc);
    for relation in relations {
        all.push(with_tuples(alloc, relation, &relation.tuples)?)?;
    }
    Ok(List::from_vec(all))
}

/// The constant, as this element if it is named so.
fn put_element(constant: Constant, sym: Sym, element: u32) -> Constant
    ensures { result ≡ put_element sym element constant }
{
    if constant.sym.equals(sym) {
        Constant {
            element,
            ..constant
        }
    } else {
        constant
    }
}

/// The constants, where the one named so is this element. The error is want of memory.
pub(crate) fn put_constant(
    alloc: Global,
    constants: &[Constant],
    sym: Sym,
    element: u32,
) -> Result<List<Constant>, Memory>
    ensures { IfOk result (λ cs. cs ≡ map (put_element sym element) constants.now) }
{
    let mut all = Vec::new(alloc);
    for constant in constants {
        all.push(put_element(*constant, sym, element))?;
    }
    Ok(List::from_vec(all))
}
