//! The tables of a structure that is known as functions.
ghost use Rattle.std.specs.Prelude.{◌≡◌, IfOk, filter, map};
ghost use Rattle.lv_formula.specs.Tuples.{tuples_over};
ghost use Rattle.lv_struct.specs.Tabulation.{constant_entry, relation_table, sizes_from};

use crate::interpretation::Interpretation;
use crate::tables::{Constant, Relation};
use crate::tuple_list::TupleList;
use crate::tuples::{copy, empty_tuple, put_each_before};
use lv_formula::{ConShape, List, Memory, Rc, RelShape, SortId};
use std::alloc::Global;

/// The sizes of the first `sorts` sorts. The error is want of memory.
pub(crate) fn sizes<I: Interpretation>(
    alloc: Global,
    sorts: u32,
    of: &I,
) -> Result<List<u32>, Memory>
    ensures { IfOk result (λ ns. ns ≡ sizes_from (I.meaning of.now) 0 sorts) }
{
    let mut all = Vec::new(alloc);
    for k in 0..sorts {
        all.push(of.size(SortId(k)))?;
    }
    Ok(List::from_vec(all))
}

/// All tuples of the sorts, each once, in lexicographic order. The error is want of memory.
pub(crate) fn tuples_of_sorts<I: Interpretation>(
    alloc: Global,
    sorts: &[SortId],
    of: &I,
) -> Result<List<List<u32>>, Memory>
    ensures { IfOk result (λ ts. ts ≡ tuples_over (I.meaning of.now).size sorts.now) }
{
    let mut all = empty_tuple(alloc)?;
    for i in (0..sorts.len()).rev() {
        all = put_each_before(alloc, of.size(sorts[i]), all.as_slice())?;
    }
    Ok(all)
}

/// The relation with its tuples in range. The error is want of memory.
fn relation<I: Interpretation>(alloc: Global, shape: &RelShape, of: &I) -> Result<Relation, Memory>
    ensures { IfOk result (λ r. r ≡ relation_table (I.meaning of.now) shape.now) }
{
    let all = tuples_of_sorts(alloc, shape.sorts.as_slice(), of)?;
    let mut tuples = Vec::new(alloc);
    for tuple in all.as_slice() {
        if of.holds(shape.sym, tuple.as_slice()) {
            tuples.push(copy(alloc, tuple.as_slice())?)?;
        }
    }
    Ok(Relation {
        sym: shape.sym,
        sorts: copy(alloc, shape.sorts.as_slice())?,
        tuples: Rc::new(alloc, TupleList::from_tuples(alloc, tuples.as_slice())?)?,
    })
}

/// The relations with their tuples in range. The error is want of memory.
pub(crate) fn relations<I: Interpretation>(
    alloc: Global,
    shapes: &[RelShape],
    of: &I,
) -> Result<List<Relation>, Memory>
    ensures { IfOk result (λ rs. rs ≡ map (relation_table (I.meaning of.now)) shapes.now) }
{
    let mut all = Vec::new(alloc);
    for shape in shapes {
        all.push(relation(alloc, shape, of)?)?;
    }
    Ok(List::from_vec(all))
}

/// The constants with their elements. The error is want of memory.
pub(crate) fn constants<I: Interpretation>(
    alloc: Global,
    shapes: &[ConShape],
    of: &I,
) -> Result<List<Constant>, Memory>
    ensures { IfOk result (λ cs. cs ≡ map (constant_entry (I.meaning of.now)) shapes.now) }
{
    let mut all = Vec::new(alloc);
    for shape in shapes {
        all.push(Constant {
            sym: shape.sym,
            sort: shape.sort,
            element: of.value(shape.sym),
        })?;
    }
    Ok(List::from_vec(all))
}
