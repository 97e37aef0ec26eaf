//! Tuples and lists of tuples.
ghost use Rattle.std.specs.Prelude.{◌≡◌, ◌++◌, ◌∷◌, [], IfOk, OnOk, map};
ghost use Rattle.lv_formula.specs.Tuples.{each_before};

use lv_formula::{List, Memory};
use std::alloc::Global;

/// An equal list. The error is want of memory.
pub(crate) fn copy<T: Copy>(alloc: Global, items: &[T]) -> Result<List<T>, Memory>
    ensures { IfOk result (λ list. list ≡ items.now) }
{
    Ok(List::from_vec(Vec::from_slice(alloc, items)?))
}

/// Appends copies of the tuples. The error is want of memory.
pub(crate) fn push_copies(
    alloc: Global,
    tuples: &[List<u32>],
    all: &mut Vec<List<u32>>,
) -> Result<(), Memory>
    ensures { OnOk result (all.new.items ≡ all.old.items ++ tuples.now) }
{
    for tuple in tuples {
        all.push(copy(alloc, tuple.as_slice())?)?;
    }
    Ok(())
}

/// A list of one tuple, which is empty. The error is want of memory.
pub(crate) fn empty_tuple(alloc: Global) -> Result<List<List<u32>>, Memory>
    ensures { IfOk result (λ ts. ts ≡ [] ∷ []) }
{
    let mut all = Vec::new(alloc);
    all.push(List::from_vec(Vec::new(alloc)))?;
    Ok(List::from_vec(all))
}

/// The tuple with an element before it. The error is want of memory.
fn put_before(alloc: Global, element: u32, tuple: &[u32]) -> Result<List<u32>, Memory>
    ensures { IfOk result (λ t. t ≡ element ∷ tuple.now) }
{
    let mut all = Vec::new(alloc);
    all.push(element)?;
    all.extend_from_slice(tuple)?;
    Ok(List::from_vec(all))
}

/// Appends the tuples with an element before each. The error is want of memory.
fn push_with(
    alloc: Global,
    element: u32,
    tuples: &[List<u32>],
    all: &mut Vec<List<u32>>,
) -> Result<(), Memory>
    ensures { OnOk result (all.new.items ≡ all.old.items ++ map (λ t. element ∷ t) tuples.now) }
{
    for tuple in tuples {
        all.push(put_before(alloc, element, tuple.as_slice())?)?;
    }
    Ok(())
}

/// The tuples with each element below `size` before them, in ascending order of the element. The error
/// is want of memory.
pub(crate) fn put_each_before(
    alloc: Global,
    size: u32,
    tuples: &[List<u32>],
) -> Result<List<List<u32>>, Memory>
    ensures { IfOk result (λ ts. ts ≡ each_before size tuples.now) }
{
    let mut all = Vec::new(alloc);
    for element in 0..size {
        push_with(alloc, element, tuples, &mut all)?;
    }
    Ok(List::from_vec(all))
}
