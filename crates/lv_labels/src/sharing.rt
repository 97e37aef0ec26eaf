//! Copies of lists, and numbers of items.
ghost use Rattle.std.specs.Prelude.{◌≡◌, ◌++◌, IfOk, OnOk};

use lv_formula::{Formula, List, Memory, SortId};
use std::alloc::Global;

/// A list of the same sorts. The error is want of memory.
pub fn copied(alloc: Global, sorts: &[SortId]) -> Result<List<SortId>, Memory>
    ensures { IfOk result (λ copy. copy ≡ sorts.now) }
{
    let mut copy = Vec::new(alloc);
    copy.extend_from_slice(sorts)?;
    Ok(List::from_vec(copy))
}

/// The number of an item, which has to fit a `u32`. Takes no memory; a number that doesn't fit is answered as want of it.
pub fn number(n: usize) -> Result<u32, Memory>
    ensures { IfOk result (λ m. m ≡ n) }
{
    if n > u32::MAX as usize {
        return Err(Memory);
    }
    Ok(n as u32)
}

/// Adds the formulas, which share their parts with these. The error is want of memory, and then some may have been added.
pub fn push_shared(
    alloc: Global,
    formulas: &[Formula],
    all: &mut Vec<Formula>,
) -> Result<(), Memory>
    ensures { OnOk result (all.new.items ≡ all.old.items ++ formulas.now) }
{
    for formula in formulas {
        all.push(formula.share(alloc)?)?;
    }
    Ok(())
}
