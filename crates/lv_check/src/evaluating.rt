//! Truth in a structure, with a place for each binder.
ghost use Rattle.std.specs.Prelude.{◌≡◌, IfOk, reverse};
ghost use Rattle.lv_formula.specs.Measures.{at_most_u32, depth_of_all};
ghost use Rattle.lv_formula.specs.Truth.{truth_in};
ghost use Rattle.lv_struct.specs.Tables.{meaning};
ghost use Rattle.lv_eval.specs.FirstFalse.{TellsFirstFalse};

use lv_eval::{first_false, is_true};
use lv_formula::{Formula, Memory};
use lv_struct::Structure;
use std::alloc::Global;

/// Whether the formula is true where its free variables have these values, the innermost variable's last. The error is
/// want of memory, also where more binders stand inside one another than a `u32` counts.
pub(crate) fn is_true_with(
    alloc: Global,
    f: &Formula,
    values: &[u32],
    m: &Structure,
) -> Result<bool, Memory>
    ensures { IfOk result (λ holds. holds ≡ truth_in (meaning m.now) f.now (reverse values.now)) }
{
    if f.depth() == u32::MAX {
        return Err(Memory);
    }
    is_true(alloc, f, values, m)
}

/// The greatest number of binders that stand inside one another in a formula of the list, ending at the greatest `u32`.
fn depth_of_each(fs: &[Formula]) -> u32
    ensures { result ≡ at_most_u32 (depth_of_all fs.now) }
{
    let mut most = 0;
    for f in fs {
        most = most.max(f.depth());
    }
    most
}

/// The number of the first formula that is false, and none where all are true. The error is want of memory, also where
/// there are more formulas, or more binders inside one another, than a `u32` counts.
pub(crate) fn first_false_of(
    alloc: Global,
    fs: &[Formula],
    m: &Structure,
) -> Result<Option<u32>, Memory>
    ensures { IfOk result (TellsFirstFalse (meaning m.now) fs.now) }
{
    if fs.len() > u32::MAX as usize || depth_of_each(fs) == u32::MAX {
        return Err(Memory);
    }
    first_false(alloc, fs, m)
}
