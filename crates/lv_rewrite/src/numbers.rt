//! Sums of numbers. The error is want of memory, where a sum would pass the greatest number of its type.
ghost use Rattle.std.specs.Prelude.{◌≡◌, ◌+◌, IfOk};

use lv_formula::Memory;

/// The variable's number, raised.
pub(crate) fn raised(variable: u32, by: u64) -> Result<u32, Memory>
    ensures { IfOk result (λ n. n ≡ variable + by) }
{
    if by > u64::from(u32::MAX - variable) {
        return Err(Memory);
    }
    Ok(variable + by as u32)
}

/// One binder more. They are counted past the greatest `u32`, so that no formula that finds room has too many.
pub(crate) fn one_more(binders: u64) -> Result<u64, Memory>
    ensures { IfOk result (λ n. n ≡ binders + 1) }
{
    if binders == u64::MAX {
        return Err(Memory);
    }
    Ok(binders + 1)
}
