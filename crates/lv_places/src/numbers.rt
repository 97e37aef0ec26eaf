//! Numbers that might pass the greatest of their type, which is answered as want of memory.
ghost use Rattle.std.specs.Prelude.{◌≡◌, ◌+◌, IfOk};

use lv_formula::Memory;

/// One binder more. They are counted past the greatest `u32`, so that no formula that finds room has too many.
pub(crate) fn one_more(binders: u64) -> Result<u64, Memory>
    ensures { IfOk result (λ n. n ≡ binders + 1) }
{
    if binders == u64::MAX {
        return Err(Memory);
    }
    Ok(binders + 1)
}

/// The number of a variable, as an argument of a place keeps it.
pub(crate) fn variable(number: u64) -> Result<u32, Memory>
    ensures { IfOk result (λ n. n ≡ number) }
{
    if number > u64::from(u32::MAX) {
        return Err(Memory);
    }
    Ok(number as u32)
}
