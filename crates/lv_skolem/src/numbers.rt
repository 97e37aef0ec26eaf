//! Numbers that might pass the greatest of their type, which is answered as want of memory.
ghost use Rattle.std.specs.Prelude.{◌≡◌, IfOk};

use lv_formula::Memory;

/// The number of a place, as its terms keep it.
pub(crate) fn place_number(number: usize) -> Result<u32, Memory>
    ensures { IfOk result (λ n. n ≡ number) }
{
    if number > u32::MAX as usize {
        return Err(Memory);
    }
    Ok(number as u32)
}
