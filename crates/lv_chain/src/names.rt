//! Names of the chain's items.
ghost use Rattle.std.specs.Prelude.{◌≡◌, IfOk};
ghost use Rattle.lv_chain.specs.Chain.{numbered_name};

use itoa::Buffer;
use lv_formula::{List, Memory, Text};
use std::alloc::Global;

/// The word as a name. The error is want of memory.
pub(crate) fn named(alloc: Global, word: &[u8]) -> Result<Text, Memory>
    ensures { IfOk result (λ name. name ≡ word.now) }
{
    Ok(List::from_vec(Vec::from_slice(alloc, word)?))
}

/// The word with the number behind it. The error is want of memory.
pub(crate) fn numbered(alloc: Global, word: &[u8], number: u32) -> Result<Text, Memory>
    ensures { IfOk result (λ name. name ≡ numbered_name word.now number) }
{
    let mut name = Vec::from_slice(alloc, word)?;
    let mut buffer = Buffer::new();
    name.extend_from_slice(buffer.format(number).as_bytes())?;
    Ok(List::from_vec(name))
}
