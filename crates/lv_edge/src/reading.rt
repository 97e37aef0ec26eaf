ghost use Rattle.std.specs.Prelude.{◌≡◌, ◌<◌, ◌≤◌, ◌+◌, ◌-◌, ◌^◌, ◌++◌, ℕ, Some, length, take, drop, IfOk, IfSome, OnOk, OnErr, IsErrOf, vec_len};
ghost use Rattle.std.specs.Io.KnownBytes.{IsAtEnd};
ghost use Rattle.lv_edge.specs.Causes.{Rose};
ghost use Rattle.lv_edge.specs.Streams.{Loses, LosesAtMost};
ghost use Rattle.lv_edge.specs.declared.reading.ReadAll.TheVariants.{ReadFault, Memory};

use crate::{Failed, List, Source};
use std::alloc::{AllocError, Global};
use thiserror::Error;

/// The most bytes that one read is asked for.
const CHUNK: usize = 1024;

/// Why a source was not read to its end.
#[derive(Clone, Copy, Debug, PartialEq, Eq, Error)]
pub enum ReadAll {
    /// The source failed.
    #[error("read fault")]
    ReadFault,
    /// The source had more bytes than the limit.
    #[error("too long")]
    TooLong,
    /// Memory was wanted and not found.
    #[error("out of memory")]
    Memory,
}

impl From<Failed> for ReadAll {
    ghost from_gives = { λ _ e. e ≡ ReadFault };

    fn from(_: Failed) -> Self {
        ReadAll::ReadFault
    }
}

impl From<AllocError> for ReadAll {
    ghost from_gives = { λ _ e. e ≡ Memory };

    fn from(_: AllocError) -> Self {
        ReadAll::Memory
    }
}

/// Reads until a read gives no byte, and answers all the bytes that were read, at most `limit` of them.
/// A read is never asked for more bytes than are missing to `limit + 1`.
///
/// `ReadFault` comes where a read failed, `TooLong` where `limit + 1` bytes were read, and `Memory` where
/// the bytes found no place. In each case the source has lost exactly the bytes that were read.
pub fn read_all<S: Source>(alloc: Global, src: &mut S, limit: u32) -> Result<List<u8>, ReadAll>
    requires { limit < 2 ^ 32 - 1 }

    // All that was left is answered, and nothing is left.
    ensures all { IfOk result (λ bytes. Loses (S.left src.old) (S.left src.new) bytes) }
    ensures told { IfOk result (λ bytes. IfSome (S.left src.old) (λ left. left ≡ bytes)) }
    ensures end { OnOk result (IsAtEnd (S.left src.new)) }
    ensures within { IfOk result (λ bytes. length bytes ≤ limit) }

    // One byte more than the limit was there, and read.
    ensures too_long { IsErrOf result ReadAll.TooLong → IfSome (S.left src.old) (λ left. limit < length left) }
    ensures too_long_lost { IsErrOf result ReadAll.TooLong → IfSome (S.left src.old) (λ left. S.left src.new ≡ Some (drop (limit + 1) left)) }

    ensures fault { IsErrOf result ReadAll.ReadFault → Rose (S.faults src.old) (S.faults src.new) }
    ensures later { S.faults src.old ≤ S.faults src.new }

    // However it ends, the source lost what was read, and at most so much.
    ensures lost { LosesAtMost (limit + 1) (S.left src.old) (S.left src.new) }
{
    let most = (limit + 1) as usize;
    let mut bytes = Vec::new(alloc);
    let mut chunk = [0; CHUNK];
    while bytes.len() < most {
        let asked = (most - bytes.len()).min(CHUNK);
        if read_more(src, &mut chunk[..asked], &mut bytes, most)? == 0 {
            return Ok(List::from_vec(bytes));
        }
    }
    Err(ReadAll::TooLong)
}

/// Reads once, at most as many bytes as `chunk` has, and adds them to those that were read before. All
/// together they are at most `most`.
fn read_more<S: Source>(
    src: &mut S,
    chunk: &mut [u8],
    bytes: &mut Vec<u8>,
    most: usize,
) -> Result<usize, ReadAll>
    requires some { 0 < length chunk.old }
    requires few { vec_len bytes.old + length chunk.old ≤ most }
    ensures end { IfOk result (λ n. n ≡ 0 → IsAtEnd (S.left src.old)) }
    ensures count { IfOk result (λ n. vec_len bytes.new ≡ vec_len bytes.old + n) }
    ensures bound { IfOk result (λ n. n ≤ length chunk.old) }
    ensures lost { IfOk result (λ n. Loses (S.left src.old) (S.left src.new) (take n chunk.new)) }
    ensures added { IfOk result (λ n. bytes.new.items ≡ bytes.old.items ++ take n chunk.new) }
    ensures lost_some { LosesAtMost (length chunk.old) (S.left src.old) (S.left src.new) }
    ensures not_long { IsErrOf result ReadAll.TooLong → ⊥ }
    ensures fault { IsErrOf result ReadAll.ReadFault → Rose (S.faults src.old) (S.faults src.new) }
    ensures later { S.faults src.old ≤ S.faults src.new }
{
    let count = src.read(chunk)?;
    bytes.extend_from_slice(&chunk[..count])?;
    Ok(count)
}
