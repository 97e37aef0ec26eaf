//! How texts are written on one line. `\n` is a newline and `\xHH` the byte of these two hexadecimal digits.
//! `\[N PART\]` is a part N times, and `\#` in it the number of the repetition, counted from 0. A backslash itself
//! is `\x5c`, and ` | ` between two parts of a case can't stand in a text.
use anyhow::{Context, Result, bail};
use std::alloc::Global;

/// The bytes that are written so.
pub fn bytes_of(alloc: Global, spelled: &str) -> Result<Vec<u8>> {
    let mut bytes = Vec::new(alloc);
    let mut pieces = spelled.split("\\[");
    if let Some(first) = pieces.next() {
        push_piece(alloc, &mut bytes, first, 0)?;
    }
    for piece in pieces {
        let (repeated, rest) = piece.split_once("\\]").context("no `\\]`")?;
        push_repeated(alloc, &mut bytes, repeated)?;
        push_piece(alloc, &mut bytes, rest, 0)?;
    }
    Ok(bytes)
}

/// Adds a part so often as the number in front of it says.
fn push_repeated(alloc: Global, bytes: &mut Vec<u8>, repeated: &str) -> Result<()> {
    let (times, part) = repeated.split_once(' ').context("no part to repeat")?;
    for number in 0..times.parse::<u32>()? {
        push_piece(alloc, bytes, part, number)?;
    }
    Ok(())
}

/// Adds a piece in which nothing is repeated.
fn push_piece(alloc: Global, bytes: &mut Vec<u8>, piece: &str, number: u32) -> Result<()> {
    let mut parts = piece.split('\\');
    if let Some(first) = parts.next() {
        bytes.extend_from_slice(first.as_bytes())?;
    }
    for part in parts {
        push_escaped(alloc, bytes, part, number)?;
    }
    Ok(())
}

/// Adds what stands behind a backslash.
fn push_escaped(alloc: Global, bytes: &mut Vec<u8>, part: &str, number: u32) -> Result<()> {
    if let Some(rest) = part.strip_prefix('n') {
        bytes.push(b'\n')?;
        bytes.extend_from_slice(rest.as_bytes())?;
    } else if let Some(rest) = part.strip_prefix('#') {
        bytes.extend_from_slice(format!(in alloc; "{number}{rest}")?.as_bytes())?;
    } else if let Some((digits, rest)) = part
        .strip_prefix('x')
        .and_then(|hex| hex.split_at_checked(2))
    {
        bytes.push(u8::from_str_radix(digits, 16)?)?;
        bytes.extend_from_slice(rest.as_bytes())?;
    } else {
        bail!("no such escape: {part:?}");
    }
    Ok(())
}
