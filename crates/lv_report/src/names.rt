//! Numbers and names in a text.
ghost use Rattle.std.specs.Prelude.{◌≡◌, ◌++◌, decimal, slice_get, OnOk};
ghost use Rattle.lv_report.specs.Texts.{move_text, name_at, numbered_text, obligation_text, sort_texts};

use itoa::Buffer;
use lv_formula::{Memory, SortId};
use lv_labels::Move;
use lv_oblig::Which;
use lv_system::{HasName, Parts};

/// Adds the number in decimal digits.
pub(crate) fn push_number(text: &mut Vec<u8>, number: u64) -> Result<(), Memory>
    ensures { OnOk result (text.new.items ≡ text.old.items ++ decimal number) }
{
    let mut buffer = Buffer::new();
    text.extend_from_slice(buffer.format(number).as_bytes())?;
    Ok(())
}

/// Adds the words and the number behind them, and a newline.
pub(crate) fn push_numbered(text: &mut Vec<u8>, words: &[u8], number: u64) -> Result<(), Memory>
    ensures { OnOk result (text.new.items ≡ text.old.items ++ numbered_text words.now number) }
{
    text.extend_from_slice(words)?;
    push_number(text, number)?;
    text.extend_from_slice(b"\n")?;
    Ok(())
}

/// Adds the name of the item with this number.
pub(crate) fn push_name<T: HasName>(
    text: &mut Vec<u8>,
    items: &[T],
    number: u32,
) -> Result<(), Memory>
    ensures { OnOk result (text.new.items ≡ text.old.items ++ name_at T.text items.now number) }
{
    match items.get(number as usize) {
        Some(item) => text.extend_from_slice(item.name())?,
        None => (),
    }
    Ok(())
}

/// Adds the word of a move, between spaces.
fn push_move(text: &mut Vec<u8>, mv: Move) -> Result<(), Memory>
    ensures { OnOk result (text.new.items ≡ text.old.items ++ move_text mv) }
{
    match mv {
        Move::Stay => Ok(text.extend_from_slice(b" stay ")?),
        Move::Freeze => Ok(text.extend_from_slice(b" freeze ")?),
        Move::Save => Ok(text.extend_from_slice(b" save ")?),
    }
}

fn push_step(
    text: &mut Vec<u8>,
    parts: &Parts,
    action: u32,
    mv: Move,
    invariant: u32,
) -> Result<(), Memory>
    ensures { OnOk result (text.new.items ≡ text.old.items ++ obligation_text parts.now (Which.Step action mv invariant)) }
{
    text.extend_from_slice(b"step ")?;
    push_name(text, parts.actions.as_slice(), action)?;
    push_move(text, mv)?;
    push_name(text, parts.invariants.as_slice(), invariant)
}

/// Adds the name of an obligation.
pub(crate) fn push_obligation(text: &mut Vec<u8>, parts: &Parts, which: Which) -> Result<(), Memory>
    ensures { OnOk result (text.new.items ≡ text.old.items ++ obligation_text parts.now which) }
{
    match which {
        Which::Start { invariant } => {
            text.extend_from_slice(b"start ")?;
            push_name(text, parts.invariants.as_slice(), invariant)
        }
        Which::Step {
            action,
            mv,
            invariant,
        } => push_step(text, parts, action, mv, invariant),
        Which::Catch => Ok(text.extend_from_slice(b"catch")?),
    }
}

/// Adds the name of each sort behind a space.
pub(crate) fn push_sorts(text: &mut Vec<u8>, parts: &Parts, sorts: &[SortId]) -> Result<(), Memory>
    ensures { OnOk result (text.new.items ≡ text.old.items ++ sort_texts parts.now sorts.now) }
{
    for sort in sorts {
        text.extend_from_slice(b" ")?;
        push_name(text, parts.sorts.as_slice(), sort.0)?;
    }
    Ok(())
}
