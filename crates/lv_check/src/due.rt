//! What is due of each justice condition after a step.
ghost use Rattle.std.specs.Prelude.{◌≡◌, IfOk};
ghost use Rattle.lv_formula.specs.Tuples.{over};
ghost use Rattle.lv_struct.specs.Tables.{meaning};
ghost use Rattle.lv_labels.specs.Monitor as monitor;
ghost use Rattle.lv_labels.specs.Rows.{condition_of};
ghost use Rattle.lv_check.specs.Due as dues;

use crate::evaluating::is_true_with;
use lv_formula::{List, Memory, SortId, Sym};
use lv_labels::{Justice, Move, number};
use lv_struct::Structure;
use std::alloc::Global;

/// Whether the move is a freeze.
pub(crate) fn is_freeze(mv: Move) -> bool
    ensures { result ≡ monitor.is_freeze mv }
{
    match mv {
        Move::Freeze => true,
        Move::Stay | Move::Save => false,
    }
}

/// Whether the move is a save.
pub(crate) fn is_save(mv: Move) -> bool
    ensures { result ≡ monitor.is_save mv }
{
    match mv {
        Move::Save => true,
        Move::Stay | Move::Freeze => false,
    }
}

/// Whether the tuple is over the touched elements of these sorts.
fn is_over_touched(sorts: &[SortId], tuple: &[u32], m: &Structure) -> bool
    ensures { result ≡ over (monitor.is_touched (meaning m.now)) sorts.now tuple.now }
{
    match sorts {
        [sort, sorts @ ..] => match tuple {
            [element, tuple @ ..] => {
                m.holds(Sym::Touched(*sort), &[*element]) && is_over_touched(sorts, tuple, m)
            }
            [] => false,
        },
        [] => tuple.is_empty(),
    }
}

/// Whether the tuple of the condition with that number is due after the move.
fn is_due_then(j: u32, sorts: &[SortId], mv: Move, tuple: &[u32], m: &Structure) -> bool
    ensures { result ≡ dues.is_due_then mv (meaning m.now) j sorts.now tuple.now }
{
    if is_freeze(mv) || is_save(mv) {
        is_over_touched(sorts, tuple, m)
    } else {
        m.holds(Sym::Due(j), tuple)
    }
}

/// Whether the tuple of the condition with that number is still due after the step.
fn is_due(
    alloc: Global,
    j: u32,
    condition: &Justice,
    mv: Move,
    tuple: &[u32],
    m: &Structure,
) -> Result<bool, Memory>
    ensures { IfOk result (λ b. b ≡ dues.is_due_after mv (meaning m.now) j (condition_of condition.now) tuple.now) }
{
    let sorts = condition.sorts.as_slice();
    if !is_due_then(j, sorts, mv, tuple, m) {
        return Ok(false);
    }
    let met = is_true_with(alloc, &condition.condition, tuple, m)?;
    Ok(!met)
}

/// The tuples of the condition with that number that are due after the step. The error is want of memory.
fn due_of(
    alloc: Global,
    j: u32,
    condition: &Justice,
    mv: Move,
    m: &Structure,
) -> Result<List<List<u32>>, Memory>
    ensures { IfOk result (λ ts. ts ≡ dues.due_after mv (meaning m.now) j (condition_of condition.now)) }
{
    let all = m.tuples(alloc, condition.sorts.as_slice())?;
    let mut left = Vec::new(alloc);
    for tuple in all.as_slice() {
        if is_due(alloc, j, condition, mv, tuple.as_slice(), m)? {
            left.push(List::from_vec(Vec::from_slice(alloc, tuple.as_slice())?))?;
        }
    }
    Ok(List::from_vec(left))
}

/// For each condition the tuples that are due after the step. The error is want of memory.
pub(crate) fn due_after(
    alloc: Global,
    conditions: &[Justice],
    mv: Move,
    m: &Structure,
) -> Result<List<List<List<u32>>>, Memory>
    ensures { IfOk result (λ due. due ≡ dues.all_due_after mv (meaning m.now) conditions.now) }
{
    let mut all = Vec::new(alloc);
    for (j, condition) in conditions.iter().enumerate() {
        all.push(due_of(alloc, number(j)?, condition, mv, m)?)?;
    }
    Ok(List::from_vec(all))
}
