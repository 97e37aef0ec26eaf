ghost use Rattle.std.specs.Prelude.{◌≡◌, ◌<◌, ◌^◌, IfOk, length, map};
ghost use Rattle.lv_formula.specs.Measures.{depth_of, depth_of_all};
ghost use Rattle.lv_struct.specs.Tables.{meaning, size_in};
ghost use Rattle.lv_replay.specs.Fairness.{are_met, condition_of, first_unmet, is_met};

use lv_eval::is_true;
use lv_formula::{Formula, List, Memory};
use lv_struct::Structure;
use lv_system::Fair;
use std::alloc::Global;

/// The number of the first condition that for some tuple is true in none of the structures. The error is want of memory.
pub(crate) fn first_unmet(
    alloc: Global,
    fairs: &[Fair],
    start: &Structure,
    states: &[Structure],
) -> Result<Option<u32>, Memory>
    requires shallow { depth_of_all (map condition_of fairs.now) < 2 ^ 32 }
    requires few { length fairs.now < 2 ^ 32 }
    ensures { IfOk result (λ n. n ≡ first_unmet (size_in start.now) (map meaning states.now) 0 fairs.now) }
{
    for i in 0..fairs.len() {
        let tuples = start.tuples(alloc, fairs[i].params.as_slice())?;
        if !are_met(alloc, &fairs[i].condition, states, tuples.as_slice())? {
            return Ok(Some(i as u32));
        }
    }
    Ok(None)
}

/// Whether the formula is true of each tuple in some structure. The error is want of memory.
fn are_met(
    alloc: Global,
    f: &Formula,
    states: &[Structure],
    tuples: &[List<u32>],
) -> Result<bool, Memory>
    requires { depth_of f.now < 2 ^ 32 }
    ensures { IfOk result (λ b. b ≡ are_met f.now (map meaning states.now) tuples.now) }
{
    for tuple in tuples {
        if !is_met(alloc, f, states, tuple.as_slice())? {
            return Ok(false);
        }
    }
    Ok(true)
}

/// Whether the formula is true of the tuple in some structure. The error is want of memory.
fn is_met(alloc: Global, f: &Formula, states: &[Structure], tuple: &[u32]) -> Result<bool, Memory>
    requires { depth_of f.now < 2 ^ 32 }
    ensures { IfOk result (λ b. b ≡ is_met f.now tuple.now (map meaning states.now)) }
{
    for m in states {
        if is_true(alloc, f, tuple, m)? {
            return Ok(true);
        }
    }
    Ok(false)
}
