ghost use Rattle.std.specs.Prelude.{◌≡◌, ◌<◌, ◌^◌, IfOk, length, reverse};
ghost use Rattle.lv_formula.specs.Measures.{depth_of, depth_of_all};
ghost use Rattle.lv_formula.specs.Truth.{truth_in};
ghost use Rattle.lv_struct.specs.Tables.{meaning};
ghost use Rattle.lv_eval.specs.FirstFalse.{TellsFirstFalse};

use crate::env::Env;
use crate::evaluate::truth;
use lv_formula::{Formula, Memory};
use lv_struct::Structure;
use std::alloc::Global;

/// Whether the formula is true where its free variables have these values, the innermost variable's last.
/// The error is want of memory.
pub fn is_true(alloc: Global, f: &Formula, values: &[u32], m: &Structure) -> Result<bool, Memory>
    requires { depth_of f.now < 2 ^ 32 }
    ensures { IfOk result (λ holds. holds ≡ truth_in (meaning m.now) f.now (reverse values.now)) }
{
    let mut env = Env::new(alloc);
    env.load(values, f.depth())?;
    Ok(truth(f, m, &mut env))
}

/// The number of the first formula that is false, its free variables counting as element 0, and none where all
/// are true. The error is want of memory.
#[tactic(auto, using(crate::proofs::FirstFalseLaws::none_before, crate::proofs::FirstFalseLaws::depth_at, crate::proofs::FirstFalseLaws::one_more, crate::proofs::FirstFalseLaws::all_true))]
pub fn first_false(alloc: Global, fs: &[Formula], m: &Structure) -> Result<Option<u32>, Memory>
    requires shallow { depth_of_all fs.now < 2 ^ 32 }
    requires few { length fs.now < 2 ^ 32 }
    ensures { IfOk result (λ found. TellsFirstFalse (meaning m.now) fs.now found) }
{
    for i in 0..fs.len() {
        if !is_true(alloc, &fs[i], &[], m)? {
            return Ok(Some(i as u32));
        }
    }
    Ok(None)
}
