ghost use Rattle.std.specs.Prelude.{◌≡◌, IfOk, true};
ghost use Rattle.lv_formula.specs.Meaning.{Meaning};
ghost use Rattle.lv_formula.specs.Truth.{Env, truth_in};
ghost use Rattle.lv_rewrite.specs.Replace.{replace_of};
ghost use Rattle.lv_rewrite.specs.Tables.{FitsWith, are_constants, AreScoped};
ghost use Rattle.lv_formula.specs.Updated.{updated};

use lv_formula::{Formula, Memory, Update};
use lv_rewrite::replace;
use std::alloc::Global;

/// The formula that is true in a structure exactly where `f` is true after the updates, all of which read
/// the structure before them. It is `f` with each updated symbol replaced by what its update says.
///
/// The error is want of memory, also where a variable's number in the result would pass the greatest `u32`.
pub fn after(alloc: Global, f: &Formula, updates: &[Update]) -> Result<Formula, Memory>
    // Where each body has no free variable but its arguments, the new values of constants are constants, and there are a
    // vocabulary and a context that the formula fits and in which each updated relation has its update's sorts.
    ensures truth { AreScoped updates.now → are_constants updates.now ≡ true → FitsWith updates.now f.now → IfOk result (λ g. (m : Meaning) (env : Env) → truth_in m g env ≡ truth_in (updated m updates.now) f.now env) }
    ensures value { IfOk result (λ g. g ≡ replace_of updates.now f.now) }
{
    replace(alloc, f, updates)
}
