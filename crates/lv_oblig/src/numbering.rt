//! The obligations of a system by their numbers.
ghost use Rattle.std.specs.Prelude.{◌≡◌, ◌+◌, ◌<◌, ◌≤◌, get_or, length};
ghost use Rattle.lv_labels.specs.Problem.{problem_of};
ghost use Rattle.lv_labels.specs.declared.which.Which.TheVariants as W;
ghost use Rattle.lv_labels.specs.Obligations.{obligations_of};
ghost use Rattle.lv_oblig.specs.Numbers.{IsBelow, IsThere, from_action, obligation_at};

use lv_labels::{Move, Which};
use lv_system::{Action, Invariant, System};

/// How many obligations the system has: one for the start of each invariant, one for each action, move and invariant,
/// and one for the catch. Takes no memory.
#[tactic(auto, using(crate::proofs::Counting::few_obligations, crate::proofs::Counting::number_is, crate::proofs::Counting::few_invariants, crate::proofs::Counting::few_actions))]
pub fn count(system: &System) -> u32
    ensures { result ≡ length (obligations_of system.now) }
{
    let invariants = system.parts().invariants.as_slice().len() as u32;
    let actions = system.parts().actions.as_slice().len() as u32;
    invariants + actions * (3 * invariants) + 1
}

/// The obligation with that number: first the starts, then for each action, for each move, the steps, and last the
/// catch. Takes no memory.
///
/// The caller sees to it that the number is below `count`.
#[tactic(auto, using(crate::proofs::Counting::start_at, crate::proofs::Counting::past_starts, crate::proofs::Counting::few_invariants, crate::proofs::Counting::few_actions, crate::proofs::Counting::there))]
pub fn which_obligation(system: &System, i: u32) -> Which
    requires { i < length (obligations_of system.now) }
    ensures value { result ≡ obligation_at system.now i }
    ensures there { IsThere (problem_of system.now) result }
{
    let invariants = system.parts().invariants.as_slice();
    let actions = system.parts().actions.as_slice();
    let count = invariants.len() as u32;
    if i < count {
        return Which::Start { invariant: i };
    }
    step_at(actions, 0, invariants, i - count)
}

/// The obligation with that number among the steps, of which the first is of action n, and the catch behind them.
#[tactic(auto, using(crate::proofs::Counting::stay_of, crate::proofs::Counting::freeze_of, crate::proofs::Counting::save_of, crate::proofs::Counting::rest_of))]
fn step_at(actions: &[Action], n: u32, invariants: &[Invariant], i: u32) -> Which
    requires invariants { length invariants.now ≤ 256 }
    requires actions { n + length actions.now ≤ 32 }
    ensures value { result ≡ get_or (from_action invariants.now n actions.now) i W.Catch }
    ensures there { IsBelow (n + length actions.now) result }
{
    let count = invariants.len() as u32;
    match actions {
        [_, rest @ ..] => {
            if i < count {
                return step(n, Move::Stay, i);
            }
            let i = i - count;
            if i < count {
                return step(n, Move::Freeze, i);
            }
            let i = i - count;
            if i < count {
                return step(n, Move::Save, i);
            }
            step_at(rest, n + 1, invariants, i - count)
        }
        [] => Which::Catch,
    }
}

fn step(action: u32, mv: Move, invariant: u32) -> Which
    ensures { result ≡ W.Step action mv invariant }
{
    Which::Step {
        action,
        mv,
        invariant,
    }
}
