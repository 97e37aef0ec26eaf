//! Steps of a lasso, read from trees.
ghost use Rattle.std.specs.Prelude.{◌≡◌, ◌<◌, ◌^◌, length};
ghost use Rattle.lv_system.specs.Step.{action_at};
ghost use Rattle.lv_fault.specs.Behind.{behind};
ghost use Rattle.lv_fault.specs.Given.{Fails, Gives};
ghost use Rattle.lv_fault.specs.Seen.{spelled_seen};
ghost use Rattle.lv_lasso.specs.Reading.{action_in, action_named, looks_like_name, loop_in, past_the_last, stem_in, step_in, steps_in};

use lv_fault::trees::{Spelled, head, list, next, place, refusal};
use lv_fault::{Kind, ReadText};
use lv_formula::{List, SortId};
use lv_reading::elements;
use lv_reading::numbers::exactly;
use lv_replay::StepTaken;
use lv_struct::Structure;
use lv_system::{
    Action, Parts, all_stand_in_names, begins_with_small_letter, is_reserved_word, same_bytes,
};
use lv_tree::Tree;
use std::alloc::Global;

/// The most steps that stem and loop have each.
const MOST_STEPS: u32 = 256;

/// The number of the first action with the name. Takes no memory.
fn action_named(actions: &[Action], name: &[u8]) -> Option<u32>
    requires { length actions.now < 2 ^ 32 }
    ensures { result ≡ action_named 0 actions.now name.now }
{
    for i in 0..actions.len() {
        if same_bytes(actions[i].name.as_slice(), name) {
            return Some(i as u32);
        }
    }
    None
}

/// Whether the bytes are written like a name, whatever their number.
fn looks_like_name(text: &[u8]) -> bool
    ensures { result ≡ looks_like_name text.now }
{
    begins_with_small_letter(text) && (all_stand_in_names(text) && !is_reserved_word(text))
}

/// The number of the action that the word names. A word that names none is `UnknownName` if it is written like a name, and
/// else `Unexpected`.
fn action(parts: &Parts, word: Spelled<'_>) -> Result<u32, ReadText>
    requires { length parts.now.actions < 2 ^ 32 }
    ensures { Gives (λ x. x) result (action_in parts.now (spelled_seen word.entry)) }
{
    match action_named(parts.actions.as_slice(), word.text) {
        Some(action) => Ok(action),
        None => {
            if looks_like_name(word.text) {
                Err(refusal(Kind::UnknownName, word.at))
            } else {
                Err(refusal(Kind::Unexpected, word.at))
            }
        }
    }
}

/// The sorts of the action's parameters, none where there is no such action.
fn params(parts: &Parts, action: u32) -> &[SortId]
    ensures { result.now ≡ (action_at parts.now action).params }
{
    match parts.actions.as_slice().get(action as usize) {
        Some(action) => action.params.as_slice(),
        None => &[],
    }
}

/// `(ACTION E ..)`, with an element for each parameter.
#[tactic(auto, unfolding(crate::specs::Reading::step_in))]
fn step(alloc: Global, parts: &Parts, m: &Structure, tree: &Tree) -> Result<StepTaken, ReadText>
    requires { length parts.now.actions < 2 ^ 32 }
    ensures { Gives (λ x. x) result (step_in parts.now m.now.sizes tree.now) }
{
    let list = head(tree)?;
    let action = action(parts, list.word)?;
    let elements = elements(alloc, m, params(parts, action), list.word.at, list.rest)?;
    Ok(StepTaken { action, elements })
}

/// The refusal of an item behind the last step that there may be: `TooMany` for a list, whatever is inside, and
/// `Unexpected` for a word.
fn refuse_step(tree: &Tree) -> ReadText
    ensures { Fails result (past_the_last tree.now) }
{
    match list(tree) {
        Ok(_) => refusal(Kind::TooMany, place(tree)),
        Err(error) => error,
    }
}

/// The steps behind those that are done, at most so many of them. One more is `TooMany`, told before what is inside.
#[tactic(auto, using(lv_fault::proofs::BehindLaws::nothing_more), unfolding(crate::specs::Reading::steps_in))]
fn steps_after(
    alloc: Global,
    parts: &Parts,
    m: &Structure,
    mut done: Vec<StepTaken>,
    room: u32,
    items: &[Tree],
) -> Result<Vec<StepTaken>, ReadText>
    requires { length parts.now.actions < 2 ^ 32 }
    ensures { Gives (λ x. x.items) result (behind done.items (steps_in parts.now m.now.sizes room items.now)) }
{
    match items {
        [] => Ok(done),
        [first, items @ ..] => {
            if room == 0 {
                return Err(refuse_step(first));
            }
            done.push(step(alloc, parts, m, first)?)?;
            steps_after(alloc, parts, m, done, room - 1, items)
        }
    }
}

fn steps(
    alloc: Global,
    parts: &Parts,
    m: &Structure,
    items: &[Tree],
) -> Result<List<StepTaken>, ReadText>
    requires { length parts.now.actions < 2 ^ 32 }
    ensures { Gives (λ x. x) result (steps_in parts.now m.now.sizes 256 items.now) }
{
    let steps = steps_after(alloc, parts, m, Vec::new(alloc), MOST_STEPS, items)?;
    Ok(List::from_vec(steps))
}

/// `(stem STEP ..)`
#[tactic(auto, unfolding(crate::specs::Reading::stem_in))]
pub(crate) fn stem(
    alloc: Global,
    parts: &Parts,
    m: &Structure,
    tree: &Tree,
) -> Result<List<StepTaken>, ReadText>
    requires { length parts.now.actions < 2 ^ 32 }
    ensures { Gives (λ x. x) result (stem_in parts.now m.now.sizes tree.now) }
{
    let list = head(tree)?;
    exactly(b"stem", list.word)?;
    steps(alloc, parts, m, list.rest)
}

/// `(loop STEP ..)`, with a step.
#[tactic(auto, unfolding(crate::specs::Reading::loop_in))]
pub(crate) fn turn(
    alloc: Global,
    parts: &Parts,
    m: &Structure,
    tree: &Tree,
) -> Result<List<StepTaken>, ReadText>
    requires { length parts.now.actions < 2 ^ 32 }
    ensures { Gives (λ x. x) result (loop_in parts.now m.now.sizes tree.now) }
{
    let list = head(tree)?;
    exactly(b"loop", list.word)?;
    next(list.end, list.rest)?;
    steps(alloc, parts, m, list.rest)
}
