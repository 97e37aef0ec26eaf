//! What is asked of a system in one text with it: that a structure be checked, or a lasso replayed.
ghost use Rattle.std.specs.Prelude.{◌≡◌, ◌<◌, true, IfOk, length};
ghost use Rattle.lv_struct.specs.Tables.{HasVocabulary};
ghost use Rattle.lv_grammar.specs.LabelLimits.{labels_keep_limits};
ghost use Rattle.lv_prove.specs.Outcomes.{count, vocabulary_at};
ghost use Rattle.lv_fault.specs.Given.{Gives};
ghost use Rattle.lv_replay.specs.Fits.{LassoFits};
ghost use Rattle.lv_reading.specs.Structures.{structure_in};
ghost use Rattle.lv_grammar.specs.Reading.{system_of};
ghost use Rattle.lv_run.specs.Requests.{IsReadyCheck, IsReadyReplay, asked_in, asked_seen, check_behind, check_of, check_seen, obligation_in, replay_behind, replay_of, replay_seen};

use lv_fault::trees::{finish, head, next, refusal};
use lv_labels::labels_of;
use lv_lasso::{Lasso, read_lasso};
use lv_oblig::{count, vocabulary};
use lv_reading::numbers::{exactly, number};
use lv_struct::Structure;
use lv_syntax::{Kind, ReadText, read_structure, read_system};
use lv_system::System;
use lv_tree::Tree;
use std::alloc::Global;

/// A system, the number of one of its obligations, and a structure of the obligation's vocabulary.
#[derive(Drop)]
pub(crate) struct CheckRequest {
    pub(crate) system: System,
    pub(crate) index: u32,
    pub(crate) structure: Structure,
}

/// A system and a lasso of its own symbols.
#[derive(Drop)]
pub(crate) struct ReplayRequest {
    pub(crate) system: System,
    pub(crate) lasso: Lasso,
}

/// The number of an obligation of the system. Any other is `Unexpected`.
fn obligation(system: &System, tree: &Tree) -> Result<u32, ReadText>
    ensures given { Gives (λ x. x) result (obligation_in system.now tree.now) }
    ensures there { IfOk result (λ i. i < count system.now) }
{
    let number = number(tree)?;
    if number.value < count(system) {
        Ok(number.value)
    } else {
        Err(refusal(Kind::Unexpected, number.at))
    }
}

/// The structure over the obligation's vocabulary that a tree spells.
fn structure(alloc: Global, system: &System, index: u32, tree: &Tree) -> Result<Structure, ReadText>
    requires limits { labels_keep_limits system.now ≡ true }
    requires there { index < count system.now }
    ensures given { Gives (λ x. x) result (structure_in system.now (vocabulary_at system.now index) tree.now) }
    ensures vocabulary { IfOk result (HasVocabulary (vocabulary_at system.now index)) }
{
    let table = labels_of(alloc, system)?;
    let voc = vocabulary(alloc, system, &table, index)?;
    read_structure(alloc, tree, system, &table, &voc)
}

/// A list that begins with a word and a system: where it ends, and what stands behind the system.
#[derive(Clone, Copy, Drop)]
struct AskedList<'a> {
    system: &'a Tree,
    end: u32,
    rest: &'a [Tree],
}

/// The list with this word and a system.
#[tactic(auto, unfolding(crate::specs::Requests::asked_in))]
fn asked<'a>(word: &[u8], tree: &'a Tree) -> Result<AskedList<'a>, ReadText>
    ensures { Gives asked_seen result (asked_in word.now tree.now) }
{
    let list = head(tree)?;
    exactly(word, list.word)?;
    let (system, rest) = next(list.end, list.rest)?;
    Ok(AskedList {
        system,
        end: list.end,
        rest,
    })
}

/// The number of an obligation and a structure, behind the system.
#[tactic(auto, unfolding(crate::specs::Requests::check_behind))]
fn check_behind(
    alloc: Global,
    system: &System,
    end: u32,
    items: &[Tree],
) -> Result<(u32, Structure), ReadText>
    requires { labels_keep_limits system.now ≡ true }
    ensures given { Gives (λ x. x) result (check_behind system.now end items.now) }
    ensures there { IfOk result (λ x. x.0 < count system.now) }
    ensures vocabulary { IfOk result (λ x. HasVocabulary (vocabulary_at system.now x.0) x.1) }
{
    let (first, rest) = next(end, items)?;
    let index = obligation(system, first)?;
    let (second, rest) = next(end, rest)?;
    let structure = structure(alloc, system, index, second)?;
    finish(rest)?;
    Ok((index, structure))
}

/// A lasso, behind the system.
#[tactic(auto, unfolding(crate::specs::Requests::replay_behind))]
fn replay_behind(
    alloc: Global,
    system: &System,
    end: u32,
    items: &[Tree],
) -> Result<Lasso, ReadText>
    ensures given { Gives (λ x. x) result (replay_behind system.now end items.now) }
    ensures ready { IfOk result (LassoFits system.now) }
{
    let (first, rest) = next(end, items)?;
    let lasso = read_lasso(alloc, first, system)?;
    finish(rest)?;
    Ok(lasso)
}

/// The system at this tree, as the definition by steps gives it.
fn system(alloc: Global, tree: &Tree) -> Result<System, ReadText>
    ensures given { Gives (λ x. x) result (system_of tree.now) }
    ensures limits { IfOk result (λ p. labels_keep_limits p ≡ true) }
{
    read_system(alloc, tree)
}

/// `(check SYSTEM I STRUCTURE)`: a system, the number of one of its obligations, and a structure of the obligation's
/// vocabulary.
#[tactic(auto, unfolding(crate::specs::Requests::check_of))]
pub(crate) fn read_check(alloc: Global, tree: &Tree) -> Result<CheckRequest, ReadText>
    ensures given { Gives check_seen result (check_of tree.now) }
    ensures ready { IfOk result IsReadyCheck }
{
    let list = asked(b"check", tree)?;
    let system = system(alloc, list.system)?;
    let (index, structure) = check_behind(alloc, &system, list.end, list.rest)?;
    Ok(CheckRequest {
        system,
        index,
        structure,
    })
}

/// `(replay SYSTEM LASSO)`: a system and a lasso of its own symbols.
#[tactic(auto, unfolding(crate::specs::Requests::replay_of))]
pub(crate) fn read_replay(alloc: Global, tree: &Tree) -> Result<ReplayRequest, ReadText>
    ensures given { Gives replay_seen result (replay_of tree.now) }
    ensures ready { IfOk result IsReadyReplay }
{
    let list = asked(b"replay", tree)?;
    let system = system(alloc, list.system)?;
    let lasso = replay_behind(alloc, &system, list.end, list.rest)?;
    Ok(ReplayRequest { system, lasso })
}
