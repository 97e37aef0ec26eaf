//! Lassos, read from trees.
ghost use Rattle.std.specs.Prelude.{◌≡◌, IfOk};
ghost use Rattle.lv_struct.specs.Tables.{HasVocabulary};
ghost use Rattle.lv_system.specs.Vocabularies.{own_vocabulary};
ghost use Rattle.lv_fault.specs.Given.{Gives};
ghost use Rattle.lv_replay.specs.Fits.{LassoFits};
ghost use Rattle.lv_lasso.specs.Lassos.{SpellsLasso};
ghost use Rattle.lv_lasso.specs.Reading.{lasso_in};

use crate::steps::{stem, turn};
use crate::vocabulary::own_vocabulary;
use lv_fault::ReadText;
use lv_fault::trees::{finish, head, next};
use lv_labels::labels_of;
use lv_reading::numbers::exactly;
use lv_reading::read_structure;
use lv_replay::Lasso;
use lv_system::System;
use lv_tree::Tree;
use std::alloc::Global;

/// The lasso of the tree, or the first fault.
#[tactic(auto, unfolding(crate::specs::Reading::lasso_in))]
fn lasso(alloc: Global, tree: &Tree, system: &System) -> Result<Lasso, ReadText>
    ensures given { Gives (λ x. x) result (lasso_in system.now tree.now) }
    ensures vocabulary { IfOk result (λ l. HasVocabulary (own_vocabulary system.now) l.start) }
{
    let parts = system.parts();
    let table = labels_of(alloc, system)?;
    let voc = own_vocabulary(alloc, system)?;
    let list = head(tree)?;
    exactly(b"lasso", list.word)?;
    let (first, rest) = next(list.end, list.rest)?;
    let start = read_structure(alloc, first, system, &table, &voc)?;
    let (second, rest) = next(list.end, rest)?;
    let stem = stem(alloc, parts, &start, second)?;
    let (third, rest) = next(list.end, rest)?;
    let turn = turn(alloc, parts, &start, third)?;
    finish(rest)?;
    Ok(Lasso { start, stem, turn })
}

/// The lasso that the tree spells. Where it spells none, the answer is the first fault, unless memory runs out before.
pub fn read_lasso(alloc: Global, tree: &Tree, system: &System) -> Result<Lasso, ReadText>
    ensures given { Gives (λ x. x) result (lasso_in system.now tree.now) }
    ensures fits { IfOk result (λ l. LassoFits system.now l) }
{
    let lasso = lasso(alloc, tree, system)?;
    Ok(lasso)
}
