//! A list of labels, in which each counts once.
ghost use Rattle.std.specs.Prelude.{◌≡◌, ◌∷◌, ◌<◌, ◌^◌, [], IfOk, OnOk, OnErr, length};
ghost use Rattle.lv_labels.specs.Labels.{key_eq, number_of};
ghost use Rattle.lv_labels.specs.Once.{is_among, once_behind, place_of};

use crate::key::Key;
use lv_formula::Memory;
use std::alloc::Global;
use std::marker::Model;

/// The greatest number of labels, so that a `u32` counts them.
const MOST: usize = 0xffff_ffff;

/// A list of labels, in which equal ones count once. The number of a label is its place.
#[derive(Debug, Drop)]
pub struct KnownKeys {
    items: Vec<Key>,
}

impl Model for KnownKeys {
    ghost use Rattle.std.specs.Prelude.{List, ◌<◌, ◌^◌};
    ghost use Rattle.std.proofs.Common.{length};
    ghost use Rattle.std.specs.Coded.{coded_list};
    ghost use Rattle.lv_labels.specs.declared.key.Key.{Key};
    ghost use Rattle.lv_labels.specs.contracts.key.Key.{the_row};

    ghost Value = { List Key };

    ghost coded = { coded_list the_row.coded };

    ghost view = { λ it. it.items.items };

    ghost invariant = { λ it. length it.items.items < 2 ^ 32 };
}

impl KnownKeys {
    /// No labels. Takes no memory.
    pub fn new(alloc: Global) -> KnownKeys
        ensures { result ≡ [] }
    {
        KnownKeys {
            items: Vec::new(alloc),
        }
    }

    /// The same labels, whose formulas share their parts with these. The error is want of memory.
    pub fn copy(&self, alloc: Global) -> Result<KnownKeys, Memory>
        ensures { IfOk result (λ copy. copy ≡ self.now) }
    {
        Ok(KnownKeys {
            items: shared(alloc, self.items.as_slice())?,
        })
    }

    /// The labels, by their number.
    pub fn as_slice(&self) -> &[Key]
        ensures items { result.now ≡ self.now }
        // what holds of every such list
        ensures few { length self.now < 2 ^ 32 }
    {
        self.items.as_slice()
    }

    /// How many labels there are.
    pub fn len(&self) -> u32
        ensures { result ≡ length self.now }
    {
        self.items.len() as u32
    }

    /// The number of the label, the number of labels where it is not there. Takes no memory.
    #[tactic(auto, using(crate::proofs::Places::place_within))]
    pub fn number(&self, key: &Key) -> u32
        ensures { result ≡ number_of self.now key.now }
    {
        place(self.items.as_slice(), key) as u32
    }

    /// Adds the label behind the others, if it is not there. The error is want of memory, and the labels stay
    /// as they were; a list of the greatest number of labels has no memory for one more.
    pub fn add(&mut self, key: Key) -> Result<(), Memory>
        ensures added { OnOk result (self.new ≡ once_behind key_eq self.old (key ∷ [])) }
        ensures kept { OnErr result (self.new ≡ self.old) }
    {
        if is_known(self.items.as_slice(), &key) {
            return Ok(());
        }
        if self.items.len() >= MOST {
            return Err(Memory);
        }
        self.items.push(key)?;
        Ok(())
    }
}

/// The labels again. The error is want of memory.
fn shared(alloc: Global, keys: &[Key]) -> Result<Vec<Key>, Memory>
    ensures { IfOk result (λ copy. copy.items ≡ keys.now) }
{
    let mut copy = Vec::new(alloc);
    for key in keys {
        copy.push(key.share(alloc)?)?;
    }
    Ok(copy)
}

fn is_known(known: &[Key], key: &Key) -> bool
    ensures { result ≡ is_among key_eq key.now known.now }
{
    for other in known {
        if key.equal(other) {
            return true;
        }
    }
    false
}

/// The place of the label, the number of labels where it is not there.
pub(crate) fn place(keys: &[Key], key: &Key) -> usize
    ensures value { result ≡ place_of key_eq key.now keys.now }
{
    for (i, other) in keys.iter().enumerate() {
        if key.equal(other) {
            return i;
        }
    }
    keys.len()
}
