//! The table of a system's labels.
ghost use Rattle.std.specs.Prelude.{◌≡◌, ◌++◌, ◌<◌, ◌^◌, get_or, length, map, IfOk, OnOk};
ghost use Rattle.lv_labels.specs.Labels.{key_eq, keys_of_labels, keys_of_witnesses, labels_of, no_key};
ghost use Rattle.lv_labels.specs.Once.{each_once};
ghost use Rattle.lv_labels.specs.Table.{label_row, name_among, own_key, table_labels};

use crate::key::Key;
use crate::known::{KnownKeys, place};
use crate::listing::{keys_of, push_keys};
use crate::readings::read;
use crate::sharing::copied;
use lv_formula::{Formula, List, Memory, Scope, SortId, Temporal};
use lv_system::{LabelDecl, Parts, System, WitnessDecl};
use std::alloc::Global;

/// A label of a system: a relation that holds of a tuple where `always` of its body does.
#[derive(Debug, Drop)]
pub struct Label {
    /// The number of the first declaration that names it.
    pub name: Option<u32>,
    /// The sorts of its arguments, which are the free variables of its body in order of first occurrence.
    pub sorts: List<SortId>,
    /// The reading of what stands under the `always`. Stands in the sorts, the last of them innermost.
    pub body: Formula,
}

/// The labels of a system, by their number.
#[derive(Debug, Drop)]
pub struct LabelTable {
    pub labels: List<Label>,
    /// What makes each label. By this a reading finds a label's number.
    pub keys: KnownKeys,
}

/// The labels of the system: those of its label declarations, of its witness formulas and of its property, in
/// order of text, an outer one before those inside it, and equal ones once.
///
/// The error is want of memory, also where a variable's number would pass the greatest `u32`.
#[tactic(auto, using(crate::proofs::Few::few_own))]
pub fn labels_of(alloc: Global, system: &System) -> Result<LabelTable, Memory>
    ensures keys { IfOk result (λ table. table.keys ≡ labels_of system.now) }
    ensures labels { IfOk result (λ table. table.labels ≡ table_labels system.now) }
{
    let parts = system.parts();
    let keys = known_keys(alloc, parts)?;
    let own = own_keys(alloc, parts.labels.as_slice())?;
    let labels = label_rows(alloc, &keys, own.as_slice())?;
    Ok(LabelTable { labels, keys })
}

fn known_keys(alloc: Global, parts: &Parts) -> Result<KnownKeys, Memory>
    ensures { IfOk result (λ keys. keys ≡ labels_of parts.now) }
{
    let mut found = Vec::new(alloc);
    push_of_labels(alloc, parts.labels.as_slice(), &mut found)?;
    push_of_witnesses(alloc, parts.witnesses.as_slice(), &mut found)?;
    push_keys(alloc, &parts.property, &Scope::Outer(&[]), &mut found)?;
    once(alloc, found.as_slice())
}

fn push_of_labels(alloc: Global, labels: &[LabelDecl], found: &mut Vec<Key>) -> Result<(), Memory>
    ensures { OnOk result (found.new.items ≡ found.old.items ++ keys_of_labels labels.now) }
{
    for label in labels {
        push_keys(
            alloc,
            &label.formula,
            &Scope::Outer(label.params.as_slice()),
            found,
        )?;
    }
    Ok(())
}

fn push_of_witnesses(
    alloc: Global,
    witnesses: &[WitnessDecl],
    found: &mut Vec<Key>,
) -> Result<(), Memory>
    ensures { OnOk result (found.new.items ≡ found.old.items ++ keys_of_witnesses witnesses.now) }
{
    for witness in witnesses {
        push_keys(
            alloc,
            &witness.formula,
            &Scope::Outer(&[witness.sort]),
            found,
        )?;
    }
    Ok(())
}

/// Each label once, at its first place.
fn once(alloc: Global, keys: &[Key]) -> Result<KnownKeys, Memory>
    ensures { IfOk result (λ known. known ≡ each_once key_eq keys.now) }
{
    let mut known = KnownKeys::new(alloc);
    for key in keys {
        known.add(key.share(alloc)?)?;
    }
    Ok(known)
}

/// The labels of the declared formulas themselves, which are `always` of others.
fn own_keys(alloc: Global, labels: &[LabelDecl]) -> Result<List<Key>, Memory>
    ensures { IfOk result (λ own. own ≡ map own_key labels.now) }
{
    let mut own = Vec::new(alloc);
    for label in labels {
        own.push(own_key(alloc, label)?)?;
    }
    Ok(List::from_vec(own))
}

fn own_key(alloc: Global, label: &LabelDecl) -> Result<Key, Memory>
    ensures { IfOk result (λ key. key ≡ own_key label.now) }
{
    let scope = Scope::Outer(label.params.as_slice());
    let keys = keys_of(alloc, &label.formula, &scope)?;
    first(alloc, keys.as_slice())
}

/// The first label. That of no formula stands for none, as in a system each declaration has one.
fn first(alloc: Global, keys: &[Key]) -> Result<Key, Memory>
    ensures { IfOk result (λ key. key ≡ get_or keys.now 0 no_key) }
{
    match keys {
        [key, ..] => key.share(alloc),
        [] => Ok(Key {
            sorts: List::from_vec(Vec::new(alloc)),
            inner: Temporal::True,
        }),
    }
}

fn label_rows(alloc: Global, keys: &KnownKeys, own: &[Key]) -> Result<List<Label>, Memory>
    requires { length own.now < 2 ^ 32 }
    ensures { IfOk result (λ labels. labels ≡ map (label_row keys.now own.now) keys.now) }
{
    let mut labels = Vec::new(alloc);
    for key in keys.as_slice() {
        labels.push(label_row(alloc, key, keys, own)?)?;
    }
    Ok(List::from_vec(labels))
}

fn label_row(alloc: Global, key: &Key, keys: &KnownKeys, own: &[Key]) -> Result<Label, Memory>
    requires { length own.now < 2 ^ 32 }
    ensures { IfOk result (λ label. label ≡ label_row keys.now own.now key.now) }
{
    Ok(Label {
        name: name_among(own, key),
        sorts: copied(alloc, key.sorts.as_slice())?,
        body: read(alloc, &key.inner, &Scope::Outer(key.sorts.as_slice()), keys)?,
    })
}

/// The number of the first declaration with this label.
fn name_among(own: &[Key], key: &Key) -> Option<u32>
    requires { length own.now < 2 ^ 32 }
    ensures { result ≡ name_among own.now key.now }
{
    let place = place(own, key);
    if place < own.len() {
        Some(place as u32)
    } else {
        None
    }
}
