//! What makes a label.
ghost use Rattle.std.specs.Prelude.{◌≡◌, IfOk};
ghost use Rattle.lv_formula.specs.Symbols.{sorts_eq};
ghost use Rattle.lv_labels.specs.Sameness.{temporal_eq};
ghost use Rattle.lv_labels.specs.Labels.{key_eq};

use crate::sharing::copied;
use lv_formula::{List, Memory, SortId, Temporal};
use std::alloc::Global;

/// What makes a label: the formula under its `always`, and the sorts of the formula's free variables.
///
/// The labels are the temporal subformulas of which the tableau of Padon, Hoenicke, Losa, Podelski, Sagiv
/// and Shoham (POPL 2018) keeps the truth in each state.
#[derive(Debug, Drop)]
pub struct Key {
    /// The sorts of the free variables, in order of first occurrence.
    pub sorts: List<SortId>,
    /// No `eventually` stands in it. The sorts' variables alone are free in it, the first of them outermost.
    pub inner: Temporal,
}

impl Key {
    /// Whether the two are one label. Names of bound variables play no role, as there are none. Takes no memory.
    pub fn equal(&self, other: &Key) -> bool
        ensures { result ≡ key_eq self.now other.now }
    {
        are_same_sorts(self.sorts.as_slice(), other.sorts.as_slice())
            && are_same(&self.inner, &other.inner)
    }

    /// An equal label, whose formula shares its parts with this one. The error is want of memory.
    pub fn share(&self, alloc: Global) -> Result<Key, Memory>
        ensures { IfOk result (λ key. key ≡ self.now) }
    {
        Ok(Key {
            sorts: copied(alloc, self.sorts.as_slice())?,
            inner: self.inner.share(alloc)?,
        })
    }
}

/// Whether the two are one temporal formula, as the test that definitions make.
#[tactic(auto, using(crate::proofs::Sameness::temporal_test))]
fn are_same(f: &Temporal, g: &Temporal) -> bool
    ensures { result ≡ temporal_eq f.now g.now }
{
    f.equal(g)
}

#[tactic(auto, using(crate::proofs::Sameness::sorts_lengths))]
fn are_same_sorts(a: &[SortId], b: &[SortId]) -> bool
    ensures { result ≡ sorts_eq a.now b.now }
{
    if a.len() != b.len() {
        return false;
    }
    for i in 0..a.len() {
        if a[i].0 != b[i].0 {
            return false;
        }
    }
    true
}
