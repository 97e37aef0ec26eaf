//! Comparison of lists, place by place.
ghost use Rattle.std.specs.Prelude.{◌≡◌, Bool, eqb};
ghost use Rattle.lv_struct.specs.Compare.{constant_eq, has_constant_shape, has_relation_shape, relation_eq, sort_eq};
ghost use Rattle.lv_formula.specs.Tuples.{pairwise};

use crate::tables::{Constant, Relation};
use lv_formula::{ConShape, RelShape, SortId};

/// A test against a value of another type.
pub(crate) trait Matches<T> {
    ghost test: { Self → T → Bool };

    fn matches(&self, other: &T) -> bool
        ensures { result ≡ test self.now other.now };
}

/// Whether there are as many of both, and each matches the one at its place.
#[tactic(auto, using(crate::proofs::PairLaws::lengths_differ))]
pub(crate) fn pair_up<A: Matches<B>, B>(a: &[A], b: &[B]) -> bool
    ensures { result ≡ pairwise A.test a.now b.now }
{
    if a.len() != b.len() {
        return false;
    }
    for i in 0..a.len() {
        if !a[i].matches(&b[i]) {
            return false;
        }
    }
    true
}

impl Matches<u32> for u32 {
    ghost test = { eqb };

    /// Whether the two are one number.
    fn matches(&self, other: &u32) -> bool {
        *self == *other
    }
}

impl Matches<SortId> for SortId {
    ghost test = { sort_eq };

    /// Whether the two are one sort.
    fn matches(&self, other: &SortId) -> bool {
        self.0 == other.0
    }
}

impl Matches<RelShape> for Relation {
    ghost test = { has_relation_shape };

    /// Whether the relation has that name and those sorts.
    fn matches(&self, shape: &RelShape) -> bool {
        self.sym.equals(shape.sym) && pair_up(self.sorts.as_slice(), shape.sorts.as_slice())
    }
}

impl Matches<Relation> for Relation {
    ghost test = { relation_eq };

    /// Whether the relations have one name, the same sorts, and the same tuples as sets.
    fn matches(&self, other: &Relation) -> bool {
        self.sym.equals(other.sym)
            && pair_up(self.sorts.as_slice(), other.sorts.as_slice())
            && self.tuples.are_among(&other.tuples)
            && other.tuples.are_among(&self.tuples)
    }
}

impl Matches<ConShape> for Constant {
    ghost test = { has_constant_shape };

    /// Whether the constant has that name and that sort.
    fn matches(&self, shape: &ConShape) -> bool {
        self.sym.equals(shape.sym) && self.sort.0 == shape.sort.0
    }
}

impl Matches<Constant> for Constant {
    ghost test = { constant_eq };

    /// Whether the constants have one name, one sort and one element.
    fn matches(&self, other: &Constant) -> bool {
        self.sym.equals(other.sym) && self.sort.0 == other.sort.0 && self.element == other.element
    }
}
