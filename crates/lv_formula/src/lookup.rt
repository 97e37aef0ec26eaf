//! Where the symbols that formulas name are looked up.
ghost use Rattle.std.specs.Prelude.{◌≡◌, Bool, ltb};
ghost use Rattle.lv_formula.specs.declared.symbols.Sym.{Sym};
ghost use Rattle.lv_formula.specs.declared.vocabulary.Vocabulary.{Vocabulary};
ghost use Rattle.lv_formula.specs.Vocabulary.{relation_in, constant_in, sorts_of_relation};
ghost use Rattle.lv_formula.specs.Fits.{none_free};

use crate::symbols::{SortId, Sym};
use crate::vocabulary::Vocabulary;

/// What stands for a vocabulary: a `Vocabulary`, or other data that tell the same without building one.
///
/// Some relations may be free: their arguments aren't known, so they may have any terms that have a sort.
pub trait Lookup {
    ghost vocabulary: { Self → Vocabulary };

    ghost is_free: { Self → Sym → Bool };

    /// Whether the sort is one of the vocabulary's.
    fn has_sort(&self, sort: SortId) -> bool
        ensures { result ≡ ltb sort.0 (vocabulary self.now).sorts };

    /// The sorts of a relation's arguments, if it is in the vocabulary.
    fn relation<'a>(&'a self, sym: &'a Sym) -> Option<&'a [SortId]>
        ensures { sorts_of_relation result ≡ relation_in (vocabulary self.now).relations sym.now };

    /// The sort of a constant, if it is in the vocabulary.
    fn constant(&self, sym: Sym) -> Option<SortId>
        ensures { result ≡ constant_in (vocabulary self.now).constants sym };

    /// Whether the relation may have any terms that have a sort.
    fn is_free(&self, sym: Sym) -> bool
        ensures { result ≡ is_free self.now sym };
}

impl Lookup for Vocabulary {
    ghost vocabulary = { λ voc. voc };

    ghost is_free = { λ voc. none_free };

    fn has_sort(&self, sort: SortId) -> bool {
        sort.0 < self.sorts
    }

    fn relation<'a>(&'a self, sym: &'a Sym) -> Option<&'a [SortId]> {
        for shape in self.relations.as_slice() {
            if shape.sym.equals(*sym) {
                return Some(shape.sorts.as_slice());
            }
        }
        None
    }

    fn constant(&self, sym: Sym) -> Option<SortId> {
        for shape in self.constants.as_slice() {
            if shape.sym.equals(sym) {
                return Some(shape.sort);
            }
        }
        None
    }

    fn is_free(&self, _sym: Sym) -> bool {
        false
    }
}
