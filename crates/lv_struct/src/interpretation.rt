ghost use Rattle.std.specs.Prelude.{◌≡◌, ℕ};
ghost use Rattle.lv_formula.specs.Meaning.{Meaning};

use lv_formula::{SortId, Sym};

/// A structure as functions: what is known of it without a table of its tuples.
pub trait Interpretation {
    /// The structure that it is.
    ghost meaning: { Self → Meaning };

    /// How many elements the sort has.
    fn size(&self, sort: SortId) -> u32
        ensures { result ≡ (meaning self.now).size sort };

    /// Whether the relation has the tuple.
    fn holds(&self, sym: Sym, tuple: &[u32]) -> bool
        ensures { result ≡ (meaning self.now).holds sym tuple.now };

    /// Which element the constant is.
    fn value(&self, sym: Sym) -> u32
        ensures { result ≡ (meaning self.now).value sym };
}
