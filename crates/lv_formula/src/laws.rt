//! What follows from the definition of truth, for all structures as functions and all formulas.
//!
//! Each function here does nothing: it stands for the law that its contract states.
ghost use Rattle.std.specs.Prelude.{◌≡◌, ◌<◌, ◌∷◌, ◌↔◌, ℕ, List, true};
ghost use Rattle.lv_formula.specs.declared.formula.Formula.{Formula};
ghost use Rattle.lv_formula.specs.declared.formula.Formula.TheVariants as make;
ghost use Rattle.lv_formula.specs.declared.symbols.SortId.{SortId};
ghost use Rattle.lv_formula.specs.declared.vocabulary.Vocabulary.{Vocabulary};
ghost use Rattle.lv_formula.specs.Fits.{fits_in};
ghost use Rattle.lv_formula.specs.Meaning.{AgreeOn, IsStructureOf, Meaning, in_range};
ghost use Rattle.lv_formula.specs.Truth.{Env, truth_in};

/// A formula about all elements of a sort is true exactly where it is true with each element of the sort
/// as the innermost value.
pub fn true_of_each()
    ensures { (m : Meaning) (sort : SortId) (f : Formula) (env : Env) → (truth_in m (make.All sort f) env ≡ true) ↔ ((x : ℕ) → x < m.size sort → truth_in m f (x ∷ env) ≡ true) }
{}

/// A formula about some element of a sort is true exactly where there is an element of the sort with which
/// it is true as the innermost value.
pub fn true_of_some()
    ensures { (m : Meaning) (sort : SortId) (f : Formula) (env : Env) → (truth_in m (make.Any sort f) env ≡ true) ↔ ((x : ℕ) × (x < m.size sort) × (truth_in m f (x ∷ env) ≡ true)) }
{}

/// Two structures that agree on a vocabulary agree on each formula that fits it, where the values are
/// elements of the context's sorts.
pub fn truth_in_structures_that_agree()
    ensures { (voc : Vocabulary) (m n : Meaning) → IsStructureOf voc m → AgreeOn voc m n → (f : Formula) (context : List SortId) (env : Env) → fits_in voc context f ≡ true → in_range m context env ≡ true → truth_in m f env ≡ truth_in n f env }
{}
