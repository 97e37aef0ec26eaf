//! What follows from the definitions of labels, readings, labelled runs and obligations, for all systems that fit.
//!
//! Each function here does nothing: it stands for the law that its contract states.
ghost use Rattle.lv_formula.specs.declared.formula.Formula.TheVariants as make;
ghost use Rattle.lv_formula.specs.declared.symbols.SortId.{SortId};
ghost use Rattle.lv_formula.specs.Meaning.{Meaning};
ghost use Rattle.lv_temporal.specs.Projections.{IsWithin, LooksAsCopied, Numbering, RunsAreWithin};
ghost use Rattle.lv_labels.specs.Rows.{AreRowsOfProblem};
ghost use Rattle.lv_labels.specs.Labels.{labels_of, reading};
ghost use Rattle.lv_labels.specs.Obligations.{AreValid, InvariantsFit, IsInductive, obligations_of};
ghost use Rattle.lv_labels.specs.Positions.{Bounded};
ghost use Rattle.lv_labels.specs.Problem.{Problem, problem_of};
ghost use Rattle.lv_labels.specs.declared.moves.Move.TheVariants as M;
ghost use Rattle.lv_labels.specs.declared.which.Which.TheVariants as W;
ghost use Rattle.lv_system.specs.Fits.{fits_parts};
ghost use Rattle.lv_system.specs.Lasso.{IsFair, IsLassoRun, lasso_of, Meets};
ghost use Rattle.lv_system.specs.TemporalTruth.{holds};
ghost use Rattle.lv_system.specs.declared.parts.Parts.{Parts};
ghost use Rattle.lv_temporal.specs.Samples.{link_atom, link_label, links, node, without_links};
ghost use Rattle.lv_temporal.specs.Small.{IsBroken, small, small_loop, small_stem, unhelped};
ghost use Rattle.lv_temporal.specs.TrueLabels.{TrueLabels};
ghost use Rattle.lv_temporal.specs.Walk.{Walks};
ghost use Rattle.std.specs.Prelude.{◌≡◌, ℕ, Bool, ◌∷◌, [], false, true, ◌+◌, ◌*◌, length};

/// A lasso run of a system that violates the property, unrolled to any length, with a witness chosen for each
/// witness formula and with the true table of each label at each position, is a labelled run of the negated
/// property. Each turn of a fair loop is a round of the unrolled run, whether the property is violated or not.
pub fn true_labels()
    ensures { (p : Parts) → fits_parts p ≡ true → TrueLabels p }
{}

/// A worked example: `links` fits. The two `always` parts of its property, that X stays linked to Y and that Y stays
/// linked to X, differ only in the names of variables. So they have one label, and are read as two atoms of it.
pub fn two_parts_with_one_label()
    ensures fits { fits_parts links ≡ true }
    ensures labels { labels_of links ≡ link_label ∷ [] }
    ensures reading { reading (labels_of links) [] links.property ≡ make.All node (make.All node (make.Or (link_atom 1 0 ∷ link_atom 0 1 ∷ []))) }
{}

/// A run to which the law applies: where two nodes stay without links, that is a lasso run of `links` whose loop is
/// fair, and it violates the property.
pub fn a_run_that_violates()
    ensures run { IsLassoRun links (lasso_of [] (without_links ∷ [])) }
    ensures fair { IsFair links (lasso_of [] (without_links ∷ [])) }
    ensures violated { holds (lasso_of [] (without_links ∷ [])) (λ k. 0) links.property 0 [] ≡ false }
{}

/// The label table that is made for a system has the labels of its problem, and with the conditions of fairness its justice
/// conditions.
pub fn label_table()
    ensures { (p : Parts) → AreRowsOfProblem p }
{}

/// Where the starts and the steps are valid, the monitor can walk along each labelled run: it freezes at the end of a first
/// round and saves at the end of a second, as far as the run gets, and the invariants hold at each position.
pub fn walk()
    ensures { (p : Parts) → fits_parts p ≡ true → InvariantsFit p → IsInductive p → Walks (problem_of p) }
{}

/// The projections of structures to a set of elements can be numbered: each has a number below the number of valuations of the
/// set, and structures have one number exactly where they have one projection. On a labelled run the elements touched at a
/// position, with the constants, are such a set. And a monitored structure looks as it was saved where its state and its copies
/// have one projection to the kept elements.
pub fn projections()
    ensures numbering { (q : Problem) (set : SortId → ℕ → Bool) (size : SortId → ℕ) → IsWithin size set → Numbering q set size }
    ensures within { (p : Parts) → fits_parts p ≡ true → InvariantsFit p → RunsAreWithin (problem_of p) }
    ensures copies { (q : Problem) (m : Meaning) → LooksAsCopied q m }
{}

/// Where every obligation is valid, the property holds on each fair lasso run, of structures of any sizes; and no labelled
/// run has, after a first round, more rounds than the elements touched at its end have valuations.
pub fn sound()
    ensures meets { (p : Parts) → fits_parts p ≡ true → InvariantsFit p → AreValid p → Meets p }
    ensures bounded { (p : Parts) → fits_parts p ≡ true → InvariantsFit p → AreValid p → Bounded p }
{}

/// There is one obligation for the start of each invariant, one for each action, move and invariant, and one for the catch.
pub fn number_of_obligations()
    ensures { (p : Parts) → length (obligations_of p) ≡ length p.invariants + length p.actions * (3 * length p.invariants) + 1 }
{}

/// The definitions can be met: the small system fits, all of its nine obligations are valid, it has a fair lasso run, and so its
/// property holds on each of them.
pub fn small_system()
    ensures fits { fits_parts small ≡ true }
    ensures invariants { InvariantsFit small }
    ensures obligations { length (obligations_of small) ≡ 9 }
    ensures valid { AreValid small }
    ensures run { IsLassoRun small (lasso_of small_stem small_loop) }
    ensures fair { IsFair small (lasso_of small_stem small_loop) }
    ensures meets { Meets small }
{}

/// An obligation can be broken: without its first invariant, the small system has a structure in which the action breaks the
/// other one.
pub fn missing_invariant()
    ensures { IsBroken unhelped (W.Step 0 M.Stay 0) }
{}
