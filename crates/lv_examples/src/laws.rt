//! What holds of a system over a sort with a parameter, a witness and a changing constant.
//!
//! Each function here does nothing: it stands for the law that its contract states.
ghost use Rattle.lv_examples.specs.Visits.{moved_outside, two_moves, unguarded, visits};
ghost use Rattle.lv_formula.specs.declared.symbols.Sym.TheVariants as symbol;
ghost use Rattle.lv_labels.specs.Monitor.{is_kept};
ghost use Rattle.lv_labels.specs.Obligations.{AreValid, BreaksCatch, InvariantsFit, obligations_of};
ghost use Rattle.lv_labels.specs.Problem.{problem_of};
ghost use Rattle.lv_labels.specs.Rounds.{AreRounds};
ghost use Rattle.lv_labels.specs.Runs.{IsLabelledRun};
ghost use Rattle.lv_labels.specs.declared.which.Which.TheVariants as W;
ghost use Rattle.lv_system.specs.Fits.{fits_parts};
ghost use Rattle.lv_system.specs.Lasso.{Meets};
ghost use Rattle.lv_temporal.specs.Samples.{node};
ghost use Rattle.lv_temporal.specs.Small.{IsBroken};
ghost use Rattle.std.specs.Prelude.{◌≡◌, ◌≢◌, false, true, [], ◌∷◌, length};

/// The definitions can be met over a sort too: a system with a parameter, a witness and a changing constant fits, all of its
/// seventeen obligations are valid, and it has a labelled run in which a round follows a first one, after which the monitor
/// freezes.
pub fn system_over_a_sort()
    ensures fits { fits_parts visits ≡ true }
    ensures invariants { InvariantsFit visits }
    ensures obligations { length (obligations_of visits) ≡ 17 }
    ensures valid { AreValid visits }
    ensures run { IsLabelledRun (problem_of visits) two_moves }
    ensures rounds { AreRounds (problem_of visits) two_moves 0 (1 ∷ 2 ∷ []) }
    ensures meets { Meets visits }
{}

/// What lies outside the kept elements isn't told apart: with the first two of its invariants alone the same system has a
/// caught structure in which the constant isn't where it was saved, and was and is at elements that aren't kept.
pub fn moved_outside_what_is_kept()
    ensures broken { IsBroken unguarded W.Catch }
    ensures caught { BreaksCatch (problem_of unguarded) moved_outside }
    ensures moved { moved_outside.value (symbol.Own 0) ≢ moved_outside.value (symbol.Copy 0) }
    ensures is_outside { is_kept moved_outside node (moved_outside.value (symbol.Own 0)) ≡ false }
    ensures was_outside { is_kept moved_outside node (moved_outside.value (symbol.Copy 0)) ≡ false }
{}
