//! What follows from the definitions of steps.
//!
//! Each function here does nothing: it stands for the law that its contract states.
ghost use Rattle.std.specs.Prelude.{ℕ, List};
ghost use Rattle.lv_formula.specs.Meaning.{Meaning};
ghost use Rattle.lv_system.specs.declared.parts.Action.{Action};
ghost use Rattle.lv_system.specs.declared.parts.Parts.{Parts};
ghost use Rattle.lv_system.specs.Step.{IsPerformed, performed};

/// What is performed is a step: the next structure of a run may be exactly what the action makes of the one before.
pub fn performed_is_a_step()
    ensures { (p : Parts) (a : Action) (elements : List ℕ) (m : Meaning) → IsPerformed p a elements m (performed p a elements m) }
{}
