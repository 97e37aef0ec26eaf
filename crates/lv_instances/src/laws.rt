//! What holds of all ground forms: each law is the contract of a function that does nothing.

ghost use Rattle.lv_instances.specs.Laws.{StructuresGiveAssignments, GroundFormsAreSmall};

/// Where a structure breaks a pair of hypotheses and conclusion, its ground clauses can be satisfied.
pub fn structures_give_assignments()
    ensures { StructuresGiveAssignments }
{}

/// The clauses of a ground form have at most three times as many variables as its size says.
pub fn ground_forms_are_small()
    ensures { GroundFormsAreSmall }
{}
