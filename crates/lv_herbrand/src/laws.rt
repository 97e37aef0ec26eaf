//! What holds of all sentences and their ground clauses: the law is the contract of a function that does nothing.

ghost use Rattle.lv_herbrand.specs.Laws.{GroundClausesAreExact};

/// The ground clauses of a pair of hypotheses and conclusion, whose sort graph has no cycle, can be satisfied exactly
/// where some structure breaks the pair. So no structure of any size breaks it where they can't.
pub fn ground_clauses_are_exact()
    ensures { GroundClausesAreExact }
{}
