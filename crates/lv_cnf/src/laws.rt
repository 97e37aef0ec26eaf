//! What holds of clauses and logs, whatever they are: each law is the contract of a function that does
//! nothing.

ghost use Rattle.lv_cnf.specs.Laws.{NodesExtendAssignments, SolutionsSatisfyRoots};
ghost use Rattle.lv_cnf.specs.Laws.{LogClausesDiffer, LogClausesAreNoTautologies, LogsAreShort};

/// An assignment that satisfies roots and equalities can be extended to the nodes of the roots, so that
/// it satisfies their clauses.
pub fn nodes_extend_assignments()
    ensures { NodesExtendAssignments }
{}

/// An assignment that satisfies the clauses of roots and equalities satisfies the roots and equalities.
pub fn solutions_satisfy_roots()
    ensures { SolutionsSatisfyRoots }
{}

/// No two clauses of a spent log have the same literals.
pub fn log_clauses_differ()
    ensures { LogClausesDiffer }
{}

/// No clause of a spent log has a literal beside its negation.
pub fn log_clauses_are_no_tautologies()
    ensures { LogClausesAreNoTautologies }
{}

/// A spent log over `n` variables has fewer than `3 ^ n` clauses.
pub fn logs_are_short()
    ensures { LogsAreShort }
{}
