//! A solver for propositional clauses that learns from conflicts, with two watched literals.
//!
//! The solver gives variables values by unit propagation: where all literals of a clause but one are
//! false, that one is made true. Each clause watches two of its literals, and is looked at only when one of
//! them comes out false. Where nothing is left to propagate the solver decides a variable.
//!
//! Where a clause comes out false, that is a conflict. The literals that made it false are traced back to the
//! clauses that forced them, until one literal is left of those that came with the last decision or after it:
//! the first unique implication point. The learned clause says that this literal or one of the earlier
//! ones is false. The decisions after the latest of the earlier ones are taken back, and the last
//! literal of the learned clause is true then. A conflict without decisions shows that no assignment satisfies the
//! clauses, and values for all variables without a conflict are a satisfying assignment. The search
//! is given up once so many clauses are learned as the caller allows.
//!
//! Nothing is restarted, and no learned clause is dropped. The clauses are packed, and each literal that is read of a packed
//! clause counts one step.
#![tactic(auto)]

mod analysis;
mod search;
mod solver;

pub use solver::{Ending, Solved, Verdict, solve, solve_logged};
