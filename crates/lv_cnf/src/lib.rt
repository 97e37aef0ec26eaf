//! Propositional clauses.
//!
//! - A variable is a number, from 0. A literal is a variable or its negation.
//! - A clause is a list of literals, and it is true where one of them is. The empty clause is false.
//! - An assignment gives each variable a truth value. It satisfies clauses where each of them is true.
//! - A proposition is built from literals by any number of "and" and "or". [`to_clauses`] turns
//!   propositions into clauses that can be satisfied exactly where they can.
//!
//! A solver's time goes into reading literals. Here that is a number that contracts can speak of: a literal of a
//! [`Packed`] clause is shown by one call alone, and that call counts one of the [`Steps`].
//!
//! What a solver's answers say is defined here too, for the crates that solve: a satisfying assignment,
//! clauses that no assignment satisfies, and the log of a search that was given up.
#![tactic(auto)]

mod clause;
mod convert;
pub mod laws;
mod list;
mod literal;
mod memory;
mod packed;
mod prop;
mod steps;

pub use clause::{Assignment, Clause, Clauses, Log, all_in_range, in_range};
pub use convert::to_clauses;
pub use list::List;
pub use literal::Lit;
pub use memory::Memory;
pub use packed::Packed;
pub use prop::{Prop, atoms_below, variables};
pub use steps::Steps;
