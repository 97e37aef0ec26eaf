//! Unit propagation: the clauses of a search with their watches, and the trail, as one state.
//!
//! Where all literals of a clause but one are false, that one is forced. The state makes forced literals true until none is left
//! or a clause is false, takes decisions, and takes learned clauses over once it has jumped back far enough that their first
//! literal is forced.
#![tactic(auto)]

mod repeats;
mod state;

pub use state::State;
