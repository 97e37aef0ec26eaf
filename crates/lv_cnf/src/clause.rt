ghost use Rattle.std.specs.Prelude.{◌≡◌, IfOk, IsTrue, ◌↔◌};
ghost use Rattle.std.specs.List.{All};
ghost use Rattle.lv_cnf.specs.Literals.{InRange};

use crate::list::List;
use crate::literal::Lit;
use crate::memory::Memory;
use smallvec::SmallVec;
use std::alloc::Global;
use std::marker::Model;

/// A list of literals: "one of these is true". Contracts see it as that list.
///
/// A literal may stand in it twice, and beside its negation.
#[derive(Debug, Drop)]
pub struct Clause {
    lits: SmallVec<Lit, 4>,
}

impl Model for Clause {
    ghost use Rattle.std.specs.Prelude.{List as Seq};
    ghost use Rattle.lv_cnf.specs.declared.literal.Lit.{Lit};

    ghost Value = { Seq Lit };

    ghost view = { λ a. a.lits.items };
}

impl Clause {
    /// The clause of these literals, in this order. The only error is want of memory.
    pub fn of(alloc: Global, lits: &[Lit]) -> Result<Clause, Memory>
        ensures { IfOk result (λ c. c ≡ lits.now) }
    {
        Ok(Clause {
            lits: SmallVec::from_slice(alloc, lits)?,
        })
    }

    /// The literals in order. It takes no memory.
    pub fn as_slice(&self) -> &[Lit]
        ensures { result.now ≡ self.now }
    {
        self.lits.as_slice()
    }
}

/// Clauses over the variables below `vars`.
#[derive(Debug, Drop)]
pub struct Clauses {
    /// The number of variables.
    pub vars: u32,
    /// The clauses in order.
    pub list: List<Clause>,
}

/// The clauses that a search has learned, in order.
pub type Log = List<Clause>;

/// A truth value for each variable, by its number.
pub type Assignment = List<bool>;

/// Whether each variable of the clause is below `vars`.
pub fn in_range(vars: u32, clause: &[Lit]) -> bool
    ensures { IsTrue result ↔ InRange vars clause.now }
{
    clause.iter().all(|lit| lit.var < vars)
}

/// Whether each variable of each clause is below `vars`.
pub fn all_in_range(vars: u32, clauses: &[Clause]) -> bool
    ensures { IsTrue result ↔ All (InRange vars) clauses.now }
{
    clauses
        .iter()
        .all(|clause| in_range(vars, clause.as_slice()))
}
