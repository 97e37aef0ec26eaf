//! The packed clauses. Clauses are numbered in the order in which they were added, and a clause's literals are
//! numbered by their places. The number of a clause, its length and the literals that it has never change; only
//! their order does.

ghost use Rattle.std.specs.Prelude.{◌≡◌, ◌+◌, ◌<◌, [], ◌∷◌, ◌++◌, length, slice_set, IfOk, OnErr};
ghost use Rattle.std.specs.List.{swap};
ghost use Rattle.lv_cnf.specs.Packed.{at, clause_at};

use crate::literal::Lit;
use crate::memory::Memory;
use crate::steps::Steps;
use smallvec::SmallVec;
use std::alloc::Global;
use std::marker::Model;
use std::sync::ledger::Ledger;

/// The literals of one clause: short ones take no memory of their own.
#[derive(Drop)]
struct Row {
    lits: SmallVec<Lit, 4>,
}

impl Model for Row {
    ghost use Rattle.std.specs.Prelude.{List as Seq};
    ghost use Rattle.lv_cnf.specs.declared.literal.Lit.{Lit};

    ghost Value = { Seq Lit };

    ghost view = { λ a. a.lits.items };
}

/// Clauses whose literals are seen only by counted reads. Contracts see them as a list of clauses.
#[derive(Drop)]
pub struct Packed {
    alloc: Global,
    rows: Vec<Row>,
}

impl Model for Packed {
    ghost use Rattle.std.specs.Prelude.{List as Seq};
    ghost use Rattle.lv_cnf.specs.declared.literal.Lit.{Lit};

    ghost Value = { Seq (Seq Lit) };

    ghost view = { λ a. a.rows.items };
}

impl Packed {
    /// No clause. It takes no memory.
    pub fn new(alloc: Global) -> Packed
        ensures { result ≡ [] }
    {
        Packed {
            alloc,
            rows: Vec::new(alloc),
        }
    }

    /// Adds a clause at the end, and gives its number. The only error is want of memory, and then the
    /// clauses are as they were.
    pub fn push(&mut self, lits: &[Lit]) -> Result<usize, Memory>
        ensures clauses { IfOk result (λ place. self.new ≡ self.old ++ lits.now ∷ []) }
        ensures place { IfOk result (λ place. place ≡ length self.old) }
        ensures err { OnErr result (self.new ≡ self.old) }
    {
        let place = self.rows.len();
        let row = Row {
            lits: SmallVec::from_slice(self.alloc, lits)?,
        };
        self.rows.push(row)?;
        Ok(place)
    }

    /// The length of a clause. It takes no memory.
    pub fn len(&self, clause: usize) -> usize
        requires { clause < length self.now }
        ensures { result ≡ length (clause_at self.now clause) }
    {
        self.rows[clause].lits.as_slice().len()
    }

    /// Exchanges two places of a clause. It takes no memory.
    pub fn swap(&mut self, clause: usize, a: usize, b: usize)
        requires clause { clause < length self.old }
        requires a { a < length (clause_at self.old clause) }
        requires b { b < length (clause_at self.old clause) }
        ensures { self.new ≡ slice_set self.old clause (swap (clause_at self.old clause) a b) }
    {
        self.rows[clause].lits.as_mut_slice().swap(a, b);
    }

    /// The literal at a place of a clause. No other call shows a literal. It counts one step, and takes no
    /// memory.
    pub fn literal<L: Ledger>(&self, clause: usize, place: usize, steps: &mut Steps<L>) -> Lit
        requires clause { clause < length self.now }
        requires place { place < length (clause_at self.now clause) }
        ensures value { result ≡ at (clause_at self.now clause) place }
        ensures steps { steps.new ≡ steps.old + 1 }
    {
        steps.tick();
        self.rows[clause].lits.as_slice()[place]
    }
}
