//! The analysis of a conflict. Places of the trail are marked so that what is marked, with what stands below the first decision,
//! makes some clause false however the rest of the trail is: at first the literals of the clause that is false. The latest marked
//! literal is resolved away: its mark gives way to those of the other literals of its reason. This ends at the first unique
//! implication point, where one mark is left from the last decision on. The learned clause says that one of the
//! marked literals is false.
//!
//! Level 0 holds whatever is decided, so nothing of it is marked. Each clause is read at most once: it is the reason of one place.

ghost use Rattle.std.specs.Prelude.{◌≡◌, ℕ, List, [], ◌∷◌, ◌++◌, ◌<◌, ◌≤◌, ◌+◌, length, slice_set, replicate, true, false, IfOk, OnOk};
ghost use Rattle.std.specs.List.{All};
ghost use Rattle.lv_cnf.specs.declared.literal.Lit.{Lit};
ghost use Rattle.lv_cnf.specs.Literals.{negated, InRange};
ghost use Rattle.lv_cnf.specs.Packed.{at, clause_at};
ghost use Rattle.lv_watch.specs.Lists.{lengths_at};
ghost use Rattle.lv_watch.specs.Trail.{HasTrail};
ghost use Rattle.lv_propagate.specs.Potential.{squares};
ghost use Rattle.lv_propagate.specs.State.{IsConflict};
ghost use Rattle.lv_sat.specs.Analysis.{mark_at, Begins, MarksPlace, Marks, IsOfTrail, IsMarking, Refutes, marked, reasons, Resolves};
ghost use Rattle.lv_sat.specs.Analysis.{LearnedIs, SettlesAtStarts, number_of};

use lv_cnf::{Clause, Lit, Memory, Packed, Steps};
use lv_watch::Trail;
use std::alloc::Global;
use std::sync::ledger::Ledger;

/// What a conflict rests on: marked places of the trail.
#[derive(Drop)]
pub struct Analysis {
    /// For each place of the trail, whether it is marked.
    pub marks: Vec<bool>,
    /// The first decision's place. What stands below it holds whatever is decided, and is not marked.
    pub first: usize,
    /// The last decision's place.
    pub start: usize,
    /// The lowest marked place from there on; past the end where there is none.
    pub lowest: usize,
}

/// A learned clause, and how far to jump back.
#[derive(Drop)]
pub struct Learned {
    /// Its literals but the last. They are false, and the first became false latest.
    pub others: Vec<Lit>,
    /// Its last literal, which is forced after the jump.
    pub asserted: Lit,
    /// The place after the one that makes the first of the others false; 0 where there is none. The levels that start there
    /// or later are to be taken back.
    pub bound: usize,
}

impl Learned {
    /// The clause as the log has it: the literal that is forced next stands at the end.
    pub fn log_clause(&self, alloc: Global) -> Result<Clause, Memory>
        ensures { IfOk result (λ c. c ≡ self.now.others.items ++ self.now.asserted ∷ []) }
    {
        let mut lits = self.others.clone()?;
        lits.push(self.asserted)?;
        Clause::of(alloc, lits.as_slice())
    }

    /// The literals as they are watched: the one that is forced next, and then those that became false, latest first.
    pub fn into_watched(self) -> Result<Vec<Lit>, Memory>
        ensures { IfOk result (λ v. v.items ≡ self.asserted ∷ self.others.items) }
    {
        let asserted = self.asserted;
        let mut lits = self.others;
        lits.insert(0, asserted)?;
        Ok(lits)
    }
}

impl Analysis {
    /// Nothing is marked yet.
    fn new(alloc: Global, trail: &Trail) -> Result<Analysis, Memory>
        requires { 0 < length trail.now.starts.items }
        ensures { IfOk result (Begins trail.now) }
    {
        let end = trail.len();
        let starts = trail.starts.as_slice();
        let unmarked = false;
        Ok(Analysis {
            marks: Vec::from_elem(alloc, unmarked, end)?,
            first: starts[0],
            start: starts[starts.len() - 1],
            lowest: end,
        })
    }

    /// Whether a place is marked.
    fn is_marked(&self, place: usize) -> bool
        requires { place < length self.now.marks.items }
        ensures { result ≡ mark_at self.now.marks.items place }
    {
        self.marks[place]
    }

    /// Marks a place of the trail, unless it is below the first decision's.
    fn mark(&mut self, place: usize)
        requires { place < length self.old.marks.items }
        ensures { MarksPlace self.old self.new place }
    {
        if self.first <= place {
            self.marks[place] = true;
            if self.start <= place && place < self.lowest {
                self.lowest = place;
            }
        }
    }

    /// Marks what makes the false literals of a clause false.
    fn mark_clause<L: Ledger>(
        &mut self,
        packed: &Packed,
        clause: usize,
        trail: &Trail,
        steps: &mut Steps<L>,
    )
        requires watching { IsOfTrail packed.now trail.now self.old }
        requires clause { clause < length packed.now }
        ensures marks { Marks self.old self.new trail.now (clause_at packed.now clause) }
        ensures cost { steps.new ≤ steps.old + length (clause_at packed.now clause) }
    {
        for place in 0..packed.len(clause) {
            let lit = packed.literal(clause, place, steps);
            match trail.false_place(lit) {
                Some(false_at) => self.mark(false_at),
                None => {}
            }
        }
    }

    /// Resolves the marked literals from the end of the trail down, until one is left from the last decision's
    /// place on.
    fn resolve<L: Ledger>(&mut self, packed: &Packed, trail: &Trail, steps: &mut Steps<L>)
        requires of_trail { IsOfTrail packed.now trail.now self.old }
        requires marking { IsMarking self.old }
        requires lowest { self.old.lowest < length trail.now.lits.items }
        requires refutes { Refutes packed.now (marked trail.now.values.items self.old.marks.items (length trail.now.lits.items)) }
        ensures resolves { Resolves packed.now trail.now self.new }
        ensures cost { steps.new ≤ steps.old + lengths_at packed.now (reasons trail.now.values.items trail.now.lits.items) }
    {
        let mut place = self.marks.len() - 1;
        while self.lowest < place {
            if self.is_marked(place) {
                match trail.reason_at(place) {
                    Some(clause) => self.mark_clause(packed, clause, trail, steps),
                    None => {}
                }
            }
            place -= 1;
        }
    }

    /// The clause that one of the marked literals is false.
    fn learned(&self, alloc: Global, trail: &Trail) -> Result<Learned, Memory>
        requires { (clauses : List (List Lit)) × Resolves clauses trail.now self.now }
        ensures { (clauses : List (List Lit)) → Resolves clauses trail.now self.now → IfOk result (LearnedIs clauses trail.now) }
    {
        let mut others = Vec::new(alloc);
        let mut bound = 0;
        let mut place = self.start;
        while self.first < place {
            place -= 1;
            if self.is_marked(place) {
                others.push(trail.lit_at(place).negated())?;
                bound = first_of(bound, place + 1);
            }
        }
        Ok(Learned {
            others,
            asserted: trail.lit_at(self.lowest).negated(),
            bound,
        })
    }
}

/// The first number unless it is 0, and else the second.
fn first_of(bound: usize, other: usize) -> usize
    ensures { result ≡ number_of bound other }
{
    if bound == 0 { other } else { bound }
}

/// The clause to be learned from a conflict under some decision. The only error is want of memory.
///
/// It reads at most as many literals as the squares of the clauses' lengths come to.
pub fn analyse<L: Ledger>(
    alloc: Global,
    packed: &Packed,
    trail: &Trail,
    conflict: usize,
    steps: &mut Steps<L>,
) -> Result<Learned, Memory>
    requires sound { HasTrail packed.now trail.now }
    requires range { All (InRange (length trail.now.values.items)) packed.now }
    requires decided { 0 < length trail.now.starts.items }
    requires settled { SettlesAtStarts packed.now trail.now }
    requires conflict { IsConflict packed.now trail.now conflict }
    ensures learned { IfOk result (LearnedIs packed.now trail.now) }
    ensures cost { OnOk result (steps.new ≤ steps.old + squares packed.now) }
{
    let mut analysis = Analysis::new(alloc, trail)?;
    analysis.mark_clause(packed, conflict, trail, steps);
    analysis.resolve(packed, trail, steps);
    let learned = analysis.learned(alloc, trail)?;
    Ok(learned)
}
