//! The state of propagation: packed clauses with their watches, under a trail of which so much is propagated. Where one
//! watched literal of a clause is false by a propagated literal, the other holds. So once all of the trail is propagated, each
//! clause has a literal that holds or two that are undecided. When decisions are taken back, all that is left is propagated.
//!
//! What is propagated pays for the literals that are read: a clause of `n` literals has paid `n` for each of its literals that a
//! propagated literal made false. No clause pays more than the square of its length.

ghost use Rattle.std.specs.Prelude.{◌≡◌, ◌<◌, ◌^◌, ◌++◌, ◌∷◌, [], length, true, None, IfOk, OnOk};
ghost use Rattle.std.specs.List.{All, IsDistinct};
ghost use Rattle.lv_cnf.specs.Literals.{InRange};
ghost use Rattle.lv_cnf.specs.Packed.{at};
ghost use Rattle.lv_watch.specs.Lists.{Permutes, IsIndex, same_lit};
ghost use Rattle.lv_watch.specs.Trail.{Lengthens, HasStart};
ghost use Rattle.lv_watch.specs.Values.{value, held};
ghost use Rattle.lv_watch.specs.Watching.{IsWatching};
ghost use Rattle.lv_propagate.specs.State.{IsState, EndsIn, CostIs, Decides, Asserts, IsFresh, Adds, Loads};

use crate::repeats::without_repeats;
use lv_cnf::{Clause, Lit, Memory, Packed, Steps};
use lv_watch::{Trail, Truth, Watches, walk_watches};
use std::alloc::Global;
use std::sync::ledger::Ledger;

/// Clauses under propagation.
#[derive(Drop)]
pub struct State {
    /// The clauses.
    pub packed: Packed,
    /// The watch list of each literal.
    pub watches: Watches,
    /// The literals that hold.
    pub trail: Trail,
    /// How many literals of the trail are propagated.
    pub head: usize,
}

impl State {
    /// No clause yet, and no value for any variable below `vars`. The only error is want of memory.
    pub fn new(alloc: Global, vars: usize) -> Result<State, Memory>
        ensures state { IfOk result IsState }
        ensures fresh { IfOk result IsFresh }
        ensures none { IfOk result (λ s. s.packed ≡ []) }
        ensures size { IfOk result (λ s. length s.trail.values.items ≡ vars) }
    {
        Ok(State {
            packed: Packed::new(alloc),
            watches: Watches::new(alloc, vars)?,
            trail: Trail::new(alloc, vars)?,
            head: 0,
        })
    }

    /// Adds a clause, which watches its first two literals, and gives its number.
    fn attach(&mut self, lits: &[Lit]) -> Result<usize, Memory>
        requires index { IsIndex (length self.old.trail.values.items) self.old.packed self.old.watches }
        requires range { InRange (length self.old.trail.values.items) lits.now }
        requires distinct { IsDistinct same_lit lits.now }
        ensures index { OnOk result (IsIndex (length self.old.trail.values.items) self.new.packed self.new.watches) }
        ensures clauses { OnOk result (self.new.packed ≡ self.old.packed ++ lits.now ∷ []) }
        ensures place { IfOk result (λ place. place ≡ length self.old.packed) }
        ensures trail { self.new.trail ≡ self.old.trail }
        ensures head { self.new.head ≡ self.old.head }
    {
        let clause = self.packed.push(lits)?;
        if lits.len() >= 2 {
            self.watches.add(lits[0], clause)?;
            self.watches.add(lits[1], clause)?;
        }
        Ok(clause)
    }

    /// Adds a clause while there is no decision, and makes its literal true if it has but one. Says whether a
    /// literal of it may still be true.
    fn add(&mut self, lits: &[Lit]) -> Result<bool, Memory>
        requires state { IsState self.old }
        requires fresh { IsFresh self.old }
        requires range { InRange (length self.old.trail.values.items) lits.now }
        requires distinct { IsDistinct same_lit lits.now }
        ensures { IfOk result (Adds self.old self.new lits.now) }
    {
        let clause = self.attach(lits)?;
        if lits.is_empty() {
            return Ok(false);
        }
        if lits.len() == 1 {
            match self.trail.truth_of(lits[0]) {
                Truth::Holds => {}
                Truth::Fails => return Ok(false),
                Truth::Undecided => self.trail.assign(lits[0], Some(clause))?,
            }
        }
        Ok(true)
    }

    /// Adds the first clauses: each without repeated literals, and none that has a literal beside its negation. Says
    /// whether none is false; else no assignment satisfies them. The only error is want of memory.
    pub fn load(&mut self, alloc: Global, clauses: &[Clause]) -> Result<bool, Memory>
        requires state { IsState self.old }
        requires fresh { IsFresh self.old }
        requires none { self.old.packed ≡ [] }
        requires range { All (InRange (length self.old.trail.values.items)) clauses.now }
        ensures loads { IfOk result (Loads self.new clauses.now) }
        ensures size { OnOk result (length self.new.trail.values.items ≡ length self.old.trail.values.items) }
    {
        for clause in clauses {
            match without_repeats(alloc, clause.as_slice())? {
                None => {}
                Some(lits) => {
                    let added = self.add(lits.as_slice())?;
                    if !added {
                        return Ok(false);
                    }
                }
            }
        }
        Ok(true)
    }

    /// Propagates until nothing is left, or until a clause is false: a conflict, which it gives. The only error is
    /// want of memory.
    pub fn propagate<L: Ledger>(
        &mut self,
        alloc: Global,
        steps: &mut Steps<L>,
    ) -> Result<Option<usize>, Memory>
        requires { IsState self.old }
        ensures watching { OnOk result (IsWatching self.new.packed self.new.watches self.new.trail) }
        ensures ends { IfOk result (EndsIn self.new) }
        ensures permutes { OnOk result (Permutes self.old.packed self.new.packed) }
        ensures longer { OnOk result (Lengthens self.old.trail self.new.trail) }
        ensures cost { IfOk result (CostIs self.old self.new steps.old steps.new) }
    {
        while self.head < self.trail.len() {
            let gone = self.trail.lit_at(self.head).negated();
            match walk_watches(
                alloc,
                &mut self.packed,
                &mut self.watches,
                &mut self.trail,
                gone,
                steps,
            )? {
                Some(conflict) => return Ok(Some(conflict)),
                None => self.head += 1,
            }
        }
        Ok(None)
    }

    /// Decides that a variable is false. That begins a level. The only error is want of memory.
    pub fn decide(&mut self, var: usize) -> Result<(), Memory>
        requires state { IsState self.old }
        requires done { self.old.head ≡ length self.old.trail.lits.items }
        requires var { var < length self.old.trail.values.items }
        requires small { length self.old.trail.values.items < 2 ^ 32 }
        requires free { value self.old.trail.values.items var ≡ None }
        ensures { OnOk result (Decides self.old self.new var) }
    {
        let start = self.trail.len();
        self.trail.starts.push(start)?;
        self.trail.assign(Lit::negative(var as u32), None)?;
        Ok(())
    }

    /// Jumps back over the levels that start at `bound` or later, adds a learned clause, and makes its first literal
    /// true, for which this clause is the reason. The only error is want of memory.
    pub fn add_learned(&mut self, lits: &[Lit], bound: usize) -> Result<(), Memory>
        requires watching { IsWatching self.old.packed self.old.watches self.old.trail }
        requires start { HasStart self.old.trail.starts.items bound }
        requires asserts { Asserts self.old.trail lits.now bound }
        ensures state { OnOk result (IsState self.new) }
        ensures clauses { OnOk result (self.new.packed ≡ self.old.packed ++ lits.now ∷ []) }
        ensures holds { OnOk result (held self.new.trail.values.items (at lits.now 0) ≡ true) }
        ensures size { OnOk result (length self.new.trail.values.items ≡ length self.old.trail.values.items) }
    {
        self.trail.backjump(bound);
        self.head = self.trail.len();
        let clause = self.attach(lits)?;
        self.trail.assign(lits[0], Some(clause))?;
        Ok(())
    }
}
