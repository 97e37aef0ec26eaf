//! A visit to one clause, one of whose watched literals came out false. Its literals are only put into another order, so
//! that it watches two others, or the same two. Each place of it is read at most once.

ghost use Rattle.std.specs.Prelude.{◌≡◌, ◌+◌, ◌<◌, ◌≤◌, ◌⊎◌, [], length, slice_index_or, slice_set};
ghost use Rattle.lv_cnf.specs.Literals.{InRange};
ghost use Rattle.lv_cnf.specs.Packed.{at, clause_at};
ghost use Rattle.lv_watch.specs.Visit.{Turns, ReplacementIs, IsFalse, VisitIs};

use crate::trail::{Trail, Truth};
use lv_cnf::{Lit, Packed, Steps};
use std::sync::ledger::Ledger;

/// Brings the watched literal `gone` to place 1, and gives the other one.
pub fn turn<L: Ledger>(packed: &mut Packed, clause: usize, gone: Lit, steps: &mut Steps<L>) -> Lit
    requires clause { clause < length packed.old }
    requires two { 2 ≤ length (clause_at packed.old clause) }
    requires watched { (at (clause_at packed.old clause) 0 ≡ gone) ⊎ (at (clause_at packed.old clause) 1 ≡ gone) }
    ensures turned { Turns packed.old packed.new clause gone }
    ensures other { result ≡ at (clause_at packed.new clause) 0 }
    ensures cost { steps.new ≤ steps.old + 2 }
{
    let first = packed.literal(clause, 0, steps);
    if first == gone {
        packed.swap(clause, 0, 1);
        packed.literal(clause, 0, steps)
    } else {
        first
    }
}

/// A place from 2 on whose literal is not false, with that literal.
pub fn replacement<L: Ledger>(
    packed: &Packed,
    clause: usize,
    trail: &Trail,
    steps: &mut Steps<L>,
) -> Option<(usize, Lit)>
    requires clause { clause < length packed.now }
    requires two { 2 ≤ length (clause_at packed.now clause) }
    requires range { InRange (length trail.now.values.items) (clause_at packed.now clause) }
    ensures found { ReplacementIs trail.now.values.items (clause_at packed.now clause) result }
    ensures cost { steps.new + 2 ≤ steps.old + length (clause_at packed.now clause) }
{
    for place in 2..packed.len(clause) {
        let lit = packed.literal(clause, place, steps);
        if trail.truth_of(lit) != Truth::Fails {
            return Some((place, lit));
        }
    }
    None
}

/// What became of a clause whose watched literal came out false.
#[derive(Clone, Copy, Drop)]
pub enum Visit {
    /// It still watches that literal, and the other one holds.
    Kept,
    /// It watches this literal in place of the false one.
    Moved(Lit),
    /// All its literals but this one are false, and this one has no value yet.
    Unit(Lit),
    /// All its literals are false.
    Conflict,
}

/// Visits a clause whose watched literal `gone` came out false.
pub fn visit_clause<L: Ledger>(
    packed: &mut Packed,
    clause: usize,
    gone: Lit,
    trail: &Trail,
    steps: &mut Steps<L>,
) -> Visit
    requires clause { clause < length packed.old }
    requires two { 2 ≤ length (clause_at packed.old clause) }
    requires watched { (at (clause_at packed.old clause) 0 ≡ gone) ⊎ (at (clause_at packed.old clause) 1 ≡ gone) }
    requires range { InRange (length trail.now.values.items) (clause_at packed.old clause) }
    requires gone { IsFalse trail.now.values.items gone }
    ensures visited { VisitIs packed.old packed.new trail.now.values.items clause gone result }
    ensures cost { steps.new ≤ steps.old + length (clause_at packed.old clause) }
{
    let other = turn(packed, clause, gone, steps);
    let says = trail.truth_of(other);
    if says == Truth::Holds {
        return Visit::Kept;
    }
    match replacement(packed, clause, trail, steps) {
        Some((place, lit)) => {
            packed.swap(clause, 1, place);
            Visit::Moved(lit)
        }
        None => {
            if says == Truth::Undecided {
                Visit::Unit(other)
            } else {
                Visit::Conflict
            }
        }
    }
}
