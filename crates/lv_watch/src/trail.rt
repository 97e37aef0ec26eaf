//! The trail. Its literals are just those that hold, each once, and the value of a variable says at which place of
//! the trail its literal stands. Each literal is a decision, or its reason is a clause that has it and whose other
//! literals are false by earlier places. The decisions' places rise: each begins a level, and what stands before the
//! first is level 0. Where a place is known no level need be kept, since a literal's level is the number of
//! decisions up to its place.

ghost use Rattle.std.specs.Prelude.{◌≡◌, ◌+◌, ◌<◌, ◌≤◌, [], ◌∷◌, ◌++◌, length, slice_set, replicate, map, take, IfOk, OnOk, Some, None};
ghost use Rattle.lv_cnf.specs.Packed.{at};
ghost use Rattle.lv_watch.specs.Values.{TruthIs, value, keeps, reason_of, FalsePlaceIs};
ghost use Rattle.lv_watch.specs.Trail.{Assigns, IsSplit, HasStart, BackjumpsTo};

use lv_cnf::{Lit, Memory};
use std::alloc::Global;

/// The value of a variable that has one.
#[derive(Clone, Copy, Drop)]
pub struct Assigned {
    /// Whether the variable is true.
    pub positive: bool,
    /// Where its literal stands on the trail.
    pub place: usize,
    /// The clause that forced it. A decision has none.
    pub reason: Option<usize>,
}

/// What the values say of a literal.
#[derive(Clone, Copy, Drop, PartialEq, Eq)]
pub enum Truth {
    /// It is true.
    Holds,
    /// Its negation is true.
    Fails,
    /// Its variable has no value.
    Undecided,
}

/// The literals that hold, in the order in which they were made true.
#[derive(Drop)]
pub struct Trail {
    /// For each variable its value, if it has one.
    pub values: Vec<Option<Assigned>>,
    /// The literals in order.
    pub lits: Vec<Lit>,
    /// Where the levels from 1 on start: the places of their decisions.
    pub starts: Vec<usize>,
}

/// The value, unless its place is that one or a later one.
fn kept(value: Option<Assigned>, place: usize) -> Option<Assigned>
    ensures { result ≡ keeps place value }
{
    match value {
        Some(put) if put.place < place => Some(put),
        _ => None,
    }
}

/// Takes back the values of that place and of later ones.
fn take_back(values: &mut [Option<Assigned>], place: usize)
    ensures { values.new ≡ map (keeps place) values.old }
{
    for value in values.iter_mut() {
        *value = kept(*value, place);
    }
}

/// How many decisions stand below that place before the first that does not.
fn starts_below(starts: &[usize], bound: usize) -> usize
    ensures { IsSplit starts.now bound result }
{
    let mut count = 0;
    while count < starts.len() && starts[count] < bound {
        count += 1;
    }
    count
}

impl Trail {
    /// No value yet.
    pub fn new(alloc: Global, vars: usize) -> Result<Trail, Memory>
        ensures values { IfOk result (λ t. t.values.items ≡ replicate vars None) }
        ensures lits { IfOk result (λ t. t.lits.items ≡ []) }
        ensures starts { IfOk result (λ t. t.starts.items ≡ []) }
    {
        let none: Option<Assigned> = None;
        Ok(Trail {
            values: Vec::from_elem(alloc, none, vars)?,
            lits: Vec::new(alloc),
            starts: Vec::new(alloc),
        })
    }

    /// How many literals hold.
    pub fn len(&self) -> usize
        ensures { result ≡ length self.now.lits.items }
    {
        self.lits.len()
    }

    /// The literal at a place.
    pub fn lit_at(&self, place: usize) -> Lit
        requires { place < length self.now.lits.items }
        ensures { result ≡ at self.now.lits.items place }
    {
        self.lits[place]
    }

    /// What the values say of a literal.
    pub fn truth_of(&self, lit: Lit) -> Truth
        requires { lit.var < length self.now.values.items }
        ensures { TruthIs self.now.values.items lit result }
    {
        match self.values[lit.var as usize] {
            None => Truth::Undecided,
            Some(put) => {
                if put.positive == lit.positive {
                    Truth::Holds
                } else {
                    Truth::Fails
                }
            }
        }
    }

    /// Makes a literal true, at the end of the trail, for this reason. The only error is want of memory.
    pub fn assign(&mut self, lit: Lit, reason: Option<usize>) -> Result<(), Memory>
        requires { lit.var < length self.old.values.items }
        ensures { OnOk result (Assigns self.old self.new lit reason) }
    {
        let place = self.lits.len();
        self.lits.push(lit)?;
        self.values[lit.var as usize] = Some(Assigned {
            positive: lit.positive,
            place,
            reason,
        });
        Ok(())
    }

    /// The place of the literal that makes this one false, if it is.
    pub fn false_place(&self, lit: Lit) -> Option<usize>
        requires { lit.var < length self.now.values.items }
        ensures { FalsePlaceIs self.now.values.items lit result }
    {
        match self.values[lit.var as usize] {
            None => None,
            Some(put) => {
                if put.positive == lit.positive {
                    None
                } else {
                    Some(put.place)
                }
            }
        }
    }

    /// The reason of the literal at a place: the clause that forced it. A decision has none.
    pub fn reason_at(&self, place: usize) -> Option<usize>
        requires place { place < length self.now.lits.items }
        requires small { (at self.now.lits.items place).var < length self.now.values.items }
        ensures { result ≡ reason_of (value self.now.values.items (at self.now.lits.items place).var) }
    {
        match self.values[self.lit_at(place).var as usize] {
            Some(put) => put.reason,
            None => None,
        }
    }

    /// Jumps back: takes back the first level that starts at `bound` or later, and all levels above it.
    pub fn backjump(&mut self, bound: usize)
        requires { HasStart self.old.starts.items bound }
        ensures { BackjumpsTo self.old self.new bound }
    {
        let count = starts_below(self.starts.as_slice(), bound);
        if count < self.starts.len() {
            let end = self.starts[count];
            self.starts.truncate(count);
            self.lits.truncate(end);
            take_back(self.values.as_mut_slice(), end);
        }
    }
}
