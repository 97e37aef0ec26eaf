//! Formulas of the chain.
ghost use Rattle.std.specs.Prelude.{◌≡◌, ◌≤◌, ◌-◌, ◌+◌, ◌++◌, IfOk, OnOk};
ghost use Rattle.lv_chain.specs.Formulas.{at, each, of_pair, of_pairs, of_place, saved, was_at};

use lv_formula::{Formula, List, Memory, Sym, and, atom, implies, not, or};
use std::alloc::Global;

/// What is said of one place.
#[derive(Clone, Copy, Drop)]
pub(crate) enum OfPlace {
    /// The token is there.
    Here,
    /// It isn't.
    Away,
    /// It was there when the state was saved.
    SavedHere,
    /// Where it is and was there, the condition of fairness has yet to hold.
    Waits,
}

/// What is said of two places, the lesser first.
#[derive(Clone, Copy, Drop)]
pub(crate) enum OfPair {
    /// The token isn't at both.
    NotBoth,
    /// Where it was at the second when the state was saved, it isn't at the first.
    Ahead,
}

impl OfPlace {
    /// The formula for the place. The error is want of memory.
    pub(crate) fn formula(self, alloc: Global, place: u32) -> Result<Formula, Memory>
        ensures { IfOk result (λ f. f ≡ of_place self place) }
    {
        match self {
            OfPlace::Here => here(alloc, place),
            OfPlace::Away => not(alloc, here(alloc, place)?),
            OfPlace::SavedHere => was_here(alloc, place),
            OfPlace::Waits => waits(alloc, place),
        }
    }
}

impl OfPair {
    /// The formula for the two places. The error is want of memory.
    fn formula(self, alloc: Global, i: u32, j: u32) -> Result<Formula, Memory>
        ensures { IfOk result (λ f. f ≡ of_pair self i j) }
    {
        match self {
            OfPair::NotBoth => not(alloc, and(alloc, &[here(alloc, i)?, here(alloc, j)?])?),
            OfPair::Ahead => {
                let behind = and(alloc, &[is_saved(alloc)?, was_here(alloc, j)?])?;
                implies(alloc, behind, OfPlace::Away.formula(alloc, i)?)
            }
        }
    }
}

/// The token is at the place. The error is want of memory.
pub(crate) fn here(alloc: Global, place: u32) -> Result<Formula, Memory>
    ensures { IfOk result (λ f. f ≡ at place) }
{
    atom(alloc, Sym::Own(place), &[])
}

/// It was there when the state was saved. The error is want of memory.
fn was_here(alloc: Global, place: u32) -> Result<Formula, Memory>
    ensures { IfOk result (λ f. f ≡ was_at place) }
{
    atom(alloc, Sym::Copy(place), &[])
}

/// The state was saved. The error is want of memory.
pub(crate) fn is_saved(alloc: Global) -> Result<Formula, Memory>
    ensures { IfOk result (λ f. f ≡ saved) }
{
    atom(alloc, Sym::Saved, &[])
}

/// Where the token is and was at the place, the condition of fairness has yet to hold. The error is want of memory.
fn waits(alloc: Global, place: u32) -> Result<Formula, Memory>
    ensures { IfOk result (λ f. f ≡ of_place OfPlace.Waits place) }
{
    let stays = and(
        alloc,
        &[
            is_saved(alloc)?,
            was_here(alloc, place)?,
            here(alloc, place)?,
        ],
    )?;
    implies(alloc, stays, atom(alloc, Sym::Due(place), &[])?)
}

/// Puts the formulas of the places from `first` to before `end`. The error is want of memory.
pub(crate) fn push_places(
    alloc: Global,
    kind: OfPlace,
    first: u32,
    end: u32,
    formulas: &mut Vec<Formula>,
) -> Result<(), Memory>
    requires { first ≤ end }
    ensures { OnOk result (formulas.new.items ≡ formulas.old.items ++ each (of_place kind) first (end - first)) }
{
    for place in first..end {
        formulas.push(kind.formula(alloc, place)?)?;
    }
    Ok(())
}

/// Some of the formulas of the places before `end` holds. The error is want of memory.
pub(crate) fn some_place(alloc: Global, kind: OfPlace, end: u32) -> Result<Formula, Memory>
    ensures { IfOk result (λ f. f ≡ Formula.Or (each (of_place kind) 0 end)) }
{
    let mut formulas = Vec::new(alloc);
    push_places(alloc, kind, 0, end, &mut formulas)?;
    or(alloc, formulas.as_slice())
}

/// Each of the formulas of the places before `end` holds. The error is want of memory.
pub(crate) fn each_place(alloc: Global, kind: OfPlace, end: u32) -> Result<Formula, Memory>
    ensures { IfOk result (λ f. f ≡ Formula.And (each (of_place kind) 0 end)) }
{
    let mut formulas = Vec::new(alloc);
    push_places(alloc, kind, 0, end, &mut formulas)?;
    and(alloc, formulas.as_slice())
}

/// Puts the formulas of the place with each later one before `end`. The error is want of memory.
fn push_later(
    alloc: Global,
    kind: OfPair,
    place: u32,
    end: u32,
    formulas: &mut Vec<Formula>,
) -> Result<(), Memory>
    requires { place + 1 ≤ end }
    ensures { OnOk result (formulas.new.items ≡ formulas.old.items ++ each (of_pair kind place) (place + 1) (end - (place + 1))) }
{
    for later in place + 1..end {
        formulas.push(kind.formula(alloc, place, later)?)?;
    }
    Ok(())
}

/// Each of the formulas of two places before `end` holds. The error is want of memory.
pub(crate) fn each_pair(alloc: Global, kind: OfPair, end: u32) -> Result<Formula, Memory>
    ensures { IfOk result (λ f. f ≡ Formula.And (of_pairs kind 0 end)) }
{
    let mut formulas = Vec::new(alloc);
    for place in 0..end {
        push_later(alloc, kind, place, end, &mut formulas)?;
    }
    and(alloc, formulas.as_slice())
}
