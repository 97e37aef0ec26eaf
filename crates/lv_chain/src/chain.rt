//! The chain as a system.
ghost use Rattle.std.specs.Prelude.{◌≡◌, ◌≤◌, ◌<◌, ◌-◌, ◌^◌, ◌++◌, [], ◌∷◌, IfOk, OnOk};
ghost use Rattle.lv_formula.specs.declared.temporal.Temporal.TheVariants as T;
ghost use Rattle.lv_chain.specs.Chain.{chain_of, go, invariant, invariants_of, moved, place, rest, stuck};
ghost use Rattle.lv_chain.specs.Formulas.{at, each, of_place};

use crate::formulas::{
    OfPair, OfPlace, each_pair, each_place, here, is_saved, push_places, some_place,
};
use crate::names::{named, numbered};
use lv_formula::{Formula, List, Memory, Rc, Sym, Temporal, Terms, and, atom, implies};
use lv_system::{Action, ActionUpdate, Fair, Invariant, LabelDecl, Parts, Shape, Symbol, System};
use std::alloc::Global;

/// The relation of each place. The error is want of memory.
fn symbols(alloc: Global, places: u32) -> Result<List<Symbol>, Memory>
    ensures { IfOk result (λ symbols. symbols ≡ each place 0 places) }
{
    let mut symbols = Vec::new(alloc);
    for i in 0..places {
        symbols.push(Symbol {
            name: numbered(alloc, b"at", i)?,
            shape: Shape::Relation(List::from_vec(Vec::new(alloc))),
            fixed: false,
        })?;
    }
    Ok(List::from_vec(symbols))
}

/// The token is at the first place alone. The error is want of memory.
fn start(alloc: Global, places: u32) -> Result<List<Formula>, Memory>
    requires { 0 < places }
    ensures { IfOk result (λ inits. inits ≡ Formula.And (at 0 ∷ each (of_place OfPlace.Away) 1 (places - 1)) ∷ []) }
{
    let mut formulas = Vec::new(alloc);
    formulas.push(here(alloc, 0)?)?;
    push_places(alloc, OfPlace::Away, 1, places, &mut formulas)?;
    let mut inits = Vec::new(alloc);
    inits.push(and(alloc, formulas.as_slice())?)?;
    Ok(List::from_vec(inits))
}

/// The token goes on from this place. The error is want of memory.
fn step(alloc: Global, i: u32) -> Result<Action, Memory>
    requires { i < 2 ^ 32 - 1 }
    ensures { IfOk result (λ action. action ≡ go i) }
{
    let mut updates = Vec::new(alloc);
    updates.push(ActionUpdate::Relation {
        symbol: i,
        body: Formula::False,
    })?;
    updates.push(ActionUpdate::Relation {
        symbol: i + 1,
        body: Formula::True,
    })?;
    Ok(Action {
        name: numbered(alloc, b"go", i)?,
        params: List::from_vec(Vec::new(alloc)),
        guard: here(alloc, i)?,
        updates: List::from_vec(updates),
    })
}

/// Nothing happens. The error is want of memory.
fn idle(alloc: Global) -> Result<Action, Memory>
    ensures { IfOk result (λ action. action ≡ rest) }
{
    Ok(Action {
        name: named(alloc, b"rest")?,
        params: List::from_vec(Vec::new(alloc)),
        guard: Formula::True,
        updates: List::from_vec(Vec::new(alloc)),
    })
}

/// The token goes on from each of the places before the last, or nothing happens. The error is want of memory.
fn actions(alloc: Global, last: u32) -> Result<List<Action>, Memory>
    ensures { IfOk result (λ actions. actions ≡ each go 0 last ++ rest ∷ []) }
{
    let mut actions = Vec::new(alloc);
    for i in 0..last {
        actions.push(step(alloc, i)?)?;
    }
    actions.push(idle(alloc)?)?;
    Ok(List::from_vec(actions))
}

/// The token stays at none of the places before the last for ever. The error is want of memory.
fn fairs(alloc: Global, last: u32) -> Result<List<Fair>, Memory>
    ensures { IfOk result (λ fairs. fairs ≡ each moved 0 last) }
{
    let mut fairs = Vec::new(alloc);
    for i in 0..last {
        fairs.push(Fair {
            name: numbered(alloc, b"moved", i)?,
            params: List::from_vec(Vec::new(alloc)),
            condition: OfPlace::Away.formula(alloc, i)?,
        })?;
    }
    Ok(List::from_vec(fairs))
}

/// The token is at the place. The error is want of memory.
fn temporal_here(alloc: Global, place: u32) -> Result<Temporal, Memory>
    ensures { IfOk result (λ f. f ≡ T.Atom (Sym.Own place) []) }
{
    Ok(Temporal::Atom(Sym::Own(place), Terms::of(alloc, &[])?))
}

/// The token never comes to the last place. The error is want of memory.
fn labels(alloc: Global, last: u32) -> Result<List<LabelDecl>, Memory>
    ensures { IfOk result (λ labels. labels ≡ stuck last ∷ []) }
{
    let away = Temporal::Not(Rc::new(alloc, temporal_here(alloc, last)?)?);
    let mut labels = Vec::new(alloc);
    labels.push(LabelDecl {
        name: named(alloc, b"stuck")?,
        params: List::from_vec(Vec::new(alloc)),
        formula: Temporal::Always(Rc::new(alloc, away)?),
    })?;
    Ok(List::from_vec(labels))
}

/// Puts an invariant. The error is want of memory.
fn put(
    alloc: Global,
    name: &[u8],
    formula: Formula,
    invariants: &mut Vec<Invariant>,
) -> Result<(), Memory>
    ensures { OnOk result (invariants.new.items ≡ invariants.old.items ++ invariant name.now formula ∷ []) }
{
    invariants.push(Invariant {
        name: named(alloc, name)?,
        formula,
    })?;
    Ok(())
}

/// The invariants. The error is want of memory.
fn invariants(alloc: Global, places: u32) -> Result<List<Invariant>, Memory>
    requires { 0 < places }
    ensures { IfOk result (λ invariants. invariants ≡ invariants_of places) }
{
    let last = places - 1;
    let mut all = Vec::new(alloc);
    let some = some_place(alloc, OfPlace::Here, places)?;
    put(alloc, b"any", some, &mut all)?;
    put(
        alloc,
        b"one",
        each_pair(alloc, OfPair::NotBoth, places)?,
        &mut all,
    )?;
    put(alloc, b"stays", atom(alloc, Sym::Label(0), &[])?, &mut all)?;
    let held = implies(
        alloc,
        is_saved(alloc)?,
        some_place(alloc, OfPlace::SavedHere, last)?,
    )?;
    put(alloc, b"held", held, &mut all)?;
    put(
        alloc,
        b"ahead",
        each_pair(alloc, OfPair::Ahead, places)?,
        &mut all,
    )?;
    put(
        alloc,
        b"waits",
        each_place(alloc, OfPlace::Waits, last)?,
        &mut all,
    )?;
    Ok(List::from_vec(all))
}

/// The parts of the chain. The error is want of memory.
fn parts(alloc: Global, places: u32) -> Result<Parts, Memory>
    requires { 0 < places }
    ensures { IfOk result (λ parts. parts ≡ chain_of places) }
{
    let last = places - 1;
    let arrival = Rc::new(alloc, temporal_here(alloc, last)?)?;
    Ok(Parts {
        name: named(alloc, b"chain")?,
        sorts: List::from_vec(Vec::new(alloc)),
        symbols: symbols(alloc, places)?,
        axioms: List::from_vec(Vec::new(alloc)),
        inits: start(alloc, places)?,
        actions: actions(alloc, last)?,
        fairs: fairs(alloc, last)?,
        labels: labels(alloc, last)?,
        witnesses: List::from_vec(Vec::new(alloc)),
        property: Temporal::Eventually(arrival),
        invariants: invariants(alloc, places)?,
    })
}

/// The chain of so many places, from 2 to 16: a token at the first one goes on from each place to the next; it doesn't stay
/// at a place before the last for ever; so it comes to the last one at some time. The error is want of memory.
pub fn make_system(alloc: Global, places: u32) -> Result<System, Memory>
    requires least { 2 ≤ places }
    requires most { places ≤ 16 }
    ensures { IfOk result (λ system. system ≡ chain_of places) }
{
    Ok(System::new(parts(alloc, places)?))
}
