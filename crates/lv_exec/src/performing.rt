ghost use Rattle.std.specs.Prelude.{◌≡◌, ◌<◌, ◌≤◌, ◌+◌, ◌-◌, ◌^◌, ◌++◌, ◌↔◌, IfOk, IsTrue, length, reverse, filter, true};
ghost use Rattle.lv_formula.specs.Measures.{depth_of};
ghost use Rattle.lv_formula.specs.Meaning.{in_range};
ghost use Rattle.lv_struct.specs.Tables.{IsSound, meaning, size_in};
ghost use Rattle.lv_formula.specs.Tuples.{tuples_over};
ghost use Rattle.lv_formula.specs.Truth.{value_of};
ghost use Rattle.lv_system.specs.Fits.{update_fits, updates_fit, fits_parts};
ghost use Rattle.lv_system.specs.Step.{IsAllowed, action_at, performed, sorts_at};
ghost use Rattle.lv_system.specs.Vocabularies.{own_vocabulary};
ghost use Rattle.lv_exec.specs.Setting.{is_true_with, set_one, set_all};
ghost use Rattle.lv_exec.specs.Symbols.{HasSymbols, SameSymbols};

use lv_eval::{Env, truth};
use lv_formula::{Formula, List, Memory, SortId, Sym, Term};
use lv_struct::Structure;
use lv_system::{Action, ActionUpdate, Parts, Shape, System};
use std::alloc::Global;

/// Whether the action is allowed in the structure with these elements for its parameters. Takes no memory:
/// the elements take the place of the values of `env`, which has as many places as before, values and
/// room together.
pub fn enabled(system: &System, action: u32, elements: &[u32], m: &Structure, env: &mut Env) -> bool
    requires action { action < length system.now.actions }
    requires elements { in_range (meaning m.now) (action_at system.now action).params elements.now ≡ true }
    requires places { length elements.now + depth_of (action_at system.now action).guard ≤ length env.old.values + env.old.room }
    ensures allowed { IsTrue result ↔ IsAllowed (action_at system.now action) elements.now (meaning m.now) }
    ensures values { env.new.values ≡ reverse elements.now }
    ensures places { length env.new.values + env.new.room ≡ length env.old.values + env.old.room }
{
    let action = action_of(system.parts(), action);
    env.put(elements);
    truth(&action.guard, m, env)
}

/// The structure after the action with these elements: each updated relation has the tuples on which its
/// update is true, each updated constant is the element of its term, and everything else stays. The error
/// is want of memory.
#[tactic(auto, using(crate::proofs::PerformLaw::updates_of_action))]
pub fn perform(
    alloc: Global,
    system: &System,
    action: u32,
    elements: &[u32],
    m: &Structure,
) -> Result<Structure, Memory>
    requires symbols { HasSymbols (own_vocabulary system.now) m.now }
    requires action { action < length system.now.actions }
    requires elements { in_range (meaning m.now) (action_at system.now action).params elements.now ≡ true }
    ensures performed { IfOk result (λ next. meaning next ≡ performed system.now (action_at system.now action) elements.now (meaning m.now)) }
    ensures symbols { IfOk result (λ next. SameSymbols m.now next) }
{
    let parts = system.parts();
    let action = action_of(parts, action);
    Ok(set_each(alloc, action, parts, elements, m)?)
}

/// The action with that number.
fn action_of(parts: &Parts, action: u32) -> &Action
    requires { action < length parts.now.actions }
    ensures { result.now ≡ action_at parts.now action }
{
    &parts.actions.as_slice()[action as usize]
}

/// The structure after all updates of the action.
#[tactic(auto, using(crate::proofs::PerformLaw::same_as_itself))]
fn set_each(
    alloc: Global,
    action: &Action,
    parts: &Parts,
    elements: &[u32],
    m: &Structure,
) -> Result<Structure, Memory>
    requires symbols { HasSymbols (own_vocabulary parts.now) m.now }
    requires elements { in_range (meaning m.now) action.now.params elements.now ≡ true }
    requires fits { updates_fit parts.now action.now.params action.now.updates ≡ true }
    ensures value { IfOk result (λ next. next ≡ set_all parts.now elements.now (meaning m.now) action.now.updates m.now) }
    ensures symbols { IfOk result (λ next. SameSymbols m.now next) }
{
    let params = action.params.as_slice();
    let mut next = m.copy(alloc)?;
    for update in action.updates.as_slice() {
        next = set(alloc, update, parts, params, elements, m, &next)?;
    }
    Ok(next)
}

/// The structure `next` with the update made, which reads the structure `m`.
#[tactic(auto, using(crate::proofs::RangeLaw::relation_in_range, crate::proofs::RangeLaw::constant_in_range, crate::proofs::RangeLaw::few_binders, crate::proofs::RangeLaw::symbols_kept_by_tuples, crate::proofs::RangeLaw::symbols_kept_by_element))]
fn set(
    alloc: Global,
    update: &ActionUpdate,
    parts: &Parts,
    params: &[SortId],
    elements: &[u32],
    m: &Structure,
    next: &Structure,
) -> Result<Structure, Memory>
    requires symbols { HasSymbols (own_vocabulary parts.now) m.now }
    requires elements { in_range (meaning m.now) params.now elements.now ≡ true }
    requires fits { update_fits parts.now params.now update.now ≡ true }
    requires same { SameSymbols m.now next.now }
    requires sound { IsSound m.now }
    ensures value { IfOk result (λ w. w ≡ set_one parts.now elements.now (meaning m.now) update.now next.now) }
    ensures symbols { IfOk result (λ w. SameSymbols m.now w) }
{
    match update {
        ActionUpdate::Relation { symbol, body } => {
            let sorts = argument_sorts(parts, *symbol);
            let tuples = tuples_where(alloc, body, sorts, elements, m)?;
            Ok(next.with_relation(alloc, Sym::Own(*symbol), tuples.as_slice())?)
        }
        ActionUpdate::Constant { symbol, term } => {
            next.with_constant(alloc, Sym::Own(*symbol), value_with(term, elements, m))
        }
    }
}

/// The sorts of the symbol's arguments; a constant has none.
fn argument_sorts(parts: &Parts, symbol: u32) -> &[SortId]
    ensures { result.now ≡ sorts_at parts.now symbol }
{
    let symbol = symbol as usize;
    let symbols = parts.symbols.as_slice();
    if symbol < symbols.len() {
        match &symbols[symbol].shape {
            Shape::Relation(sorts) => sorts.as_slice(),
            Shape::Constant(_) => &[],
        }
    } else {
        &[]
    }
}

/// The element that the term stands for with these elements, the innermost variable's last.
fn value_with(term: &Term, elements: &[u32], m: &Structure) -> u32
    ensures { result ≡ value_of (meaning m.now) (reverse elements.now) term.now }
{
    match term {
        Term::Var(i) => {
            let i = *i as usize;
            if i < elements.len() {
                elements[elements.len() - 1 - i]
            } else {
                0
            }
        }
        Term::Const(sym) => m.value(*sym),
    }
}

/// The tuples of the sorts on which the body is true with the elements. The error is want of memory.
fn tuples_where(
    alloc: Global,
    body: &Formula,
    sorts: &[SortId],
    elements: &[u32],
    m: &Structure,
) -> Result<List<List<u32>>, Memory>
    requires { depth_of body.now < 2 ^ 32 }
    ensures { IfOk result (λ ts. ts ≡ filter (is_true_with (meaning m.now) elements.now body.now) (tuples_over (size_in m.now) sorts.now)) }
{
    let all = m.tuples(alloc, sorts)?;
    let depth = body.depth();
    // the room for values is taken once for all tuples
    let mut values = Vec::new(alloc);
    let mut env = Env::new(alloc);
    let mut kept = Vec::new(alloc);
    for tuple in all.as_slice() {
        let tuple = tuple.as_slice();
        if is_true(body, depth, elements, tuple, m, &mut values, &mut env)? {
            kept.push(List::from_vec(Vec::from_slice(alloc, tuple)?))?;
        }
    }
    Ok(List::from_vec(kept))
}

/// Whether the body is true with the elements and the tuple, which take the place of what `values` and `env`
/// have. The error is want of memory.
fn is_true(
    body: &Formula,
    depth: u32,
    elements: &[u32],
    tuple: &[u32],
    m: &Structure,
    values: &mut Vec<u32>,
    env: &mut Env,
) -> Result<bool, Memory>
    requires { depth_of body.now ≤ depth }
    ensures { IfOk result (λ b. b ≡ is_true_with (meaning m.now) elements.now body.now tuple.now) }
{
    values.clear();
    values.extend_from_slice(elements)?;
    values.extend_from_slice(tuple)?;
    env.load(values.as_slice(), depth)?;
    Ok(truth(body, m, env))
}
