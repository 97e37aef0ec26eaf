//! What is touched after an action.
ghost use Rattle.std.specs.Prelude.{◌≡◌, ◌<◌, ◌++◌, IfOk, OnOk, length};
ghost use Rattle.lv_system.specs.Step as step;
ghost use Rattle.lv_footprint.specs.Footprint.{same_new, same_param, touched_after_of};
ghost use Rattle.lv_footprint.specs.Gathered.{gathered};

use crate::terms::{action_at, is_constant, new_term, number};
use lv_formula::{Formula, Memory, SortId, Sym, Term, atom, or, same};
use lv_system::{Action, Parts, Symbol, System};
use std::alloc::Global;

/// That variable 0, an element of the sort, is touched after the action: it was before, or it is one of the parameters of
/// the sort, or the new value of a changing constant of the sort. The parameters are told by their words. The error is
/// want of memory.
pub fn touched_after(
    alloc: Global,
    system: &System,
    action: u32,
    sort: SortId,
) -> Result<Formula, Memory>
    requires { action < length system.now.actions }
    ensures { IfOk result (λ f. f ≡ touched_after_of system.now (step.action_at system.now action) sort) }
{
    let parts = system.parts();
    touched_after_action(alloc, parts, action_at(parts, action), sort)
}

/// The same of any action, for a system of these parts. The error is want of memory.
pub fn touched_after_action(
    alloc: Global,
    parts: &Parts,
    action: &Action,
    sort: SortId,
) -> Result<Formula, Memory>
    ensures { IfOk result (λ f. f ≡ touched_after_of parts.now action.now sort) }
{
    let mut cases = Vec::new(alloc);
    cases.push(atom(alloc, Sym::Touched(sort), &[Term::Var(0)])?)?;
    push_params(action.params.as_slice(), sort, &mut cases)?;
    push_new(action, parts.symbols.as_slice(), sort, &mut cases)?;
    or(alloc, cases.as_slice())
}

fn push_params(params: &[SortId], sort: SortId, cases: &mut Vec<Formula>) -> Result<(), Memory>
    ensures { OnOk result (cases.new.items ≡ cases.old.items ++ gathered (same_param sort) 0 params.now) }
{
    for (k, other) in params.iter().enumerate() {
        if other.0 == sort.0 {
            cases.push(same(Term::Var(0), Term::Const(Sym::Param(number(k)?))))?;
        }
    }
    Ok(())
}

fn push_new(
    action: &Action,
    symbols: &[Symbol],
    sort: SortId,
    cases: &mut Vec<Formula>,
) -> Result<(), Memory>
    ensures { OnOk result (cases.new.items ≡ cases.old.items ++ gathered (same_new action.now sort) 0 symbols.now) }
{
    let params = number(action.params.as_slice().len())?;
    for (n, symbol) in symbols.iter().enumerate() {
        if !symbol.fixed && is_constant(symbol, sort) {
            let new = new_term(params, action.updates.as_slice(), number(n)?);
            cases.push(same(Term::Var(0), new))?;
        }
    }
    Ok(())
}
