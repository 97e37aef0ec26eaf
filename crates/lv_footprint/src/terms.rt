//! Terms over an action's parameters.
ghost use Rattle.std.specs.Prelude.{◌≡◌, ◌<◌, IfOk, length};
ghost use Rattle.lv_system.specs.Step as step;
ghost use Rattle.lv_footprint.specs.Footprint as footprint;

use lv_formula::{Memory, SortId, Sym, Term};
use lv_system::{Action, ActionUpdate, Parts, Shape, Symbol};

/// The action with that number.
pub fn action_at(parts: &Parts, action: u32) -> &Action
    requires { action < length parts.now.actions }
    ensures { result.now ≡ step.action_at parts.now action }
{
    &parts.actions.as_slice()[action as usize]
}

/// A term that stands in so many parameters, with their words in place of the variables.
pub fn param_term(params: u32, term: &Term) -> Term
    ensures { result ≡ footprint.param_term params term.now }
{
    match term {
        Term::Var(i) => Term::Const(Sym::Param(params.saturating_sub(1).saturating_sub(*i))),
        Term::Const(sym) => Term::Const(*sym),
    }
}

/// What the action sets the constant to, or the constant itself.
pub(crate) fn new_term(params: u32, updates: &[ActionUpdate], constant: u32) -> Term
    ensures { result ≡ footprint.new_term params updates.now constant }
{
    for update in updates {
        if let ActionUpdate::Constant { symbol, term } = update {
            if *symbol == constant {
                return param_term(params, term);
            }
        }
    }
    Term::Const(Sym::Own(constant))
}

/// Whether the symbol is a constant of the sort.
pub(crate) fn is_constant(symbol: &Symbol, sort: SortId) -> bool
    ensures { result ≡ footprint.is_constant symbol.now sort }
{
    match &symbol.shape {
        Shape::Relation(_) => false,
        Shape::Constant(other) => other.0 == sort.0,
    }
}

/// Whether all elements of the sort are touched from the start on.
pub(crate) fn is_finite(parts: &Parts, sort: SortId) -> bool
    ensures { result ≡ footprint.is_finite parts.now sort }
{
    let sorts = parts.sorts.as_slice();
    let number = sort.0 as usize;
    number < sorts.len() && sorts[number].finite
}

/// The number of an item, where a `u32` holds it. The error is want of memory.
pub(crate) fn number(n: usize) -> Result<u32, Memory>
    ensures { IfOk result (λ m. m ≡ n) }
{
    if n > u32::MAX as usize {
        return Err(Memory);
    }
    Ok(n as u32)
}
