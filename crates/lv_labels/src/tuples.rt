//! Formulas over the tuples of some sorts.
ghost use Rattle.std.specs.Prelude.{◌≡◌, ◌++◌, IfOk, OnOk, length};
ghost use Rattle.lv_labels.specs.Problem as problem;
ghost use Rattle.lv_labels.specs.Closing.{all_over};

use crate::sharing::number;
use lv_formula::{Formula, Memory, SortId, Term, Terms, all};
use std::alloc::Global;

/// The formula holds for each tuple of elements of the sorts, whose last element becomes variable 0. The error is
/// want of memory.
pub fn for_all(alloc: Global, sorts: &[SortId], f: Formula) -> Result<Formula, Memory>
    ensures { IfOk result (λ g. g ≡ all_over sorts.now f) }
{
    match sorts {
        [first, rest @ ..] => all(alloc, *first, for_all(alloc, rest, f)?),
        [] => Ok(f),
    }
}

/// The variables of a tuple of so many elements, the first of which is the outermost. The error is want of memory.
pub fn tuple_variables(alloc: Global, sorts: &[SortId]) -> Result<Terms, Memory>
    ensures { IfOk result (λ ts. ts ≡ problem.tuple_variables (length sorts.now)) }
{
    let mut variables = Vec::new(alloc);
    push_variables(sorts, &mut variables)?;
    Terms::of(alloc, variables.as_slice())
}

/// Adds the variables of a tuple of the sorts. The error is want of memory, and then some may have been added.
pub fn push_variables(sorts: &[SortId], variables: &mut Vec<Term>) -> Result<(), Memory>
    ensures { OnOk result (variables.new.items ≡ variables.old.items ++ problem.tuple_variables (length sorts.now)) }
{
    match sorts {
        [_, rest @ ..] => {
            variables.push(Term::Var(number(rest.len())?))?;
            push_variables(rest, variables)
        }
        [] => Ok(()),
    }
}
