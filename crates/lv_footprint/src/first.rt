//! What is touched at the start.
ghost use Rattle.std.specs.Prelude.{◌≡◌, ◌++◌, IfOk, OnOk};
ghost use Rattle.lv_formula.specs.declared.terms.Term.TheVariants.{Var};
ghost use Rattle.lv_footprint.specs.Footprint as footprint;
ghost use Rattle.lv_footprint.specs.Gathered.{gathered};

use crate::terms::{is_constant, is_finite, number};
use lv_formula::{Formula, Memory, SortId, Sym, Term, or, same};
use lv_system::{Parts, Symbol, System, WitnessDecl};
use std::alloc::Global;

/// That variable 0, an element of the sort, is touched at the start: always of a finite sort, and of another if it is one
/// of the own constants or of the witnesses of the sort. The error is want of memory.
pub fn touched_at_start(alloc: Global, system: &System, sort: SortId) -> Result<Formula, Memory>
    ensures { IfOk result (λ f. f ≡ footprint.first_touched system.now sort (Var 0)) }
{
    first_touched(alloc, system.parts(), sort, Term::Var(0))
}

/// The same of any term of the sort, for a system of these parts. The error is want of memory.
pub fn first_touched(
    alloc: Global,
    parts: &Parts,
    sort: SortId,
    term: Term,
) -> Result<Formula, Memory>
    ensures { IfOk result (λ f. f ≡ footprint.first_touched parts.now sort term) }
{
    if is_finite(parts, sort) {
        return Ok(Formula::True);
    }
    let mut cases = Vec::new(alloc);
    push_constants(parts.symbols.as_slice(), sort, term, &mut cases)?;
    push_witnesses(parts.witnesses.as_slice(), sort, term, &mut cases)?;
    or(alloc, cases.as_slice())
}

fn push_constants(
    symbols: &[Symbol],
    sort: SortId,
    term: Term,
    cases: &mut Vec<Formula>,
) -> Result<(), Memory>
    ensures { OnOk result (cases.new.items ≡ cases.old.items ++ gathered (footprint.same_constant sort term) 0 symbols.now) }
{
    for (n, symbol) in symbols.iter().enumerate() {
        if is_constant(symbol, sort) {
            cases.push(same(term, Term::Const(Sym::Own(number(n)?))))?;
        }
    }
    Ok(())
}

fn push_witnesses(
    witnesses: &[WitnessDecl],
    sort: SortId,
    term: Term,
    cases: &mut Vec<Formula>,
) -> Result<(), Memory>
    ensures { OnOk result (cases.new.items ≡ cases.old.items ++ gathered (footprint.same_witness sort term) 0 witnesses.now) }
{
    for (k, witness) in witnesses.iter().enumerate() {
        if witness.sort.0 == sort.0 {
            cases.push(same(term, Term::Const(Sym::Witness(number(k)?))))?;
        }
    }
    Ok(())
}
