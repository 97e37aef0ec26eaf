//! A plain reading of the solver's answers: by all assignments where there are few variables, and of logs by unit
//! propagation that reads all clauses again until nothing changes.

use lv_cnf::{Clause, Clauses, Lit, all_in_range};
use std::alloc::{AllocError, Global};

/// The truth of a literal under values of which some may be missing.
fn truth(values: &[Option<bool>], lit: Lit) -> Option<bool> {
    match values.get(lit.var as usize) {
        Some(Some(value)) => Some(*value == lit.positive),
        _ => None,
    }
}

fn is_true(values: &[Option<bool>], clause: &[Lit]) -> bool {
    clause.iter().any(|lit| truth(values, *lit) == Some(true))
}

fn are_true(values: &[Option<bool>], clauses: &[Clause]) -> bool {
    clauses
        .iter()
        .all(|clause| is_true(values, clause.as_slice()))
}

/// Whether there is a value for each variable, and they satisfy the clauses.
pub fn is_model(alloc: Global, clauses: &Clauses, values: &[bool]) -> Result<bool, AllocError> {
    let some: Vec<Option<bool>> = values.iter().map(|value| Some(*value)).collect(alloc)?;
    Ok(values.len() == clauses.vars as usize && are_true(some.as_slice(), clauses.list.as_slice()))
}

/// The least variable of the clause, or `none` where it has no literal.
fn least_variable(clause: &[Lit], none: usize) -> usize {
    let mut least = none;
    for lit in clause {
        least = least.min(lit.var as usize);
    }
    least
}

/// The greatest variable below which values may change and still leave some clause false. None where all
/// clauses are true.
fn false_below(values: &[Option<bool>], clauses: &[Clause]) -> Option<usize> {
    let mut most = None;
    for clause in clauses {
        if !is_true(values, clause.as_slice()) {
            let least = least_variable(clause.as_slice(), values.len());
            most = Some(least.max(most.unwrap_or(0)));
        }
    }
    most
}

/// The next assignment, if there is one, with other values from variable `from` on: the values are
/// counted up as binary digits.
fn advance(values: &mut [Option<bool>], from: usize) -> bool {
    for (var, value) in values.iter_mut().enumerate() {
        if var >= from && *value == Some(false) {
            *value = Some(true);
            return true;
        }
        *value = Some(false);
    }
    false
}

/// Whether the other clauses are true in each assignment that satisfies the clauses, over at most 20 variables.
pub fn implies(alloc: Global, clauses: &Clauses, others: &[Clause]) -> Result<bool, AllocError> {
    let mut values = vec![in alloc; Some(false); clauses.vars as usize]?;
    for _ in 0..1 << 20 {
        let from = false_below(values.as_slice(), clauses.list.as_slice());
        if from.is_none() && !are_true(values.as_slice(), others) {
            return Ok(false);
        }
        if !advance(values.as_mut_slice(), from.unwrap_or(0)) {
            return Ok(true);
        }
    }
    Ok(false)
}

/// Makes the literal true; says whether it was not false before.
fn assume(values: &mut [Option<bool>], lit: Lit) -> bool {
    let var = lit.var as usize;
    if truth(values, lit) == Some(false) || var >= values.len() {
        return false;
    }
    values[var] = Some(lit.positive);
    true
}

/// The literals of the clause that have no value, if none of the literals is true.
fn open_literals(
    alloc: Global,
    values: &[Option<bool>],
    clause: &[Lit],
) -> Result<Option<Vec<Lit>>, AllocError> {
    let mut open = Vec::new(alloc);
    for lit in clause {
        match truth(values, *lit) {
            Some(true) => return Ok(None),
            Some(false) => {}
            None => {
                if !open.contains(lit) {
                    open.push(*lit)?;
                }
            }
        }
    }
    Ok(Some(open))
}

/// Propagates units; says whether no clause came out false.
fn propagate(
    alloc: Global,
    values: &mut [Option<bool>],
    clauses: &[Clause],
    earlier: &[Clause],
) -> Result<bool, AllocError> {
    // Each round but the last one gives a variable a value.
    for _ in 0..values.len() + 1 {
        let mut moved = false;
        for clause in clauses.iter().chain(earlier) {
            if let Some(open) = open_literals(alloc, values, clause.as_slice())? {
                match open.as_slice() {
                    [] => return Ok(false),
                    [lit] => moved = assume(values, *lit),
                    _ => {}
                }
            }
        }
        if !moved {
            return Ok(true);
        }
    }
    Ok(false)
}

/// What unit propagation makes of the negations of these literals.
#[derive(Drop)]
enum Propagated {
    /// Some literal is denied twice, in both signs.
    Tautology,
    /// A clause came out false.
    Conflict,
    /// No clause came out false, with these values.
    Values(Vec<Option<bool>>),
}

fn deny(
    alloc: Global,
    clauses: &Clauses,
    earlier: &[Clause],
    lits: &[Lit],
) -> Result<Propagated, AllocError> {
    let mut values: Vec<Option<bool>> = vec![in alloc; None; clauses.vars as usize]?;
    for lit in lits {
        if !assume(values.as_mut_slice(), lit.negated()) {
            return Ok(Propagated::Tautology);
        }
    }
    if propagate(
        alloc,
        values.as_mut_slice(),
        clauses.list.as_slice(),
        earlier,
    )? {
        Ok(Propagated::Values(values))
    } else {
        Ok(Propagated::Conflict)
    }
}

/// Whether unit propagation shows that no assignment satisfies the clauses and the earlier ones.
pub fn is_refuted(
    alloc: Global,
    clauses: &Clauses,
    earlier: &[Clause],
) -> Result<bool, AllocError> {
    Ok(matches!(deny(alloc, clauses, earlier, &[])?, Propagated::Conflict))
}

/// Whether propagation finds that the clause follows from the clauses and the earlier ones, but not that its last
/// literal is true where the others are false.
fn is_learned(
    alloc: Global,
    clauses: &Clauses,
    earlier: &[Clause],
    clause: &[Lit],
) -> Result<bool, AllocError> {
    let Some((last, front)) = clause.split_last() else {
        return Ok(false);
    };
    let follows = matches!(deny(alloc, clauses, earlier, clause)?, Propagated::Conflict);
    match deny(alloc, clauses, earlier, front)? {
        Propagated::Values(values) => Ok(follows && truth(values.as_slice(), *last).is_none()),
        _ => Ok(false),
    }
}

/// Whether each clause of the log was learned from the clauses and the ones before it.
pub fn is_log(alloc: Global, clauses: &Clauses, log: &[Clause]) -> Result<bool, AllocError> {
    for i in 0..log.len() {
        if !is_learned(alloc, clauses, &log[..i], log[i].as_slice())? {
            return Ok(false);
        }
    }
    Ok(all_in_range(clauses.vars, log))
}
