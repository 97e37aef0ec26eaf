//! Clause sets are solved, and the answers are read.

ghost use Rattle.std.specs.Prelude.{◌≡◌, ◌<◌};
ghost use Rattle.std.specs.List.{All};
ghost use Rattle.lv_cnf.specs.Literals.{InRange};

use crate::instances::{instance, numbers};
use crate::plain::{implies, is_log, is_model, is_refuted};
use lv_cnf::{Clause, Clauses, Memory, Steps, all_in_range};
use lv_sat::{Ending, Solved, Verdict, solve, solve_logged};
use std::alloc::Global;
use std::marker::Brand;
use std::sync::ledger::{Blank, Ledger};

/// What is known of a clause set.
#[derive(Clone, Copy, PartialEq, Eq)]
enum Known {
    Unsat,
    Sat,
    Spent,
    /// The answer is wrong.
    Wrong,
}

impl Known {
    fn text(self) -> &'static str {
        match self {
            Known::Unsat => "ok unsat",
            Known::Sat => "ok sat",
            Known::Spent => "ok spent",
            Known::Wrong => "wrong answer",
        }
    }
}

/// What is claimed, where it is right.
fn if_right(claim: Known, is_right: bool) -> Known {
    if is_right { claim } else { Known::Wrong }
}

/// Up to so many variables all assignments are tried.
const FEW: u32 = 20;

/// Whether the other clauses follow, where there are few variables; else nothing is tried.
fn may_follow(alloc: Global, clauses: &Clauses, others: &[Clause]) -> Result<bool, Memory> {
    Ok(clauses.vars > FEW || implies(alloc, clauses, others)?)
}

/// Whether no assignment satisfies the clauses, where there are few variables; else nothing is tried.
fn may_be_unsatisfiable(alloc: Global, clauses: &Clauses) -> Result<bool, Memory> {
    let falsehood = [Clause::of(alloc, &[])?];
    may_follow(alloc, clauses, &falsehood)
}

/// What a verdict shows.
fn read_verdict(
    alloc: Global,
    clauses: &Clauses,
    budget: u32,
    verdict: Verdict,
) -> Result<Known, Memory> {
    match verdict {
        Verdict::Unsat => Ok(if_right(Known::Unsat, may_be_unsatisfiable(alloc, clauses)?)),
        Verdict::Sat(values) => Ok(if_right(
            Known::Sat,
            is_model(alloc, clauses, values.as_slice())?,
        )),
        Verdict::Spent(log) => Ok(if_right(
            Known::Spent,
            log.as_slice().len() == budget as usize
                && is_log(alloc, clauses, log.as_slice())?
                && may_follow(alloc, clauses, log.as_slice())?,
        )),
    }
}

/// What an ending shows, with a log that is right.
fn read_ending(
    alloc: Global,
    clauses: &Clauses,
    budget: u32,
    ending: Ending,
    log: &[Clause],
) -> Result<Known, Memory> {
    match ending {
        Ending::Unsat => Ok(if_right(
            Known::Unsat,
            is_refuted(alloc, clauses, log)? && may_be_unsatisfiable(alloc, clauses)?,
        )),
        Ending::Sat(values) => Ok(if_right(
            Known::Sat,
            is_model(alloc, clauses, values.as_slice())?,
        )),
        Ending::Spent => Ok(if_right(Known::Spent, log.len() == budget as usize)),
    }
}

/// Solves with a counter that is not read.
fn solve_with<L: Ledger>(
    alloc: Global,
    clauses: &Clauses,
    budget: u32,
    blank: Blank,
) -> Result<Solved, Memory>
    requires name { blank.name ≡ L.name }
    requires parts { blank.parts ≡ L.parts }
    requires some { 0 < blank.parts }
    requires range { All (InRange clauses.now.vars) clauses.now.list }
    requires budget { 0 < budget }
{
    let mut steps: Steps<L> = Steps::new(blank);
    solve_logged(alloc, clauses, budget, &mut steps)
}

/// Solves with and without the log, and reads both answers.
fn check(
    alloc: Global,
    clauses: &Clauses,
    budget: u32,
    is_empty: bool,
) -> Result<&'static str, Memory>
    requires range { All (InRange clauses.now.vars) clauses.now.list }
    requires budget { 0 < budget }
{
    let Solved { ending, log } = solve_with::<Brand>(alloc, clauses, budget, Blank::new(1))?;
    let log = log.as_slice();
    if is_empty && !log.is_empty() {
        return Ok("log not empty");
    }
    if log.len() > budget as usize || !is_log(alloc, clauses, log)? {
        return Ok("wrong log");
    }
    let known = read_ending(alloc, clauses, budget, ending, log)?;
    let verdict = solve(alloc, clauses, budget)?;
    if read_verdict(alloc, clauses, budget, verdict)? == known {
        Ok(known.text())
    } else {
        Ok("wrong answer")
    }
}

/// Only solves.
fn solved(alloc: Global, clauses: &Clauses, budget: u32) -> Result<&'static str, Memory>
    requires range { All (InRange clauses.now.vars) clauses.now.list }
    requires budget { 0 < budget }
{
    match solve(alloc, clauses, budget)? {
        Verdict::Unsat => Ok("unsat"),
        Verdict::Sat(_) => Ok("sat"),
        Verdict::Spent(_) => Ok("spent"),
    }
}

/// The clause set and the budget of a shape with its numbers, if all variables are in range and the budget is some.
fn case(alloc: Global, text: &str) -> Result<Option<(Clauses, u32)>, Memory> {
    let Some((shape, rest)) = text.split_once(' ') else {
        return Ok(None);
    };
    let Some(numbers) = numbers(alloc, rest)? else {
        return Ok(None);
    };
    match numbers.as_slice() {
        [budget, numbers @ ..] => match instance(alloc, shape, numbers)? {
            Some(clauses) => Ok(Some((clauses, budget.unsigned_abs()))),
            None => Ok(None),
        },
        [] => Ok(None),
    }
}

/// The answer to a command on a clause set.
pub fn answer(alloc: Global, command: &str, text: &str) -> Result<&'static str, Memory> {
    let Some((clauses, budget)) = case(alloc, text)? else {
        return Ok("not a case");
    };
    if budget == 0 || !all_in_range(clauses.vars, clauses.list.as_slice()) {
        return Ok("out of range");
    }
    match command {
        "check" => check(alloc, &clauses, budget, false),
        "empty" => check(alloc, &clauses, budget, true),
        "solve" => solved(alloc, &clauses, budget),
        _ => Ok("not a case"),
    }
}
