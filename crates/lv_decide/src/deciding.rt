//! Whether some structure breaks hypotheses and a conclusion.
ghost use Rattle.std.specs.Prelude.{◌≡◌, ◌+◌, ◌<◌, ◌^◌, length, IfOk};
ghost use Rattle.std.specs.List.{All};
ghost use Rattle.lv_formula.specs.Pairs.{SentencesFit};
ghost use Rattle.lv_formula.specs.Vocabulary as vocabularies;
ghost use Rattle.lv_cnf.specs.Literals.{InRange};
ghost use Rattle.lv_cnf.specs.Nodes.{AtomsBelow, clauses_of, inners, plains};
ghost use Rattle.lv_sat.specs.Verdict.{VerdictIs};
ghost use Rattle.lv_decide.specs.Decisions.{IsDecision};
ghost use Rattle.lv_decide.specs.Fragments.{IsSmall, IsStratified};

use lv_cnf::{Clauses, Log, to_clauses};
use lv_formula::{Memory, Sentences, Vocabulary};
use lv_ground::ground;
use lv_model::build;
use lv_places::Grounded;
use lv_sat::{Verdict, solve};
use lv_skolem::{Universe, skolemise};
use lv_struct::Structure;
use std::alloc::Global;

/// What is found of hypotheses and a conclusion.
#[derive(Debug, Drop)]
pub enum Decision {
    /// No structure of the vocabulary, of any sizes, breaks them.
    Valid,
    /// This structure of the vocabulary breaks them: it makes each hypothesis true and the conclusion false. It has at most
    /// 256 elements in each sort.
    Breaks(Structure),
    /// The solver learned these clauses from the ground clauses, as many as its budget allows.
    Spent(Log),
}

/// The clauses of the ground forms, and the equality clauses.
fn ground_clauses(alloc: Global, g: &Grounded) -> Result<Clauses, Memory>
    requires roots { AtomsBelow (length g.now.atoms) (plains g.now.roots) }
    requires equalities { All (InRange (length g.now.atoms)) g.now.equalities }
    requires few { length g.now.atoms + inners (plains g.now.roots) < 2 ^ 32 }
    ensures vars { IfOk result (λ c. c.vars ≡ length g.now.atoms + inners (plains g.now.roots)) }
    ensures list { IfOk result (λ c. c.list ≡ clauses_of (length g.now.atoms) (plains g.now.roots) g.now.equalities) }
    ensures range { IfOk result (λ c. All (InRange c.vars) c.list) }
{
    let atoms = g.atoms.as_slice().len() as u32;
    match to_clauses(alloc, g.roots.as_slice(), g.equalities.as_slice(), atoms) {
        Ok(clauses) => Ok(clauses),
        Err(_) => Err(Memory),
    }
}

/// The solver's answer, with this crate's error.
fn solved(alloc: Global, clauses: &Clauses, budget: u32) -> Result<Verdict, Memory>
    requires range { All (InRange clauses.now.vars) clauses.now.list }
    requires budget { 0 < budget }
    ensures { IfOk result (VerdictIs clauses.now budget) }
{
    match solve(alloc, clauses, budget) {
        Ok(verdict) => Ok(verdict),
        Err(_) => Err(Memory),
    }
}

/// Whether some structure of the vocabulary makes each hypothesis true and the conclusion false. The solver learns at most
/// `budget` clauses. The error is want of memory.
///
/// The caller sees to it that no two symbols of the vocabulary are the same, that hypotheses and conclusion are closed
/// formulas over it, that their sort graph has no cycle and their size is at most 4,000,000, as `measure` tells, and that
/// the budget is at least 1. Where it is 3 to the power of the number of variables of the ground clauses or more, it is
/// never spent.
pub fn decide(
    alloc: Global,
    voc: &Vocabulary,
    s: &Sentences,
    budget: u32,
) -> Result<Decision, Memory>
    requires sound { vocabularies.IsSound voc.now }
    requires fit { SentencesFit voc.now s.now }
    requires stratified { IsStratified s.now }
    requires small { IsSmall voc.now s.now }
    requires budget { 0 < budget }
    ensures { IfOk result (IsDecision voc.now s.now budget) }
{
    let sk = skolemise(alloc, voc, s)?;
    let u = Universe::new(alloc, &sk)?;
    let g = ground(alloc, &sk, &u)?;
    let clauses = ground_clauses(alloc, &g)?;
    match solved(alloc, &clauses, budget)? {
        Verdict::Unsat => Ok(Decision::Valid),
        Verdict::Sat(a) => Ok(Decision::Breaks(build(alloc, voc, &sk, &u, &g, &a)?)),
        Verdict::Spent(log) => Ok(Decision::Spent(log)),
    }
}
