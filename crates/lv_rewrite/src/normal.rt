ghost use Rattle.std.specs.Prelude.{◌≡◌, ◌∷◌, [], IfOk, true, false};
ghost use Rattle.lv_formula.specs.Meaning.{Meaning};
ghost use Rattle.lv_formula.specs.Truth.{Env, truth_in};
ghost use Rattle.lv_rewrite.specs.Normal.{nnf_of, nnf_of_all, signed};

use lv_formula::{Formula, List, Memory, Rc, all, any, not};
use std::alloc::Global;

/// The negation normal form of the formula, or of its negation where `positive` is false: it has no
/// implication and no equivalence, and a negation stands at atoms and equations alone. It is true exactly
/// where the formula, or its negation, is.
///
/// An equivalence has both of its sides twice, so the normal form can be much larger than the formula. The
/// error is want of memory.
pub fn nnf(alloc: Global, f: &Formula, positive: bool) -> Result<Formula, Memory>
    ensures value { IfOk result (λ g. g ≡ nnf_of f.now positive) }
    ensures truth { IfOk result (λ g. (m : Meaning) (env : Env) → truth_in m g env ≡ signed positive (truth_in m f.now env)) }
{
    normal_form(alloc, f, positive)
}

#[cycle(normal_form)]
fn normal_form(alloc: Global, f: &Formula, positive: bool) -> Result<Formula, Memory>
    ensures { IfOk result (λ g. g ≡ nnf_of f.now positive) }
{
    if positive {
        affirmed(alloc, f)
    } else {
        negated(alloc, f)
    }
}

/// The normal form of the formula itself.
#[cycle(normal_form)]
fn affirmed(alloc: Global, f: &Formula) -> Result<Formula, Memory>
    ensures { IfOk result (λ g. g ≡ nnf_of f.now true) }
{
    match f {
        Formula::True | Formula::False | Formula::Atom(_, _) | Formula::Same(_, _) => f.share(
            alloc,
        ),
        Formula::Not(f) => normal_form(alloc, f, false),
        Formula::And(fs) => Ok(Formula::And(each_normal(alloc, fs.as_slice(), true)?)),
        Formula::Or(fs) => Ok(Formula::Or(each_normal(alloc, fs.as_slice(), true)?)),
        Formula::Implies(a, b) => either(
            alloc,
            normal_form(alloc, a, false)?,
            normal_form(alloc, b, true)?,
        ),
        Formula::Iff(a, b) => {
            let there = either(
                alloc,
                normal_form(alloc, a, false)?,
                normal_form(alloc, b, true)?,
            )?;
            let back = either(
                alloc,
                normal_form(alloc, b, false)?,
                normal_form(alloc, a, true)?,
            )?;
            both(alloc, there, back)
        }
        Formula::All(sort, f) => all(alloc, *sort, normal_form(alloc, f, true)?),
        Formula::Any(sort, f) => any(alloc, *sort, normal_form(alloc, f, true)?),
    }
}

/// The normal form of the formula's negation.
#[cycle(normal_form)]
fn negated(alloc: Global, f: &Formula) -> Result<Formula, Memory>
    ensures { IfOk result (λ g. g ≡ nnf_of f.now false) }
{
    match f {
        Formula::True => Ok(Formula::False),
        Formula::False => Ok(Formula::True),
        Formula::Atom(_, _) | Formula::Same(_, _) => not(alloc, f.share(alloc)?),
        Formula::Not(f) => normal_form(alloc, f, true),
        Formula::And(fs) => Ok(Formula::Or(each_normal(alloc, fs.as_slice(), false)?)),
        Formula::Or(fs) => Ok(Formula::And(each_normal(alloc, fs.as_slice(), false)?)),
        Formula::Implies(a, b) => both(
            alloc,
            normal_form(alloc, a, true)?,
            normal_form(alloc, b, false)?,
        ),
        Formula::Iff(a, b) => {
            let some = either(
                alloc,
                normal_form(alloc, a, true)?,
                normal_form(alloc, b, true)?,
            )?;
            let not_all = either(
                alloc,
                normal_form(alloc, a, false)?,
                normal_form(alloc, b, false)?,
            )?;
            both(alloc, some, not_all)
        }
        Formula::All(sort, f) => any(alloc, *sort, normal_form(alloc, f, false)?),
        Formula::Any(sort, f) => all(alloc, *sort, normal_form(alloc, f, false)?),
    }
}

#[cycle(normal_form)]
fn each_normal(
    alloc: Global,
    fs: &[Rc<Formula>],
    positive: bool,
) -> Result<List<Rc<Formula>>, Memory>
    ensures { IfOk result (λ gs. gs ≡ nnf_of_all fs.now positive) }
{
    let mut all = Vec::new(alloc);
    for f in fs {
        all.push(Rc::new(alloc, normal_form(alloc, f, positive)?)?)?;
    }
    Ok(List::from_vec(all))
}

fn both(alloc: Global, a: Formula, b: Formula) -> Result<Formula, Memory>
    ensures { IfOk result (λ g. g ≡ Formula.And (a ∷ b ∷ [])) }
{
    Ok(Formula::And(pair(alloc, a, b)?))
}

fn either(alloc: Global, a: Formula, b: Formula) -> Result<Formula, Memory>
    ensures { IfOk result (λ g. g ≡ Formula.Or (a ∷ b ∷ [])) }
{
    Ok(Formula::Or(pair(alloc, a, b)?))
}

fn pair(alloc: Global, a: Formula, b: Formula) -> Result<List<Rc<Formula>>, Memory>
    ensures { IfOk result (λ fs. fs ≡ a ∷ b ∷ []) }
{
    let mut all = Vec::new(alloc);
    all.push(Rc::new(alloc, a)?)?;
    all.push(Rc::new(alloc, b)?)?;
    Ok(List::from_vec(all))
}
