//! Temporal formulas with their free variables renamed.
ghost use Rattle.std.specs.Prelude.{◌≡◌, IfOk, map};
ghost use Rattle.lv_labels.specs.Renaming.{renamed, renamed_all, renamed_term, renumbered};
ghost use Rattle.lv_labels.specs.Renamings.{renaming_of};

use crate::build::{all, always, any, eventually, iff, implies, not};
use crate::sharing::number;
use crate::variables::place;
use lv_formula::{List, Memory, Rc, Temporal, Term, Terms};
use std::alloc::Global;

/// A renaming of variables in parts, so that it can go under binders without memory.
#[derive(Drop)]
pub(crate) enum Renaming<'a> {
    /// The numbering of the listed variables, of which the first is the outermost.
    Listed(&'a [u32]),
    /// A renaming under one more binder.
    Under(&'a Renaming<'a>),
}

impl<'a> Renaming<'a> {
    /// What the variable becomes. A number past the greatest `u32` has no place in memory.
    fn of(&self, v: u32) -> Result<u32, Memory>
        ensures { IfOk result (λ w. w ≡ renaming_of self.now v) }
    {
        match self {
            Renaming::Listed(variables) => renumbered(variables, v),
            Renaming::Under(outer) => {
                if v == 0 {
                    return Ok(0);
                }
                number(outer.of(v - 1)? as usize + 1)
            }
        }
    }
}

/// The variable that stands for `v` where the listed ones alone are free, the first of them outermost.
/// All others would go above.
#[tactic(auto, using(crate::proofs::Places::renumbered_known, crate::proofs::Places::renumbered_unknown))]
fn renumbered(variables: &[u32], v: u32) -> Result<u32, Memory>
    ensures { IfOk result (λ w. w ≡ renumbered variables.now v) }
{
    let place = place(variables, v);
    if place < variables.len() {
        number(variables.len() - 1 - place)
    } else {
        number(variables.len() + v as usize)
    }
}

/// The formula with each free variable renamed. The error is want of memory.
#[cycle(rename)]
pub(crate) fn rename(alloc: Global, f: &Temporal, to: &Renaming) -> Result<Temporal, Memory>
    ensures { IfOk result (λ g. g ≡ renamed f.now (renaming_of to.now)) }
{
    Ok(match f {
        Temporal::True => Temporal::True,
        Temporal::False => Temporal::False,
        Temporal::Atom(sym, terms) => Temporal::Atom(
            *sym,
            rename_terms(alloc, terms.as_slice(), to)?,
        ),
        Temporal::Same(a, b) => Temporal::Same(rename_term(a, to)?, rename_term(b, to)?),
        Temporal::Not(f) => not(alloc, rename(alloc, f, to)?)?,
        Temporal::And(fs) => Temporal::And(rename_all(alloc, fs.as_slice(), to)?),
        Temporal::Or(fs) => Temporal::Or(rename_all(alloc, fs.as_slice(), to)?),
        Temporal::Implies(a, b) => implies(alloc, rename(alloc, a, to)?, rename(alloc, b, to)?)?,
        Temporal::Iff(a, b) => iff(alloc, rename(alloc, a, to)?, rename(alloc, b, to)?)?,
        Temporal::All(sort, f) => all(alloc, *sort, rename(alloc, f, &Renaming::Under(&*to))?)?,
        Temporal::Any(sort, f) => any(alloc, *sort, rename(alloc, f, &Renaming::Under(&*to))?)?,
        Temporal::Always(f) => always(alloc, rename(alloc, f, to)?)?,
        Temporal::Eventually(f) => eventually(alloc, rename(alloc, f, to)?)?,
    })
}

#[cycle(rename)]
fn rename_all(
    alloc: Global,
    fs: &[Rc<Temporal>],
    to: &Renaming,
) -> Result<List<Rc<Temporal>>, Memory>
    ensures { IfOk result (λ gs. gs ≡ renamed_all fs.now (renaming_of to.now)) }
{
    let mut all = Vec::new(alloc);
    for f in fs {
        all.push(Rc::new(alloc, rename(alloc, f, to)?)?)?;
    }
    Ok(List::from_vec(all))
}

fn rename_terms(alloc: Global, terms: &[Term], to: &Renaming) -> Result<Terms, Memory>
    ensures { IfOk result (λ ts. ts ≡ map (renamed_term (renaming_of to.now)) terms.now) }
{
    let mut all = Vec::new(alloc);
    for term in terms {
        all.push(rename_term(term, to)?)?;
    }
    Terms::of(alloc, all.as_slice())
}

fn rename_term(term: &Term, to: &Renaming) -> Result<Term, Memory>
    ensures { IfOk result (λ t. t ≡ renamed_term (renaming_of to.now) term.now) }
{
    Ok(match term {
        Term::Var(v) => Term::Var(to.of(*v)?),
        Term::Const(sym) => Term::Const(*sym),
    })
}
