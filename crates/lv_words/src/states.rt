//! Formulas of one state, read from trees.
ghost use Rattle.std.specs.Prelude.{◌≡◌, IfOk};
ghost use Rattle.lv_fault.specs.Given.{Gives};
ghost use Rattle.lv_words.specs.Scopes.{scope_seen};
ghost use Rattle.lv_grammar.specs.ReadFormulas.{state_formula, state_formulas, formula_in, lone_formula};

use crate::formulas::read_temporal;
use crate::scope::Scope;
use crate::symbols::Setting;
use lv_fault::ReadText;
use lv_fault::trees::{finish, next};
use lv_formula::{Formula, List, Memory, Rc, Temporal, Terms};
use lv_tree::Tree;
use std::alloc::Global;

/// The formula as one of a state. It has no temporal operator.
#[cycle(state)]
fn of_state(alloc: Global, f: &Temporal) -> Result<Formula, Memory>
    ensures { IfOk result (λ g. g ≡ state_formula f.now) }
{
    Ok(match f {
        Temporal::True => Formula::True,
        Temporal::False => Formula::False,
        Temporal::Atom(sym, terms) => Formula::Atom(*sym, Terms::of(alloc, terms.as_slice())?),
        Temporal::Same(a, b) => Formula::Same(*a, *b),
        Temporal::Not(f) => lv_formula::not(alloc, of_state(alloc, &**f)?)?,
        Temporal::And(fs) => Formula::And(all_of_state(alloc, fs.as_slice())?),
        Temporal::Or(fs) => Formula::Or(all_of_state(alloc, fs.as_slice())?),
        Temporal::Implies(f, g) => {
            lv_formula::implies(alloc, of_state(alloc, &**f)?, of_state(alloc, &**g)?)?
        }
        Temporal::Iff(f, g) => {
            lv_formula::iff(alloc, of_state(alloc, &**f)?, of_state(alloc, &**g)?)?
        }
        Temporal::All(sort, f) => lv_formula::all(alloc, *sort, of_state(alloc, &**f)?)?,
        Temporal::Any(sort, f) => lv_formula::any(alloc, *sort, of_state(alloc, &**f)?)?,
        Temporal::Always(f) | Temporal::Eventually(f) => of_state(alloc, &**f)?,
    })
}

#[cycle(state)]
fn all_of_state(alloc: Global, fs: &[Rc<Temporal>]) -> Result<List<Rc<Formula>>, Memory>
    ensures { IfOk result (λ gs. gs ≡ state_formulas fs.now) }
{
    let mut all = Vec::new(alloc);
    for f in fs {
        all.push(Rc::new(alloc, of_state(alloc, &**f)?)?)?;
    }
    Ok(List::from_vec(all))
}

/// A whole formula without temporal operators.
#[tactic(auto, unfolding(lv_grammar::specs::ReadFormulas::formula_in))]
fn read_formula(
    alloc: Global,
    setting: &Setting,
    room: u32,
    scope: &Scope,
    tree: &Tree,
) -> Result<Formula, ReadText>
    ensures { Gives (λ x. x) result (formula_in setting.now.known.now setting.now.role room (scope_seen scope.now) tree.now) }
{
    let f = read_temporal(alloc, setting, room, scope, tree)?;
    Ok(of_state(alloc, &f)?)
}

/// One formula, and nothing behind it.
#[tactic(auto, unfolding(lv_grammar::specs::ReadFormulas::lone_formula))]
pub fn lone(
    alloc: Global,
    setting: &Setting,
    room: u32,
    scope: &Scope,
    end: u32,
    items: &[Tree],
) -> Result<Formula, ReadText>
    ensures { Gives (λ x. x) result (lone_formula setting.now.known.now setting.now.role room (scope_seen scope.now) end items.now) }
{
    let (first, rest) = next(end, items)?;
    let f = read_formula(alloc, setting, room, scope, first)?;
    finish(rest)?;
    Ok(f)
}
