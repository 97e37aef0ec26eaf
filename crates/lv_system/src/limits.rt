//! The measures of formulas that limits are set on, each ending at the greatest number of its type.
ghost use Rattle.std.specs.Prelude.{◌≡◌, ◌<◌, ◌^◌, ◌-◌};
ghost use Rattle.lv_formula.specs.Measures.{at_most_u32};
ghost use Rattle.lv_system.specs.Limits.{lists_of_atom, lists_of, lists_of_all, iffs_of, iffs_of_all, is_small};

use lv_formula::{Formula, Rc, Term};

/// The lists that an atom with these terms is written with.
pub(crate) fn lists_of_terms(terms: &[Term]) -> u32
    ensures { result ≡ lists_of_atom terms.now }
{
    match terms {
        [] => 0,
        [_, ..] => 1,
    }
}

/// How deep lists nest where the formula is written.
#[cycle(lists)]
fn lists(f: &Formula) -> u32
    ensures { result ≡ at_most_u32 (lists_of f.now) }
{
    match f {
        Formula::True | Formula::False => 0,
        Formula::Atom(_, terms) => lists_of_terms(terms.as_slice()),
        Formula::Same(_, _) => 1,
        Formula::Not(f) | Formula::All(_, f) | Formula::Any(_, f) => lists(f).saturating_add(1),
        Formula::And(fs) | Formula::Or(fs) => lists_of_list(fs.as_slice()).saturating_add(1),
        Formula::Implies(a, b) | Formula::Iff(a, b) => lists(a).max(lists(b)).saturating_add(1),
    }
}

#[cycle(lists)]
fn lists_of_list(fs: &[Rc<Formula>]) -> u32
    ensures { result ≡ at_most_u32 (lists_of_all fs.now) }
{
    let mut most = 0;
    for f in fs {
        most = most.max(lists(f));
    }
    most
}

/// The greatest number of equivalences that stand inside one another.
#[cycle(iffs)]
fn iffs(f: &Formula) -> u32
    ensures { result ≡ at_most_u32 (iffs_of f.now) }
{
    match f {
        Formula::True | Formula::False | Formula::Atom(_, _) | Formula::Same(_, _) => 0,
        Formula::Not(f) | Formula::All(_, f) | Formula::Any(_, f) => iffs(f),
        Formula::And(fs) | Formula::Or(fs) => iffs_of_list(fs.as_slice()),
        Formula::Implies(a, b) => iffs(a).max(iffs(b)),
        Formula::Iff(a, b) => iffs(a).max(iffs(b)).saturating_add(1),
    }
}

#[cycle(iffs)]
fn iffs_of_list(fs: &[Rc<Formula>]) -> u32
    ensures { result ≡ at_most_u32 (iffs_of_all fs.now) }
{
    let mut most = 0;
    for f in fs {
        most = most.max(iffs(f));
    }
    most
}

/// The most nodes of a formula.
pub(crate) const MOST_NODES: u64 = 1024;

/// The most equivalences that stand inside one another.
pub(crate) const MOST_IFFS: u32 = 2;

/// How deep lists may nest in a formula that is an item's own.
pub(crate) const IN_ITEM: u32 = 58;

/// How deep lists may nest in a guard or in the body of an update.
pub(crate) const IN_PART: u32 = 57;

/// Whether the formula keeps its limits, where lists in it may nest so deep.
pub(crate) fn is_small_formula(f: &Formula, most_lists: u32) -> bool
    requires { most_lists < 2 ^ 32 - 1 }
    ensures { result ≡ is_small most_lists f.now }
{
    f.nodes() <= MOST_NODES && iffs(f) <= MOST_IFFS && lists(f) <= most_lists
}
