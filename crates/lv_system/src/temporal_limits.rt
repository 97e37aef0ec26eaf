//! The measures of temporal formulas that limits are set on, each ending at the greatest number of its type.
ghost use Rattle.std.specs.Prelude.{◌≡◌};
ghost use Rattle.lv_formula.specs.Measures.{at_most_u32};
ghost use Rattle.lv_system.specs.TemporalLimits.{temporal_lists_of, temporal_lists_of_all, temporal_iffs_of, temporal_iffs_of_all, is_small_temporal};

use crate::limits::{IN_ITEM, MOST_IFFS, MOST_NODES, lists_of_terms};
use lv_formula::{Rc, Temporal};

/// How deep lists nest where the temporal formula is written.
#[cycle(lists)]
fn lists(f: &Temporal) -> u32
    ensures { result ≡ at_most_u32 (temporal_lists_of f.now) }
{
    match f {
        Temporal::True | Temporal::False => 0,
        Temporal::Atom(_, terms) => lists_of_terms(terms.as_slice()),
        Temporal::Same(_, _) => 1,
        Temporal::Not(f)
        | Temporal::All(_, f)
        | Temporal::Any(_, f)
        | Temporal::Always(f)
        | Temporal::Eventually(f) => lists(f).saturating_add(1),
        Temporal::And(fs) | Temporal::Or(fs) => lists_of_list(fs.as_slice()).saturating_add(1),
        Temporal::Implies(a, b) | Temporal::Iff(a, b) => lists(a).max(lists(b)).saturating_add(1),
    }
}

#[cycle(lists)]
fn lists_of_list(fs: &[Rc<Temporal>]) -> u32
    ensures { result ≡ at_most_u32 (temporal_lists_of_all fs.now) }
{
    let mut most = 0;
    for f in fs {
        most = most.max(lists(f));
    }
    most
}

/// The greatest number of equivalences that stand inside one another.
#[cycle(iffs)]
fn iffs(f: &Temporal) -> u32
    ensures { result ≡ at_most_u32 (temporal_iffs_of f.now) }
{
    match f {
        Temporal::True | Temporal::False | Temporal::Atom(_, _) | Temporal::Same(_, _) => 0,
        Temporal::Not(f)
        | Temporal::All(_, f)
        | Temporal::Any(_, f)
        | Temporal::Always(f)
        | Temporal::Eventually(f) => iffs(f),
        Temporal::And(fs) | Temporal::Or(fs) => iffs_of_list(fs.as_slice()),
        Temporal::Implies(a, b) => iffs(a).max(iffs(b)),
        Temporal::Iff(a, b) => iffs(a).max(iffs(b)).saturating_add(1),
    }
}

#[cycle(iffs)]
fn iffs_of_list(fs: &[Rc<Temporal>]) -> u32
    ensures { result ≡ at_most_u32 (temporal_iffs_of_all fs.now) }
{
    let mut most = 0;
    for f in fs {
        most = most.max(iffs(f));
    }
    most
}

/// Whether the temporal formula keeps its limits.
pub(crate) fn is_small_temporal_formula(f: &Temporal) -> bool
    ensures { result ≡ is_small_temporal f.now }
{
    f.nodes() <= MOST_NODES && iffs(f) <= MOST_IFFS && lists(f) <= IN_ITEM
}
