ghost use Rattle.std.specs.Prelude.{◌≡◌};
ghost use Rattle.lv_formula.specs.Contexts.{context_of};
ghost use Rattle.lv_formula.specs.TemporalFits.{temporal_fits_in, all_temporal_fit_in};

use crate::lookup::Lookup;
use crate::rc::Rc;
use crate::scope::{Scope, atom_fits, have_one_sort};
use crate::temporal::Temporal;

/// Whether the temporal formula stands in the scope. No relation of it is free.
#[cycle(fits)]
pub(crate) fn temporal_fits_in_scope<L: Lookup>(f: &Temporal, lookup: &L, scope: &Scope) -> bool
    ensures { result ≡ temporal_fits_in (L.vocabulary lookup.now) (context_of scope.now) f.now }
{
    match f {
        Temporal::True | Temporal::False => true,
        Temporal::Atom(sym, terms) => atom_fits(sym, terms.as_slice(), lookup, scope),
        Temporal::Same(a, b) => have_one_sort(a, b, lookup, scope),
        Temporal::Not(f) | Temporal::Always(f) | Temporal::Eventually(f) => {
            temporal_fits_in_scope(f, lookup, scope)
        }
        Temporal::And(fs) | Temporal::Or(fs) => all_fit_in_scope(fs.as_slice(), lookup, scope),
        Temporal::Implies(a, b) | Temporal::Iff(a, b) => {
            temporal_fits_in_scope(a, lookup, scope) && temporal_fits_in_scope(b, lookup, scope)
        }
        Temporal::All(sort, f) | Temporal::Any(sort, f) => {
            lookup.has_sort(*sort)
                && temporal_fits_in_scope(f, lookup, &Scope::Inner(*sort, &*scope))
        }
    }
}

/// Whether each temporal formula stands in the scope.
#[cycle(fits)]
fn all_fit_in_scope<L: Lookup>(fs: &[Rc<Temporal>], lookup: &L, scope: &Scope) -> bool
    ensures { result ≡ all_temporal_fit_in (L.vocabulary lookup.now) (context_of scope.now) fs.now }
{
    for f in fs {
        if !temporal_fits_in_scope(f, lookup, scope) {
            return false;
        }
    }
    true
}
