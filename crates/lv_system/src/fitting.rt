//! Whether the parts of a system fit together.
ghost use Rattle.std.specs.Prelude.{◌≡◌, ◌∷◌, ◌<◌, ◌≤◌, ◌^◌, ◌-◌, [], length, reverse, slice_get};
ghost use Rattle.lv_formula.specs.Contexts.{context_of};
ghost use Rattle.lv_formula.specs.Fits.{none_free};
ghost use Rattle.lv_system.specs.Fits.{is_sort_below, are_sorts_below, params_fit, shape_fits, shapes_fit, formula_fits, formulas_fit, temporal_fits, axioms_fit, inits_fit, changing_shape, body_fits, term_fits, update_fits, updates_fit, target_of, is_target, targets_differ, action_fits, actions_fit, fair_fits, fairs_fit, is_always, shape_lent, label_fits, labels_fit, witness_fits, witnesses_fit, property_fits, invariant_fits, invariants_fit, fits_parts};
ghost use Rattle.lv_system.specs.Limits.{counts_fit};
ghost use Rattle.lv_system.specs.Step.{symbol_at};
ghost use Rattle.lv_system.specs.Lookups.{vocabulary_of, free_in};
ghost use Rattle.lv_system.specs.Vocabularies.{own_vocabulary, witness_vocabulary};

use crate::limits::{IN_ITEM, IN_PART, is_small_formula};
use crate::names::names_of_parts_fit;
use crate::parts::{
    Action, ActionUpdate, Fair, Invariant, LabelDecl, Parts, Shape, Symbol, WitnessDecl,
};
use crate::temporal_limits::is_small_temporal_formula;
use crate::usable::Usable;
use lv_formula::{Formula, Scope, SortId, Temporal, Term, has_sort_in};

/// Whether the parts meet the scopes, sorts and limits of systems. Takes no memory.
///
/// What concerns the table of labels is left aside: how many labels there are and with how many free
/// variables, whether two declarations name one label, whether the parameters of a declaration are the free
/// variables of its formula in order, and, of the words of labels in invariants, whether there is such a label
/// and with which arguments: of these only the scopes are looked at.
pub fn fits(parts: &Parts) -> bool
    ensures { result ≡ fits_parts parts.now }
{
    counts_are_in_limits(parts)
        && names_of_parts_fit(parts)
        && all_shapes_fit(parts.symbols.as_slice(), parts)
        && all_formulas_fit(parts.axioms.as_slice(), &Usable::Fixed(parts))
        && all_formulas_fit(parts.inits.as_slice(), &Usable::Own(parts))
        && all_actions_fit(parts.actions.as_slice(), parts)
        && all_fairs_fit(parts.fairs.as_slice(), parts)
        && all_labels_fit(parts.labels.as_slice(), parts)
        && all_witnesses_fit(parts.witnesses.as_slice(), parts)
        && closed_temporal_fits(&parts.property, parts)
        && all_invariants_fit(parts.invariants.as_slice(), parts)
}

/// Whether there are at most as many items of each kind as a system may have.
fn counts_are_in_limits(parts: &Parts) -> bool
    ensures { result ≡ counts_fit parts.now }
{
    parts.sorts.as_slice().len() <= 16
        && parts.symbols.as_slice().len() <= 256
        && parts.axioms.as_slice().len() <= 64
        && parts.inits.as_slice().len() <= 64
        && parts.actions.as_slice().len() <= 32
        && parts.fairs.as_slice().len() <= 16
        && parts.labels.as_slice().len() <= 32
        && parts.witnesses.as_slice().len() <= 16
        && parts.invariants.as_slice().len() <= 256
}

/// Whether the system has the sort.
fn is_a_sort(sort: SortId, parts: &Parts) -> bool
    ensures { result ≡ is_sort_below (length parts.now.sorts) sort }
{
    (sort.0 as usize) < parts.sorts.as_slice().len()
}

/// Whether the system has all of the sorts.
fn all_are_sorts(sorts: &[SortId], parts: &Parts) -> bool
    ensures { result ≡ are_sorts_below (length parts.now.sorts) sorts.now }
{
    for sort in sorts {
        if !is_a_sort(*sort, parts) {
            return false;
        }
    }
    true
}

/// Whether there are at most four sorts, and the system has all of them.
fn all_params_fit(params: &[SortId], parts: &Parts) -> bool
    ensures { result ≡ params_fit (length parts.now.sorts) params.now }
{
    params.len() <= 4 && all_are_sorts(params, parts)
}

fn one_shape_fits(shape: &Shape, parts: &Parts) -> bool
    ensures { result ≡ shape_fits (length parts.now.sorts) shape.now }
{
    match shape {
        Shape::Relation(params) => all_params_fit(params.as_slice(), parts),
        Shape::Constant(sort) => is_a_sort(*sort, parts),
    }
}

fn all_shapes_fit(symbols: &[Symbol], parts: &Parts) -> bool
    ensures { result ≡ shapes_fit (length parts.now.sorts) symbols.now }
{
    for symbol in symbols {
        if !one_shape_fits(&symbol.shape, parts) {
            return false;
        }
    }
    true
}

/// Whether the formula keeps its limits, and stands in the scope over the symbols.
#[tactic(auto, using(lv_formula::proofs::FitsLemmas::fits_where_none_is_free))]
fn one_formula_fits(f: &Formula, lists: u32, usable: &Usable, scope: &Scope) -> bool
    requires lists { lists < 2 ^ 32 - 1 }
    requires known { free_in usable.now ≡ none_free }
    ensures { result ≡ formula_fits lists (vocabulary_of usable.now) (context_of scope.now) f.now }
{
    is_small_formula(f, lists) && f.fits_over(usable, scope)
}

/// Whether each formula, an item's own, fits without free variables.
fn all_formulas_fit(fs: &[Formula], usable: &Usable) -> bool
    requires { free_in usable.now ≡ none_free }
    ensures { result ≡ formulas_fit (vocabulary_of usable.now) fs.now }
{
    for f in fs {
        if !one_formula_fits(f, IN_ITEM, usable, &Scope::Outer(&[])) {
            return false;
        }
    }
    true
}

fn one_temporal_fits(f: &Temporal, usable: &Usable, scope: &Scope) -> bool
    ensures { result ≡ temporal_fits (vocabulary_of usable.now) (context_of scope.now) f.now }
{
    is_small_temporal_formula(f) && f.fits_over(usable, scope)
}

fn closed_temporal_fits(f: &Temporal, parts: &Parts) -> bool
    ensures { result ≡ temporal_fits (own_vocabulary parts.now) [] f.now }
{
    one_temporal_fits(f, &Usable::Own(parts), &Scope::Outer(&[]))
}

/// The shape of the symbol with that number, where actions may change it.
fn shape_to_change(symbol: u32, parts: &Parts) -> Option<&Shape>
    ensures { shape_lent result ≡ changing_shape (symbol_at parts.now symbol) }
{
    let symbol = symbol as usize;
    let symbols = parts.symbols.as_slice();
    if symbol < symbols.len() && !symbols[symbol].fixed {
        Some(&symbols[symbol].shape)
    } else {
        None
    }
}

/// Whether the body of an update stands in the parameters and the arguments of the relation.
fn one_body_fits(body: &Formula, shape: Option<&Shape>, params: &[SortId], parts: &Parts) -> bool
    ensures { result ≡ body_fits parts.now params.now body.now (shape_lent shape.entry) }
{
    match shape {
        Some(Shape::Relation(sorts)) => one_formula_fits(
            body,
            IN_PART,
            &Usable::Own(parts),
            &Scope::Further(sorts.as_slice(), &Scope::Outer(params)),
        ),
        Some(Shape::Constant(_)) | None => false,
    }
}

/// Whether the term of an update stands in the parameters and has the sort of the constant.
fn one_term_fits(term: &Term, shape: Option<&Shape>, params: &[SortId], parts: &Parts) -> bool
    ensures { result ≡ term_fits parts.now params.now term.now (shape_lent shape.entry) }
{
    match shape {
        Some(Shape::Constant(sort)) => {
            has_sort_in(term, *sort, &Usable::Own(parts), &Scope::Outer(params))
        }
        Some(Shape::Relation(_)) | None => false,
    }
}

fn one_update_fits(update: &ActionUpdate, params: &[SortId], parts: &Parts) -> bool
    ensures { result ≡ update_fits parts.now params.now update.now }
{
    match update {
        ActionUpdate::Relation { symbol, body } => {
            one_body_fits(body, shape_to_change(*symbol, parts), params, parts)
        }
        ActionUpdate::Constant { symbol, term } => {
            one_term_fits(term, shape_to_change(*symbol, parts), params, parts)
        }
    }
}

fn all_updates_fit(updates: &[ActionUpdate], params: &[SortId], parts: &Parts) -> bool
    ensures { result ≡ updates_fit parts.now params.now updates.now }
{
    for update in updates {
        if !one_update_fits(update, params, parts) {
            return false;
        }
    }
    true
}

/// The number of the symbol that the update sets.
fn target(update: &ActionUpdate) -> u32
    ensures { result ≡ target_of update.now }
{
    match update {
        ActionUpdate::Relation { symbol, body: _ } => *symbol,
        ActionUpdate::Constant { symbol, term: _ } => *symbol,
    }
}

/// Whether one of the updates sets the symbol.
fn is_set(symbol: u32, updates: &[ActionUpdate]) -> bool
    ensures { result ≡ is_target symbol updates.now }
{
    for update in updates {
        if target(update) == symbol {
            return true;
        }
    }
    false
}

/// Whether no two of the updates set one symbol.
fn all_targets_differ(updates: &[ActionUpdate]) -> bool
    ensures { result ≡ targets_differ updates.now }
{
    for i in 0..updates.len() {
        if is_set(target(&updates[i]), &updates[i + 1..]) {
            return false;
        }
    }
    true
}

fn one_action_fits(action: &Action, parts: &Parts) -> bool
    ensures { result ≡ action_fits parts.now action.now }
{
    let params = action.params.as_slice();
    all_params_fit(params, parts)
        && one_formula_fits(
            &action.guard,
            IN_PART,
            &Usable::Own(parts),
            &Scope::Outer(params),
        )
        && all_updates_fit(action.updates.as_slice(), params, parts)
        && all_targets_differ(action.updates.as_slice())
}

fn all_actions_fit(actions: &[Action], parts: &Parts) -> bool
    ensures { result ≡ actions_fit parts.now actions.now }
{
    for action in actions {
        if !one_action_fits(action, parts) {
            return false;
        }
    }
    true
}

fn one_fair_fits(fair: &Fair, parts: &Parts) -> bool
    ensures { result ≡ fair_fits parts.now fair.now }
{
    let params = fair.params.as_slice();
    all_params_fit(params, parts)
        && one_formula_fits(
            &fair.condition,
            IN_ITEM,
            &Usable::Own(parts),
            &Scope::Outer(params),
        )
}

fn all_fairs_fit(fairs: &[Fair], parts: &Parts) -> bool
    ensures { result ≡ fairs_fit parts.now fairs.now }
{
    for fair in fairs {
        if !one_fair_fits(fair, parts) {
            return false;
        }
    }
    true
}

/// Whether the temporal formula is `always` of another.
fn says_always(f: &Temporal) -> bool
    ensures { result ≡ is_always f.now }
{
    match f {
        Temporal::Always(_) => true,
        _ => false,
    }
}

fn one_label_fits(label: &LabelDecl, parts: &Parts) -> bool
    ensures { result ≡ label_fits parts.now label.now }
{
    let params = label.params.as_slice();
    all_params_fit(params, parts)
        && says_always(&label.formula)
        && one_temporal_fits(&label.formula, &Usable::Own(parts), &Scope::Outer(params))
}

fn all_labels_fit(labels: &[LabelDecl], parts: &Parts) -> bool
    ensures { result ≡ labels_fit parts.now labels.now }
{
    for label in labels {
        if !one_label_fits(label, parts) {
            return false;
        }
    }
    true
}

fn one_witness_fits(n: u32, witness: &WitnessDecl, parts: &Parts) -> bool
    ensures { result ≡ witness_fits parts.now n witness.now }
{
    is_a_sort(witness.sort, parts)
        && one_temporal_fits(
            &witness.formula,
            &Usable::Witnesses(parts, n),
            &Scope::Outer(&[witness.sort]),
        )
}

fn all_witnesses_fit(witnesses: &[WitnessDecl], parts: &Parts) -> bool
    requires { length witnesses.now ≤ 16 }
    ensures { result ≡ witnesses_fit parts.now 0 witnesses.now }
{
    for (n, witness) in witnesses.iter().enumerate() {
        if !one_witness_fits(n as u32, witness, parts) {
            return false;
        }
    }
    true
}

fn one_invariant_fits(invariant: &Invariant, parts: &Parts) -> bool
    ensures { result ≡ invariant_fits parts.now invariant.now }
{
    is_small_formula(&invariant.formula, IN_ITEM)
        && invariant
            .formula
            .fits_over(&Usable::Invariants(parts), &Scope::Outer(&[]))
}

fn all_invariants_fit(invariants: &[Invariant], parts: &Parts) -> bool
    ensures { result ≡ invariants_fit parts.now invariants.now }
{
    for invariant in invariants {
        if !one_invariant_fits(invariant, parts) {
            return false;
        }
    }
    true
}
