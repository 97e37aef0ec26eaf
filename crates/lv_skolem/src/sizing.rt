//! The size of the ground form, counted up to one more than the greatest that is made.
ghost use Rattle.std.specs.Prelude.{◌≡◌, ◌≤◌, ◌<◌, ◌^◌, ◌+◌, ◌-◌, ◌*◌, map, IfOk};
ghost use Rattle.lv_places.specs.Forms.{form_of, forms_of};
ghost use Rattle.lv_places.specs.Universes.{count_at, product};
ghost use Rattle.lv_places.specs.Sizes.{form_nodes, forms_nodes, others, replacement_count, sort_count, sum_to, relations_count, places_count, size_of};
ghost use Rattle.lv_skolem.specs.Counting.{capped};

use crate::filling::count_of;
use lv_formula::{Formula, Memory, Rc, RelShape, SortId};
use lv_places::{Place, PlaceArg, Skolem};
use std::alloc::Global;

/// One more than the greatest size that is made.
const ENOUGH: u64 = 4_000_001;

/// The sum, as far as it matters.
pub(crate) fn add(a: u64, b: u64) -> u64
    requires { (a ≤ 4000001) × (b ≤ 4000001) }
    ensures { result ≡ capped (a + b) }
{
    (a + b).min(ENOUGH)
}

/// The product, as far as it matters.
fn multiply(a: u64, b: u64) -> u64
    requires { (a ≤ 4000001) × (b ≤ 4000001) }
    ensures { result ≡ capped (a * b) }
{
    (a * b).min(ENOUGH)
}

/// How many terms the sort has, as far as it matters.
fn capped_count(counts: &[u32], sort: SortId) -> u64
    ensures { result ≡ capped (count_at counts.now sort) }
{
    (count_of(counts, sort) as u64).min(ENOUGH)
}

/// The nodes of the normal form's ground form.
#[cycle(nodes)]
#[tactic(auto, using(crate::proofs::Capped::capped_small, crate::proofs::Capped::capped_next, crate::proofs::Capped::capped_each, crate::proofs::Capped::nodes_turned))]
fn nodes_of(f: &Formula, counts: &[u32]) -> u64
    ensures { result ≡ capped (form_nodes (count_at counts.now) (form_of f.now)) }
{
    match f {
        Formula::True | Formula::False | Formula::Atom(_, _) | Formula::Same(_, _) => 1,
        Formula::Implies(_, _) | Formula::Iff(_, _) => 1,
        Formula::Not(f) | Formula::Any(_, f) => nodes_of(f, counts),
        Formula::And(fs) | Formula::Or(fs) => add(1, nodes_of_all(fs.as_slice(), counts)),
        Formula::All(sort, f) => add(
            1,
            multiply(capped_count(counts, *sort), nodes_of(f, counts)),
        ),
    }
}

#[cycle(nodes)]
#[tactic(auto, using(crate::proofs::Capped::capped_small, crate::proofs::Capped::capped_sum))]
fn nodes_of_all(fs: &[Rc<Formula>], counts: &[u32]) -> u64
    ensures { result ≡ capped (forms_nodes (count_at counts.now) (forms_of fs.now)) }
{
    let mut sum = 0;
    for f in fs {
        sum = add(sum, nodes_of(f, counts));
    }
    sum
}

/// How many tuples of terms the sorts have.
#[tactic(auto, using(crate::proofs::Capped::capped_small, crate::proofs::Capped::capped_product))]
pub(crate) fn product_of(sorts: &[SortId], counts: &[u32]) -> u64
    ensures { result ≡ capped (product (count_at counts.now) sorts.now) }
{
    let mut all = 1;
    for i in (0..sorts.len()).rev() {
        all = multiply(capped_count(counts, sorts[i]), all);
    }
    all
}

/// How many other terms there are at all arguments together.
#[tactic(auto, using(crate::proofs::Capped::capped_small, crate::proofs::Capped::capped_others))]
fn others_of(sorts: &[SortId], counts: &[u32]) -> u64
    ensures { result ≡ capped (others (count_at counts.now) sorts.now) }
{
    let mut all = 0;
    for i in (0..sorts.len()).rev() {
        let count = count_of(counts, sorts[i]) as u64;
        all = add(count.saturating_sub(1).min(ENOUGH), all);
    }
    all
}

/// The replacement clauses of a relation or place with these sorts.
#[tactic(auto, using(crate::proofs::Capped::capped_small, crate::proofs::Capped::capped_both))]
fn replacements_of(sorts: &[SortId], counts: &[u32]) -> u64
    ensures { result ≡ capped (replacement_count (count_at counts.now) sorts.now) }
{
    multiply(others_of(sorts, counts), product_of(sorts, counts))
}

/// The reflexive, symmetric and transitive clauses of a sort with so many terms.
#[tactic(auto, using(crate::proofs::Capped::capped_small, crate::proofs::Capped::capped_sort))]
fn sort_clauses_of(count: u32) -> u64
    ensures { result ≡ capped (sort_count count) }
{
    let all = (count as u64).min(ENOUGH);
    let others = (count as u64).saturating_sub(1).min(ENOUGH);
    let third = (count as u64).saturating_sub(2).min(ENOUGH);
    add(
        all,
        add(
            multiply(all, others),
            multiply(all, multiply(others, third)),
        ),
    )
}

/// The same of all sorts together.
#[tactic(auto, using(crate::proofs::Capped::capped_small, crate::proofs::Capped::sum_next))]
fn all_sort_clauses(sorts: u32, counts: &[u32]) -> u64
    ensures { result ≡ capped (sum_to 0 sorts (λ i. sort_count (count_at counts.now (record { 0 = i })))) }
{
    let mut sum = 0;
    for s in 0..sorts {
        sum = add(sum, sort_clauses_of(count_of(counts, SortId(s))));
    }
    sum
}

/// The replacement clauses of all relations together.
#[tactic(auto, using(crate::proofs::Capped::capped_small, crate::proofs::Capped::capped_sum))]
fn relation_replacements(relations: &[RelShape], counts: &[u32]) -> u64
    ensures { result ≡ capped (relations_count (count_at counts.now) relations.now) }
{
    let mut sum = 0;
    for shape in relations {
        sum = add(sum, replacements_of(shape.sorts.as_slice(), counts));
    }
    sum
}

/// The sorts of the arguments.
pub(crate) fn sorts_of(alloc: Global, arguments: &[PlaceArg]) -> Result<Vec<SortId>, Memory>
    ensures { IfOk result (λ ss. ss.items ≡ map (λ a. a.sort) arguments.now) }
{
    let mut sorts = Vec::new(alloc);
    for argument in arguments {
        sorts.push(argument.sort)?;
    }
    Ok(sorts)
}

/// The replacement clauses of all places together.
#[tactic(auto, using(crate::proofs::Capped::capped_small, crate::proofs::Capped::capped_sum))]
fn place_replacements(alloc: Global, places: &[Place], counts: &[u32]) -> Result<u64, Memory>
    ensures { IfOk result (λ sum. sum ≡ capped (places_count (count_at counts.now) places.now)) }
{
    let mut sum = 0;
    for place in places {
        let sorts = sorts_of(alloc, place.arguments.as_slice())?;
        sum = add(sum, replacements_of(sorts.as_slice(), counts));
    }
    Ok(sum)
}

/// The nodes of all normal forms together.
#[tactic(auto, using(crate::proofs::Capped::capped_small, crate::proofs::Capped::capped_sum))]
fn all_nodes(forms: &[Formula], counts: &[u32]) -> u64
    ensures { result ≡ capped (forms_nodes (count_at counts.now) (forms_of forms.now)) }
{
    let mut sum = 0;
    for f in forms {
        sum = add(sum, nodes_of(f, counts));
    }
    sum
}

/// The size, as far as it matters.
#[tactic(auto, using(crate::proofs::Capped::capped_small, crate::proofs::Capped::capped_all))]
pub(crate) fn capped_size(alloc: Global, sk: &Skolem, counts: &[u32]) -> Result<u64, Memory>
    ensures { IfOk result (λ size. size ≡ capped (size_of sk.now (count_at counts.now))) }
{
    let places = place_replacements(alloc, sk.places.as_slice(), counts)?;
    let relations = relation_replacements(sk.relations.as_slice(), counts);
    let sorts = all_sort_clauses(sk.sorts, counts);
    Ok(add(
        all_nodes(sk.forms.as_slice(), counts),
        add(sorts, add(relations, places)),
    ))
}
