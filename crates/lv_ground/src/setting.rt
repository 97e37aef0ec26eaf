//! What the instances of sentences look up.
ghost use Rattle.std.specs.Prelude.{◌≡◌, ℕ, ◌<◌, ◌+◌, ◌^◌, map, length, get_or, slice_set, IfOk, OnOk};
ghost use Rattle.lv_formula.specs.declared.symbols.SortId.{SortId};
ghost use Rattle.lv_places.specs.Universes.{count_at, product, constant_terms, IsUniverse};
ghost use Rattle.lv_places.proofs.Universes.{IsRanged};
ghost use Rattle.lv_ground.specs.Positions.{relation_rows, rows_to};
ghost use Rattle.lv_ground.specs.Settings.{IsReady, AreUsed, AreFirsts, AreRelationStarts, AreSortStarts, AreKnown};

use lv_formula::{Memory, SortId};
use lv_places::{PlaceArg, Skolem};
use lv_skolem::Universe;
use std::alloc::Global;

/// Sentences, and what their instances look up.
#[derive(Drop)]
pub(crate) struct Setting<'a> {
    pub(crate) sk: &'a Skolem,
    /// How many terms each sort has.
    pub(crate) counts: Vec<u32>,
    /// The number of the first term of each place.
    pub(crate) firsts: Vec<u32>,
    /// How many atoms the relations before each one have, and last how many all of them have.
    pub(crate) relations: Vec<u32>,
    /// How many atoms the relations and the sorts before each one have, and last how many there are.
    pub(crate) sorts: Vec<u32>,
}

/// The number as a `u32`. More atoms or terms than that have no room in memory.
fn small(number: usize) -> Result<u32, Memory>
    ensures same { IfOk result (λ n. n ≡ number) }
    ensures few { OnOk result (number < 2 ^ 32) }
{
    if number > u32::MAX as usize {
        return Err(Memory);
    }
    Ok(number as u32)
}

/// How many terms the sort has.
pub(crate) fn count_of(counts: &[u32], sort: SortId) -> u32
    ensures { result ≡ count_at counts.now sort }
{
    let at = sort.0 as usize;
    if at < counts.len() { counts[at] } else { 0 }
}

/// How many terms each sort has.
fn counts_of(alloc: Global, u: &Universe) -> Result<Vec<u32>, Memory>
    ensures { IfOk result (λ counts. counts.items ≡ map (λ terms. length terms) u.now.terms) }
{
    let mut counts = Vec::new(alloc);
    for terms in u.terms.as_slice() {
        counts.push(small(terms.as_slice().len())?)?;
    }
    Ok(counts)
}

/// How many tuples of terms the sorts have.
pub(crate) fn product_of(counts: &[u32], sorts: &[SortId]) -> Result<u32, Memory>
    ensures { IfOk result (λ k. k ≡ product (count_at counts.now) sorts.now) }
{
    let mut all: u32 = 1;
    for i in (0..sorts.len()).rev() {
        all = count_of(counts, sorts[i]).checked_mul(all).ok_or(Memory)?;
    }
    Ok(all)
}

/// The sorts of the arguments.
pub(crate) fn sorts_of(alloc: Global, arguments: &[PlaceArg]) -> Result<Vec<SortId>, Memory>
    ensures { IfOk result (λ ss. ss.items ≡ map (λ a. a.sort) arguments.now) }
{
    let mut sorts = Vec::new(alloc);
    for argument in arguments {
        sorts.push(argument.sort)?;
    }
    Ok(sorts)
}

/// No terms yet for each of so many sorts.
fn none_used(alloc: Global, sorts: u32) -> Result<Vec<u32>, Memory>
    ensures len { IfOk result (λ used. length used.items ≡ sorts) }
    ensures none { IfOk result (λ used. (i : ℕ) → get_or used.items i 0 ≡ 0) }
{
    let mut used = Vec::new(alloc);
    for _s in 0..sorts {
        used.push(0)?;
    }
    Ok(used)
}

/// Counts so many more terms of the sort, and gives how many there were.
fn use_more(used: &mut Vec<u32>, sort: SortId, more: u32) -> Result<u32, Memory>
    requires { sort.0 < length used.old.items }
    ensures before { IfOk result (λ first. first ≡ count_at used.old.items sort) }
    ensures room { IfOk result (λ first. first + more < 2 ^ 32) }
    ensures after { OnOk result (used.new.items ≡ slice_set used.old.items sort.0 (count_at used.old.items sort + more)) }
{
    let at = sort.0 as usize;
    let first = used[at];
    used[at] = first.checked_add(more).ok_or(Memory)?;
    Ok(first)
}

/// How many constants each sort has.
fn used_by_constants(alloc: Global, sk: &Skolem) -> Result<Vec<u32>, Memory>
    requires { IsRanged sk.now }
    ensures { IfOk result (λ used. AreUsed sk.now (λ s. length (constant_terms s sk.now.constants)) used.items) }
{
    let mut used = none_used(alloc, sk.sorts)?;
    for shape in sk.constants.as_slice() {
        use_more(&mut used, shape.sort, 1)?;
    }
    Ok(used)
}

/// The number of the first term of each place.
fn first_terms(alloc: Global, sk: &Skolem, counts: &[u32]) -> Result<Vec<u32>, Memory>
    requires { IsRanged sk.now }
    ensures { IfOk result (λ firsts. AreFirsts sk.now (count_at counts.now) (length sk.now.places) firsts.items) }
{
    let mut used = used_by_constants(alloc, sk)?;
    let mut firsts = Vec::new(alloc);
    for place in sk.places.as_slice() {
        let sorts = sorts_of(alloc, place.arguments.as_slice())?;
        let terms = product_of(counts, sorts.as_slice())?;
        firsts.push(use_more(&mut used, place.sort, terms)?)?;
    }
    Ok(firsts)
}

/// How many atoms the relations before each one have, and last how many all of them have.
fn relation_starts(alloc: Global, sk: &Skolem, counts: &[u32]) -> Result<Vec<u32>, Memory>
    ensures { IfOk result (λ starts. AreRelationStarts sk.now (count_at counts.now) (length sk.now.relations) starts.items) }
{
    let mut all: u32 = 0;
    let mut starts = vec![in alloc; all]?;
    for shape in sk.relations.as_slice() {
        let atoms = product_of(counts, shape.sorts.as_slice())?;
        all = all.checked_add(atoms).ok_or(Memory)?;
        starts.push(all)?;
    }
    Ok(starts)
}

/// How many atoms the relations and the sorts before each sort have, and last how many there are.
fn sort_starts(
    alloc: Global,
    sk: &Skolem,
    counts: &[u32],
    relations: u32,
) -> Result<Vec<u32>, Memory>
    requires { relations ≡ relation_rows (count_at counts.now) sk.now.relations }
    ensures { IfOk result (λ starts. AreSortStarts sk.now (count_at counts.now) sk.now.sorts starts.items) }
{
    let mut all = relations;
    let mut starts = vec![in alloc; all]?;
    for s in 0..sk.sorts {
        let atoms = product_of(counts, &[SortId(s), SortId(s)])?;
        all = all.checked_add(atoms).ok_or(Memory)?;
        starts.push(all)?;
    }
    Ok(starts)
}

impl<'a> Setting<'a> {
    ghost use Rattle.lv_ground.specs.Settings.{IsReady};

    /// What the instances of the sentences look up. The only error is want of memory.
    pub(crate) fn new(alloc: Global, sk: &'a Skolem, u: &Universe) -> Result<Setting<'a>, Memory>
        requires range { IsRanged sk.now }
        requires known { AreKnown sk.now.relations }
        requires universe { IsUniverse sk.now u.now.terms }
        ensures same { IfOk result (λ setting. setting.sk.now ≡ sk.now) }
        ensures counts { IfOk result (λ setting. setting.counts.items ≡ map (λ terms. length terms) u.now.terms) }
        ensures ready { IfOk result (λ setting. IsReady setting) }
    {
        let _places = small(sk.places.as_slice().len())?;
        let counts = counts_of(alloc, u)?;
        let firsts = first_terms(alloc, sk, counts.as_slice())?;
        let relations = relation_starts(alloc, sk, counts.as_slice())?;
        let last = relations[sk.relations.as_slice().len()];
        let sorts = sort_starts(alloc, sk, counts.as_slice(), last)?;
        Ok(Setting {
            sk,
            counts,
            firsts,
            relations,
            sorts,
        })
    }
}
