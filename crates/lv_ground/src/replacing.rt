//! The clauses that let equal terms replace each other in relations and places.
ghost use Rattle.std.specs.Prelude.{◌≡◌, ◌<◌, ◌+◌, ◌++◌, [], ◌∷◌, length, get_or, slice_set, Some, IfOk, OnOk};
ghost use Rattle.lv_formula.specs.declared.symbols.SortId.{SortId};
ghost use Rattle.lv_formula.specs.Vocabulary.{relation_in};
ghost use Rattle.lv_places.specs.declared.terms.TermId.{TermId};
ghost use Rattle.lv_places.specs.declared.grounded.GroundAtom.TheVariants as make;
ghost use Rattle.lv_places.specs.Universes.{term, argument_sorts, tuples};
ghost use Rattle.lv_places.specs.Equality.{is, is_not, each_of, each_in, relation_change, place_change, replacements_at, replacements, relation_clauses, place_clauses};
ghost use Rattle.lv_places.proofs.Universes.{AreTerms, Every_in};
ghost use Rattle.lv_ground.specs.Positions.{IsPossible, sort};
ghost use Rattle.lv_ground.specs.Settings.{IsReady, numbers};
ghost use Rattle.lv_ground.specs.Marked.{AreMarked};
ghost use Rattle.lv_ground.specs.Instances.{place_with, place_number};
ghost use Rattle.lv_ground.specs.Making.{Makes, IsApplied, change_of, other_at};

use crate::atoms::number;
use crate::equalities::{Equalities, push_clause};
use crate::setting::{Setting, count_of, sorts_of};
use crate::terms::place_at;
use crate::tuples::tuples_of;
use lv_cnf::Lit;
use lv_formula::{List, Memory, SortId, Sym};
use lv_places::{GroundAtom, TermId};
use std::alloc::Global;

/// What has arguments.
#[derive(Clone, Copy, Debug, Drop)]
pub(crate) enum Applied {
    Relation(Sym),
    /// A place, by its number.
    Place(u32),
}

/// The atom of a relation at the tuple.
fn relation_atom(alloc: Global, sym: Sym, tuple: &[TermId]) -> Result<GroundAtom, Memory>
    ensures { IfOk result (λ a. a ≡ make.Relation sym tuple.now) }
{
    Ok(GroundAtom::Relation {
        sym,
        terms: List::from_vec(Vec::from_slice(alloc, tuple)?),
    })
}

/// The clause that if two terms are equal and a relation holds for the first tuple, it holds for the second.
fn push_relation(
    alloc: Global,
    setting: &Setting,
    made: &mut Equalities,
    sym: Sym,
    equal: GroundAtom,
    from: &[TermId],
    to: &[TermId],
) -> Result<(), Memory>
    requires ready { IsReady setting.now }
    requires marked { AreMarked setting.now made.old.atoms }
    requires equal { IsPossible setting.now.sk.now (numbers setting.now) equal }
    requires from { IsPossible setting.now.sk.now (numbers setting.now) (make.Relation sym from.now) }
    requires to { IsPossible setting.now.sk.now (numbers setting.now) (make.Relation sym to.now) }
    ensures { OnOk result (Makes setting.now made.old ((is_not equal ∷ is_not (make.Relation sym from.now) ∷ is (make.Relation sym to.now) ∷ []) ∷ []) made.new) }
{
    let same = number(setting, &mut made.atoms, equal)?;
    let first = number(setting, &mut made.atoms, relation_atom(alloc, sym, from)?)?;
    let second = number(setting, &mut made.atoms, relation_atom(alloc, sym, to)?)?;
    let lits = [
        Lit::negative(same),
        Lit::negative(first),
        Lit::positive(second),
    ];
    push_clause(alloc, &mut made.clauses, &lits)
}

/// The clause that if two terms are equal, the terms of a place at the two tuples are.
fn push_place(
    alloc: Global,
    setting: &Setting,
    made: &mut Equalities,
    place: u32,
    equal: GroundAtom,
    from: &[TermId],
    to: &[TermId],
) -> Result<(), Memory>
    requires ready { IsReady setting.now }
    requires marked { AreMarked setting.now made.old.atoms }
    requires there { place < length setting.now.sk.now.places }
    requires equal { IsPossible setting.now.sk.now (numbers setting.now) equal }
    requires both { IsPossible setting.now.sk.now (numbers setting.now) (make.Equal (place_number setting.now place from.now) (place_number setting.now place to.now)) }
    ensures { OnOk result (Makes setting.now made.old ((is_not equal ∷ is (make.Equal (place_number setting.now place from.now) (place_number setting.now place to.now)) ∷ []) ∷ []) made.new) }
{
    let left = place_at(setting, place, from)?;
    let right = place_at(setting, place, to)?;
    let same = number(setting, &mut made.atoms, equal)?;
    let both = number(setting, &mut made.atoms, GroundAtom::Equal { left, right })?;
    let lits = [Lit::negative(same), Lit::positive(both)];
    push_clause(alloc, &mut made.clauses, &lits)
}

/// The tuple with another term at a place.
fn replaced(alloc: Global, tuple: &[TermId], at: usize, term: TermId) -> Result<Vec<TermId>, Memory>
    requires { at < length tuple.now }
    ensures { IfOk result (λ ts. ts.items ≡ slice_set tuple.now at term) }
{
    let mut all = Vec::from_slice(alloc, tuple)?;
    all[at] = term;
    Ok(all)
}

/// The clause that lets another term of its sort replace an argument.
fn push_other(
    alloc: Global,
    setting: &Setting,
    made: &mut Equalities,
    head: Applied,
    sorts: &[SortId],
    at: usize,
    tuple: &[TermId],
    other: u32,
) -> Result<(), Memory>
    requires ready { IsReady setting.now }
    requires marked { AreMarked setting.now made.old.atoms }
    requires applied { IsApplied setting.now head sorts.now }
    requires tuple { AreTerms (numbers setting.now) sorts.now tuple.now }
    requires at { at < length sorts.now }
    requires other { other < numbers setting.now (get_or sorts.now at (sort 0)) }
    ensures { OnOk result (Makes setting.now made.old (other_at setting.now head sorts.now at tuple.now other) made.new) }
{
    let left = tuple[at];
    if left.place == other {
        return Ok(());
    }
    let right = TermId {
        sort: sorts[at],
        place: other,
    };
    let to = replaced(alloc, tuple, at, right)?;
    let equal = GroundAtom::Equal { left, right };
    match head {
        Applied::Relation(sym) => push_relation(
            alloc,
            setting,
            made,
            sym,
            equal,
            tuple,
            to.as_slice(),
        ),
        Applied::Place(place) => push_place(
            alloc,
            setting,
            made,
            place,
            equal,
            tuple,
            to.as_slice(),
        ),
    }
}

/// The clauses that let each other term replace an argument.
fn push_others(
    alloc: Global,
    setting: &Setting,
    made: &mut Equalities,
    head: Applied,
    sorts: &[SortId],
    at: usize,
    tuple: &[TermId],
) -> Result<(), Memory>
    requires ready { IsReady setting.now }
    requires marked { AreMarked setting.now made.old.atoms }
    requires applied { IsApplied setting.now head sorts.now }
    requires tuple { AreTerms (numbers setting.now) sorts.now tuple.now }
    requires at { at < length sorts.now }
    ensures { OnOk result (Makes setting.now made.old (each_of 0 (numbers setting.now (get_or sorts.now at (sort 0))) (other_at setting.now head sorts.now at tuple.now)) made.new) }
{
    for other in 0..count_of(setting.counts.as_slice(), sorts[at]) {
        push_other(alloc, setting, made, head, sorts, at, tuple, other)?;
    }
    Ok(())
}

/// The clauses for one argument, tuple by tuple.
fn push_argument(
    alloc: Global,
    setting: &Setting,
    made: &mut Equalities,
    head: Applied,
    sorts: &[SortId],
    at: usize,
    all: &[List<TermId>],
) -> Result<(), Memory>
    requires ready { IsReady setting.now }
    requires marked { AreMarked setting.now made.old.atoms }
    requires applied { IsApplied setting.now head sorts.now }
    requires all { all.now ≡ tuples (numbers setting.now) sorts.now }
    requires at { at < length sorts.now }
    ensures { OnOk result (Makes setting.now made.old (replacements_at (numbers setting.now) sorts.now (change_of setting.now head) at) made.new) }
{
    for tuple in all {
        push_others(alloc, setting, made, head, sorts, at, tuple.as_slice())?;
    }
    Ok(())
}

/// The clauses for all arguments of a relation or a place.
fn push_replacements(
    alloc: Global,
    setting: &Setting,
    made: &mut Equalities,
    head: Applied,
    sorts: &[SortId],
) -> Result<(), Memory>
    requires ready { IsReady setting.now }
    requires marked { AreMarked setting.now made.old.atoms }
    requires applied { IsApplied setting.now head sorts.now }
    ensures { OnOk result (Makes setting.now made.old (replacements (numbers setting.now) sorts.now (change_of setting.now head)) made.new) }
{
    let all = tuples_of(alloc, setting.counts.as_slice(), sorts)?;
    for at in 0..sorts.len() {
        push_argument(alloc, setting, made, head, sorts, at, all.as_slice())?;
    }
    Ok(())
}

/// The clauses of the relations.
pub(crate) fn push_relations(
    alloc: Global,
    setting: &Setting,
    made: &mut Equalities,
) -> Result<(), Memory>
    requires ready { IsReady setting.now }
    requires marked { AreMarked setting.now made.old.atoms }
    ensures { OnOk result (Makes setting.now made.old (relation_clauses (numbers setting.now) setting.now.sk.now.relations) made.new) }
{
    for shape in setting.sk.relations.as_slice() {
        let head = Applied::Relation(shape.sym);
        push_replacements(alloc, setting, made, head, shape.sorts.as_slice())?;
    }
    Ok(())
}

/// The clauses of the places.
pub(crate) fn push_places(
    alloc: Global,
    setting: &Setting,
    made: &mut Equalities,
) -> Result<(), Memory>
    requires ready { IsReady setting.now }
    requires marked { AreMarked setting.now made.old.atoms }
    ensures { OnOk result (Makes setting.now made.old (place_clauses setting.now.sk.now (numbers setting.now) 0 setting.now.sk.now.places) made.new) }
{
    let places = setting.sk.places.as_slice();
    for k in 0..places.len() {
        let sorts = sorts_of(alloc, places[k].arguments.as_slice())?;
        push_replacements(
            alloc,
            setting,
            made,
            Applied::Place(k as u32),
            sorts.as_slice(),
        )?;
    }
    Ok(())
}
