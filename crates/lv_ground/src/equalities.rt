//! The clauses that make equality an equivalence.
ghost use Rattle.std.specs.Prelude.{◌≡◌, ◌<◌, ◌++◌, [], ◌∷◌, IfOk, OnOk};
ghost use Rattle.lv_places.specs.declared.grounded.GroundAtom.TheVariants as make;
ghost use Rattle.lv_places.specs.Grounds.{find_atom, with_atom};
ghost use Rattle.lv_places.specs.Universes.{term};
ghost use Rattle.lv_places.specs.Equality.{each_of, reflexive_clauses, symmetric_clauses, transitive_clauses, sort_clauses};
ghost use Rattle.lv_ground.specs.Settings.{IsReady, numbers};
ghost use Rattle.lv_ground.specs.Marked.{AreMarked};
ghost use Rattle.lv_ground.specs.Making.{Makes, reflexive_at, symmetric_at, transitive_at};
ghost use Rattle.lv_ground.specs.Positions.{sort as sort_with};

use crate::atoms::{Atoms, number};
use crate::setting::{Setting, count_of};
use lv_cnf::{Clause, Lit};
use lv_formula::{Memory, SortId};
use lv_places::{GroundAtom, TermId};
use std::alloc::Global;

/// The atoms that have occurred, and the clauses of equality so far.
#[derive(Drop)]
pub(crate) struct Equalities {
    pub(crate) atoms: Atoms,
    pub(crate) clauses: Vec<Clause>,
}

/// Appends the clause of these literals.
pub(crate) fn push_clause(
    alloc: Global,
    clauses: &mut Vec<Clause>,
    lits: &[Lit],
) -> Result<(), Memory>
    ensures { OnOk result (clauses.new.items ≡ clauses.old.items ++ lits.now ∷ []) }
{
    match Clause::of(alloc, lits) {
        Ok(clause) => {
            clauses.push(clause)?;
            Ok(())
        }
        Err(_) => Err(Memory),
    }
}

/// The clause that the term equals itself.
fn push_reflexive(
    alloc: Global,
    setting: &Setting,
    made: &mut Equalities,
    sort: SortId,
    a: u32,
) -> Result<(), Memory>
    requires ready { IsReady setting.now }
    requires marked { AreMarked setting.now made.old.atoms }
    requires sort { sort.0 < setting.now.sk.now.sorts }
    requires a { a < numbers setting.now sort }
    ensures { OnOk result (Makes setting.now made.old (reflexive_at sort a) made.new) }
{
    let term = TermId { sort, place: a };
    let atom = GroundAtom::Equal {
        left: term,
        right: term,
    };
    let same = Lit::positive(number(setting, &mut made.atoms, atom)?);
    push_clause(alloc, &mut made.clauses, &[same])
}

/// The number of the atom that one term of the sort equals another.
fn equal(setting: &Setting, atoms: &mut Atoms, sort: SortId, a: u32, b: u32) -> Result<u32, Memory>
    requires ready { IsReady setting.now }
    requires marked { AreMarked setting.now atoms.old }
    requires sort { sort.0 < setting.now.sk.now.sorts }
    requires a { a < numbers setting.now sort }
    requires b { b < numbers setting.now sort }
    ensures list { OnOk result (atoms.new.list.items ≡ with_atom atoms.old.list.items (make.Equal (term sort a) (term sort b))) }
    ensures number { IfOk result (λ k. k ≡ find_atom atoms.new.list.items (make.Equal (term sort a) (term sort b))) }
    ensures marked { OnOk result (AreMarked setting.now atoms.new) }
{
    let left = TermId { sort, place: a };
    let right = TermId { sort, place: b };
    number(setting, atoms, GroundAtom::Equal { left, right })
}

/// The clause that if one term equals another, the other equals it.
fn push_symmetric(
    alloc: Global,
    setting: &Setting,
    made: &mut Equalities,
    sort: SortId,
    a: u32,
    b: u32,
) -> Result<(), Memory>
    requires ready { IsReady setting.now }
    requires marked { AreMarked setting.now made.old.atoms }
    requires sort { sort.0 < setting.now.sk.now.sorts }
    requires a { a < numbers setting.now sort }
    requires b { b < numbers setting.now sort }
    ensures { OnOk result (Makes setting.now made.old (symmetric_at sort a b) made.new) }
{
    if a == b {
        return Ok(());
    }
    let there = equal(setting, &mut made.atoms, sort, a, b)?;
    let back = equal(setting, &mut made.atoms, sort, b, a)?;
    let lits = [Lit::negative(there), Lit::positive(back)];
    push_clause(alloc, &mut made.clauses, &lits)
}

/// The clause that if one term equals another and that one a third, the first equals the third.
fn push_transitive(
    alloc: Global,
    setting: &Setting,
    made: &mut Equalities,
    sort: SortId,
    a: u32,
    b: u32,
    c: u32,
) -> Result<(), Memory>
    requires ready { IsReady setting.now }
    requires marked { AreMarked setting.now made.old.atoms }
    requires sort { sort.0 < setting.now.sk.now.sorts }
    requires a { a < numbers setting.now sort }
    requires b { b < numbers setting.now sort }
    requires c { c < numbers setting.now sort }
    ensures { OnOk result (Makes setting.now made.old (transitive_at sort a b c) made.new) }
{
    if a == b || b == c || a == c {
        return Ok(());
    }
    let first = equal(setting, &mut made.atoms, sort, a, b)?;
    let second = equal(setting, &mut made.atoms, sort, b, c)?;
    let both = equal(setting, &mut made.atoms, sort, a, c)?;
    let lits = [
        Lit::negative(first),
        Lit::negative(second),
        Lit::positive(both),
    ];
    push_clause(alloc, &mut made.clauses, &lits)
}

fn push_all_reflexive(
    alloc: Global,
    setting: &Setting,
    made: &mut Equalities,
    sort: SortId,
) -> Result<(), Memory>
    requires ready { IsReady setting.now }
    requires marked { AreMarked setting.now made.old.atoms }
    requires sort { sort.0 < setting.now.sk.now.sorts }
    ensures { OnOk result (Makes setting.now made.old (reflexive_clauses sort (numbers setting.now sort)) made.new) }
{
    for a in 0..count_of(setting.counts.as_slice(), sort) {
        push_reflexive(alloc, setting, made, sort, a)?;
    }
    Ok(())
}

fn push_symmetric_from(
    alloc: Global,
    setting: &Setting,
    made: &mut Equalities,
    sort: SortId,
    a: u32,
) -> Result<(), Memory>
    requires ready { IsReady setting.now }
    requires marked { AreMarked setting.now made.old.atoms }
    requires sort { sort.0 < setting.now.sk.now.sorts }
    requires a { a < numbers setting.now sort }
    ensures { OnOk result (Makes setting.now made.old (each_of 0 (numbers setting.now sort) (symmetric_at sort a)) made.new) }
{
    for b in 0..count_of(setting.counts.as_slice(), sort) {
        push_symmetric(alloc, setting, made, sort, a, b)?;
    }
    Ok(())
}

fn push_all_symmetric(
    alloc: Global,
    setting: &Setting,
    made: &mut Equalities,
    sort: SortId,
) -> Result<(), Memory>
    requires ready { IsReady setting.now }
    requires marked { AreMarked setting.now made.old.atoms }
    requires sort { sort.0 < setting.now.sk.now.sorts }
    ensures { OnOk result (Makes setting.now made.old (symmetric_clauses sort (numbers setting.now sort)) made.new) }
{
    for a in 0..count_of(setting.counts.as_slice(), sort) {
        push_symmetric_from(alloc, setting, made, sort, a)?;
    }
    Ok(())
}

fn push_transitive_through(
    alloc: Global,
    setting: &Setting,
    made: &mut Equalities,
    sort: SortId,
    a: u32,
    b: u32,
) -> Result<(), Memory>
    requires ready { IsReady setting.now }
    requires marked { AreMarked setting.now made.old.atoms }
    requires sort { sort.0 < setting.now.sk.now.sorts }
    requires a { a < numbers setting.now sort }
    requires b { b < numbers setting.now sort }
    ensures { OnOk result (Makes setting.now made.old (each_of 0 (numbers setting.now sort) (transitive_at sort a b)) made.new) }
{
    for c in 0..count_of(setting.counts.as_slice(), sort) {
        push_transitive(alloc, setting, made, sort, a, b, c)?;
    }
    Ok(())
}

fn push_transitive_from(
    alloc: Global,
    setting: &Setting,
    made: &mut Equalities,
    sort: SortId,
    a: u32,
) -> Result<(), Memory>
    requires ready { IsReady setting.now }
    requires marked { AreMarked setting.now made.old.atoms }
    requires sort { sort.0 < setting.now.sk.now.sorts }
    requires a { a < numbers setting.now sort }
    ensures { OnOk result (Makes setting.now made.old (each_of 0 (numbers setting.now sort) (λ b. each_of 0 (numbers setting.now sort) (transitive_at sort a b))) made.new) }
{
    for b in 0..count_of(setting.counts.as_slice(), sort) {
        push_transitive_through(alloc, setting, made, sort, a, b)?;
    }
    Ok(())
}

fn push_all_transitive(
    alloc: Global,
    setting: &Setting,
    made: &mut Equalities,
    sort: SortId,
) -> Result<(), Memory>
    requires ready { IsReady setting.now }
    requires marked { AreMarked setting.now made.old.atoms }
    requires sort { sort.0 < setting.now.sk.now.sorts }
    ensures { OnOk result (Makes setting.now made.old (transitive_clauses sort (numbers setting.now sort)) made.new) }
{
    for a in 0..count_of(setting.counts.as_slice(), sort) {
        push_transitive_from(alloc, setting, made, sort, a)?;
    }
    Ok(())
}

/// The clauses that make the equality of a sort's terms an equivalence.
fn push_sort(
    alloc: Global,
    setting: &Setting,
    made: &mut Equalities,
    sort: SortId,
) -> Result<(), Memory>
    requires ready { IsReady setting.now }
    requires marked { AreMarked setting.now made.old.atoms }
    requires sort { sort.0 < setting.now.sk.now.sorts }
    ensures { OnOk result (Makes setting.now made.old (sort_clauses sort (numbers setting.now sort)) made.new) }
{
    push_all_reflexive(alloc, setting, made, sort)?;
    push_all_symmetric(alloc, setting, made, sort)?;
    push_all_transitive(alloc, setting, made, sort)
}

/// The clauses that make equality an equivalence, sort by sort.
pub(crate) fn push_sorts(
    alloc: Global,
    setting: &Setting,
    made: &mut Equalities,
) -> Result<(), Memory>
    requires ready { IsReady setting.now }
    requires marked { AreMarked setting.now made.old.atoms }
    ensures { OnOk result (Makes setting.now made.old (each_of 0 setting.now.sk.now.sorts (λ i. sort_clauses (sort_with i) (numbers setting.now (sort_with i)))) made.new) }
{
    for s in 0..setting.sk.sorts {
        push_sort(alloc, setting, made, SortId(s))?;
    }
    Ok(())
}
