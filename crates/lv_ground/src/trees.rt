//! Ground forms as propositions.
ghost use Rattle.std.specs.Prelude.{◌≡◌, ◌+◌, ◌<◌, Bool, true, map, length, [], IfOk, OnOk};
ghost use Rattle.lv_formula.specs.declared.symbols.Sym.{Sym};
ghost use Rattle.lv_formula.specs.declared.terms.Term.{Term};
ghost use Rattle.lv_cnf.specs.Nodes.{plain, plains};
ghost use Rattle.lv_places.specs.Forms.{Rel, Same, Lit as LitForm, All as AllForm, form_of, forms_of};
ghost use Rattle.lv_places.specs.Places.{sites, sites_all};
ghost use Rattle.lv_places.specs.GroundForms.{each, ground_all};
ghost use Rattle.lv_ground.specs.Settings.{IsReady, numbers, naming};
ghost use Rattle.lv_ground.specs.Marked.{AreMarked};
ghost use Rattle.lv_ground.specs.Growth.{Grown, AllGrown};
ghost use Rattle.lv_ground.specs.Instances.{binders_around, terms_around, signed_form, ground_at, ground_all_at, instances_at, Stands, AllStand};

use crate::atoms::{Atoms, number};
use crate::setting::{Setting, count_of};
use crate::terms::{Around, instance, instances_of, place_around};
use lv_cnf::{Lit, Prop};
use lv_formula::{Formula, List, Memory, Rc, SortId, Sym, Term};
use lv_places::{GroundAtom, TermId};
use std::alloc::Global;

/// The instance of a relation at terms, or its negation.
fn relation_at(
    alloc: Global,
    setting: &Setting,
    atoms: &mut Atoms,
    sym: Sym,
    terms: &[Term],
    around: &Around,
    positive: bool,
    next: u32,
) -> Result<Prop, Memory>
    requires ready { IsReady setting.now }
    requires marked { AreMarked setting.now atoms.old }
    requires stands { Stands setting.now (binders_around around.now) (terms_around around.now) next (LitForm positive (Rel sym terms.now)) }
    ensures grown { IfOk result (λ p. Grown atoms.old.list.items (ground_at setting.now around.now next (LitForm positive (Rel sym terms.now))) atoms.new.list.items (plain p)) }
    ensures marked { OnOk result (AreMarked setting.now atoms.new) }
{
    let terms = List::from_vec(instances_of(alloc, setting, around, terms)?);
    let var = number(setting, atoms, GroundAtom::Relation { sym, terms })?;
    Ok(Prop::Lit(Lit { var, positive }))
}

/// The instance of an equality, or its negation.
fn equality_at(
    setting: &Setting,
    atoms: &mut Atoms,
    a: &Term,
    b: &Term,
    around: &Around,
    positive: bool,
    next: u32,
) -> Result<Prop, Memory>
    requires ready { IsReady setting.now }
    requires marked { AreMarked setting.now atoms.old }
    requires stands { Stands setting.now (binders_around around.now) (terms_around around.now) next (LitForm positive (Same a.now b.now)) }
    ensures grown { IfOk result (λ p. Grown atoms.old.list.items (ground_at setting.now around.now next (LitForm positive (Same a.now b.now))) atoms.new.list.items (plain p)) }
    ensures marked { OnOk result (AreMarked setting.now atoms.new) }
{
    let left = instance(setting, around, a)?;
    let right = instance(setting, around, b)?;
    let var = number(setting, atoms, GroundAtom::Equal { left, right })?;
    Ok(Prop::Lit(Lit { var, positive }))
}

/// The ground form of a normal form, or of its negation if it is an atom. `next` is the number of the first
/// place that is not behind.
#[cycle(tree)]
fn tree(
    alloc: Global,
    setting: &Setting,
    atoms: &mut Atoms,
    f: &Formula,
    positive: bool,
    around: &Around,
    next: &mut u32,
) -> Result<Prop, Memory>
    requires ready { IsReady setting.now }
    requires marked { AreMarked setting.now atoms.old }
    requires stands { Stands setting.now (binders_around around.now) (terms_around around.now) next.old (signed_form positive (form_of f.now)) }
    ensures grown { IfOk result (λ p. Grown atoms.old.list.items (ground_at setting.now around.now next.old (signed_form positive (form_of f.now))) atoms.new.list.items (plain p)) }
    ensures marked { OnOk result (AreMarked setting.now atoms.new) }
    ensures next { OnOk result (next.new ≡ next.old + length (sites (binders_around around.now) (signed_form positive (form_of f.now)))) }
{
    match f {
        Formula::True => Ok(Prop::True),
        Formula::False => Ok(Prop::False),
        Formula::Implies(_, _) => Ok(Prop::False),
        Formula::Iff(_, _) => Ok(Prop::False),
        Formula::Atom(sym, terms) => relation_at(
            alloc,
            setting,
            atoms,
            *sym,
            terms.as_slice(),
            around,
            positive,
            *next,
        ),
        Formula::Same(a, b) => equality_at(setting, atoms, a, b, around, positive, *next),
        Formula::Not(f) => tree(alloc, setting, atoms, f, !positive, around, next),
        Formula::And(fs) => Ok(Prop::And(trees(
            alloc,
            setting,
            atoms,
            fs.as_slice(),
            around,
            next,
        )?)),
        Formula::Or(fs) => Ok(Prop::Or(trees(alloc, setting, atoms, fs.as_slice(), around, next)?)),
        Formula::All(sort, f) => Ok(Prop::And(instances(
            alloc, setting, atoms, *sort, f, around, next,
        )?)),
        Formula::Any(_, f) => {
            let term = place_around(alloc, setting, around, *next)?;
            *next += 1;
            let inside = Around::Chosen(term, &*f, &*around);
            tree(alloc, setting, atoms, f, true, &inside, next)
        }
    }
}

/// The ground forms of normal forms.
#[cycle(tree)]
fn trees(
    alloc: Global,
    setting: &Setting,
    atoms: &mut Atoms,
    fs: &[Rc<Formula>],
    around: &Around,
    next: &mut u32,
) -> Result<lv_cnf::List<Prop>, Memory>
    requires ready { IsReady setting.now }
    requires marked { AreMarked setting.now atoms.old }
    requires stand { AllStand setting.now (binders_around around.now) (terms_around around.now) next.old (forms_of fs.now) }
    ensures grown { IfOk result (λ ps. AllGrown atoms.old.list.items (ground_all_at setting.now around.now next.old (forms_of fs.now)) atoms.new.list.items (plains ps)) }
    ensures marked { OnOk result (AreMarked setting.now atoms.new) }
    ensures next { OnOk result (next.new ≡ next.old + length (sites_all (binders_around around.now) (forms_of fs.now))) }
{
    let mut props = Vec::new(alloc);
    for f in fs {
        props.push(tree(alloc, setting, atoms, f, true, around, next)?)?;
    }
    Ok(lv_cnf::List::from_vec(props))
}

/// The instances of the body of an `All`, one for each term of the sort.
#[cycle(tree)]
fn instances(
    alloc: Global,
    setting: &Setting,
    atoms: &mut Atoms,
    sort: SortId,
    body: &Formula,
    around: &Around,
    next: &mut u32,
) -> Result<lv_cnf::List<Prop>, Memory>
    requires ready { IsReady setting.now }
    requires marked { AreMarked setting.now atoms.old }
    requires stands { Stands setting.now (binders_around around.now) (terms_around around.now) next.old (AllForm sort (form_of body.now)) }
    ensures grown { IfOk result (λ ps. AllGrown atoms.old.list.items (each 0 (numbers setting.now sort) (instances_at setting.now around.now next.old sort (form_of body.now))) atoms.new.list.items (plains ps)) }
    ensures marked { OnOk result (AreMarked setting.now atoms.new) }
    ensures next { OnOk result (next.new ≡ next.old + length (sites (binders_around around.now) (AllForm sort (form_of body.now)))) }
{
    let first = *next;
    let count = count_of(setting.counts.as_slice(), sort);
    let mut props = Vec::new(alloc);
    for place in 0..count {
        *next = first;
        let inside = Around::Every(TermId { sort, place }, &*around);
        props.push(tree(alloc, setting, atoms, body, true, &inside, next)?)?;
    }
    Ok(lv_cnf::List::from_vec(props))
}

/// The ground forms of sentences.
pub(crate) fn roots(
    alloc: Global,
    setting: &Setting,
    atoms: &mut Atoms,
    forms: &[Formula],
) -> Result<lv_cnf::List<Prop>, Memory>
    requires ready { IsReady setting.now }
    requires marked { AreMarked setting.now atoms.old }
    requires stand { AllStand setting.now [] [] 0 (forms_of forms.now) }
    ensures grown { IfOk result (λ ps. AllGrown atoms.old.list.items (ground_all (naming setting.now) 0 [] [] (forms_of forms.now)) atoms.new.list.items (plains ps)) }
    ensures marked { OnOk result (AreMarked setting.now atoms.new) }
{
    let mut next = 0;
    let mut props = Vec::new(alloc);
    for f in forms {
        props.push(tree(alloc, setting, atoms, f, true, &Around::Outside, &mut next)?)?;
    }
    Ok(lv_cnf::List::from_vec(props))
}
