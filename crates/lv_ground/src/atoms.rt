//! The atoms that have occurred, and their numbers.
ghost use Rattle.std.specs.Prelude.{◌≡◌, [], ◌∷◌, IfOk, OnOk};
ghost use Rattle.lv_formula.specs.declared.symbols.Sym.{Sym};
ghost use Rattle.lv_places.specs.declared.terms.TermId.{TermId};
ghost use Rattle.lv_places.specs.declared.grounded.GroundAtom.{GroundAtom};
ghost use Rattle.lv_places.specs.declared.grounded.GroundAtom.TheVariants as make;
ghost use Rattle.lv_places.specs.Grounds.{find_atom, with_atom};
ghost use Rattle.lv_ground.specs.Positions.{relation_start, position, IsPossible};
ghost use Rattle.lv_ground.specs.Settings.{IsReady, numbers};
ghost use Rattle.lv_ground.specs.Marked.{AreMarked};

use crate::setting::Setting;
use crate::terms::number_of;
use lv_formula::{Memory, Sym};
use lv_places::{GroundAtom, TermId};
use std::alloc::Global;

/// The atoms that have occurred, and for each that may occur one more than its number among them, or 0.
#[derive(Drop)]
pub(crate) struct Atoms {
    pub(crate) list: Vec<GroundAtom>,
    pub(crate) marks: Vec<u32>,
}

impl Atoms {
    ghost use Rattle.lv_ground.specs.Marked.{AreMarked};

    /// No atom yet.
    pub(crate) fn new(alloc: Global, setting: &Setting) -> Result<Atoms, Memory>
        requires { IsReady setting.now }
        ensures none { IfOk result (λ atoms. atoms.list.items ≡ []) }
        ensures marked { IfOk result (λ atoms. AreMarked setting.now atoms) }
    {
        let possible = setting.sorts[setting.sk.sorts as usize];
        let mut marks = Vec::new(alloc);
        for _at in 0..possible {
            marks.push(0)?;
        }
        Ok(Atoms {
            list: Vec::new(alloc),
            marks,
        })
    }
}

/// How many atoms the relations before this one have.
fn start_of(setting: &Setting, sym: Sym) -> u32
    requires { IsReady setting.now }
    ensures { result ≡ relation_start (numbers setting.now) setting.now.sk.now.relations sym }
{
    let relations = setting.sk.relations.as_slice();
    for i in 0..relations.len() {
        if relations[i].sym.equals(sym) {
            return setting.relations[i];
        }
    }
    setting.relations[relations.len()]
}

/// The number of the atom among all that may occur.
fn position_of(setting: &Setting, atom: &GroundAtom) -> Result<u32, Memory>
    requires ready { IsReady setting.now }
    requires possible { IsPossible setting.now.sk.now (numbers setting.now) atom.now }
    ensures { IfOk result (λ k. k ≡ position setting.now.sk.now (numbers setting.now) atom.now) }
{
    let counts = setting.counts.as_slice();
    match atom {
        GroundAtom::Relation { sym, terms } => {
            let number = number_of(counts, terms.as_slice())?;
            start_of(setting, *sym).checked_add(number).ok_or(Memory)
        }
        GroundAtom::Equal { left, right } => {
            let number = number_of(counts, &[*left, *right])?;
            setting.sorts[left.sort.0 as usize]
                .checked_add(number)
                .ok_or(Memory)
        }
    }
}

/// The number of the atom among those that have occurred, of which it is one from now on.
pub(crate) fn number(setting: &Setting, atoms: &mut Atoms, atom: GroundAtom) -> Result<u32, Memory>
    requires ready { IsReady setting.now }
    requires marked { AreMarked setting.now atoms.old }
    requires possible { IsPossible setting.now.sk.now (numbers setting.now) atom }
    ensures list { OnOk result (atoms.new.list.items ≡ with_atom atoms.old.list.items atom) }
    ensures number { IfOk result (λ k. k ≡ find_atom atoms.new.list.items atom) }
    ensures marked { OnOk result (AreMarked setting.now atoms.new) }
{
    let at = position_of(setting, &atom)? as usize;
    let mark = atoms.marks[at];
    if mark > 0 {
        return Ok(mark - 1);
    }
    let number = atoms.list.len() as u32;
    atoms.list.push(atom)?;
    atoms.marks[at] = number + 1;
    Ok(number)
}
