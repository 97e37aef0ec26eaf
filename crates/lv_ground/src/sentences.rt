ghost use Rattle.std.specs.Prelude.{◌≡◌, length, IfOk, OnOk};
ghost use Rattle.std.specs.List.{All};
ghost use Rattle.lv_cnf.specs.Literals.{InRange};
ghost use Rattle.lv_cnf.specs.Nodes.{plains, AtomsBelow};
ghost use Rattle.lv_places.specs.Universes.{IsUniverse};
ghost use Rattle.lv_places.specs.Equality.{equality_clauses};
ghost use Rattle.lv_places.specs.Grounds.{IsGrounded};
ghost use Rattle.lv_ground.specs.Grounding.{IsSkolemised};
ghost use Rattle.lv_ground.specs.Making.{Makes};
ghost use Rattle.lv_ground.specs.Marked.{AreMarked};
ghost use Rattle.lv_ground.specs.Settings.{IsReady, numbers};

use crate::atoms::Atoms;
use crate::equalities::{Equalities, push_sorts};
use crate::replacing::{push_places, push_relations};
use crate::setting::Setting;
use crate::trees::roots;
use lv_cnf::{List, Prop};
use lv_formula::Memory;
use lv_places::{Grounded, Skolem};
use lv_skolem::Universe;
use std::alloc::Global;

/// The clauses that hold of equality, in order.
fn push_equalities(alloc: Global, setting: &Setting, made: &mut Equalities) -> Result<(), Memory>
    requires ready { IsReady setting.now }
    requires marked { AreMarked setting.now made.old.atoms }
    ensures { OnOk result (Makes setting.now made.old (equality_clauses setting.now.sk.now (numbers setting.now)) made.new) }
{
    push_sorts(alloc, setting, made)?;
    push_relations(alloc, setting, made)?;
    push_places(alloc, setting, made)
}

/// The ground form, of these roots and clauses.
fn grounded(roots: List<Prop>, made: Equalities) -> Grounded
    ensures atoms { result.atoms ≡ made.atoms.list.items }
    ensures roots { result.roots ≡ roots }
    ensures equalities { result.equalities ≡ made.clauses.items }
{
    let Equalities { atoms, clauses } = made;
    let Atoms { list, marks: _ } = atoms;
    Grounded {
        atoms: List::from_vec(list),
        roots,
        equalities: List::from_vec(clauses),
    }
}

/// The ground form of sentences over the numbers of its atoms, and the clauses that hold of equality.
///
/// - In the ground form of a sentence each `All` is an `And` over the terms of its sort, in order, and the
///   variable of each place is the place's term.
/// - The clauses say that equality is an equivalence on the terms of each sort: sort by sort the reflexive, the
///   symmetric and the transitive ones. Then come, for each relation that occurs and each place, those that
///   let another term replace an argument: argument by argument, tuple by tuple, term by term.
/// - Atoms are numbered as they first occur, in the sentences and then in the clauses.
///
/// The only error is want of memory.
pub fn ground(alloc: Global, sk: &Skolem, u: &Universe) -> Result<Grounded, Memory>
    requires skolem { IsSkolemised sk.now }
    requires universe { IsUniverse sk.now u.now.terms }
    ensures grounded { IfOk result (λ g. IsGrounded sk.now u.now.terms g) }

    // What follows for the caller: the numbers are those of atoms.
    ensures roots { IfOk result (λ g. AtomsBelow (length g.atoms) (plains g.roots)) }
    ensures equalities { IfOk result (λ g. All (InRange (length g.atoms)) g.equalities) }
{
    let setting = Setting::new(alloc, sk, u)?;
    let mut atoms = Atoms::new(alloc, &setting)?;
    let roots = roots(alloc, &setting, &mut atoms, sk.forms.as_slice())?;
    let mut made = Equalities {
        atoms,
        clauses: Vec::new(alloc),
    };
    push_equalities(alloc, &setting, &mut made)?;
    Ok(grounded(roots, made))
}
