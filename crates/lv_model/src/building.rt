//! The structure that an assignment gives.
ghost use Rattle.std.specs.Prelude.{◌≡◌, ◌<◌, ◌≤◌, true, length, IfOk};
ghost use Rattle.lv_formula.specs.declared.symbols.SortId.{SortId};
ghost use Rattle.lv_formula.specs.declared.vocabulary.Sentences.{Sentences};
ghost use Rattle.lv_formula.specs.Pairs.{SentencesFit, breaks};
ghost use Rattle.lv_formula.specs.Vocabulary as vocabularies;
ghost use Rattle.lv_cnf.specs.Literals.{Satisfies, assignment_of};
ghost use Rattle.lv_cnf.specs.Nodes.{plains, clauses_of};
ghost use Rattle.lv_places.specs.Grounds.{IsGrounded, atom_truth};
ghost use Rattle.lv_places.specs.Universes.{IsUniverse, counts};
ghost use Rattle.lv_skolem.specs.Skolems.{IsSkolem};
ghost use Rattle.lv_struct.specs.Tables.{HasVocabulary, IsSound, meaning, size_in};
ghost use Rattle.lv_struct.specs.Tabulation.{tables_of};
ghost use Rattle.lv_model.specs.Classes.{class_structure};
ghost use Rattle.lv_model.specs.Building.{IsSkolemOf};

use crate::assigned::Assigned;
use crate::structure::Quotient;
use lv_cnf::Assignment;
use lv_formula::{Memory, Vocabulary};
use lv_places::{Grounded, Skolem};
use lv_skolem::Universe;
use lv_struct::Structure;
use std::alloc::Global;

/// The structure of the vocabulary whose elements are the classes of terms whose equality is true, in the order of their
/// first terms. Symbols that do not occur are empty relations, or element 0. The error is want of memory.
///
/// The caller sees to it that the assignment satisfies the ground clauses. Then each hypothesis is true in the structure,
/// and the conclusion false, and no sort has more elements than terms.
pub fn build(
    alloc: Global,
    voc: &Vocabulary,
    sk: &Skolem,
    u: &Universe,
    g: &Grounded,
    a: &Assignment,
) -> Result<Structure, Memory>
    requires sound { vocabularies.IsSound voc.now }
    requires skolem { IsSkolemOf voc.now sk.now }
    requires universe { IsUniverse sk.now u.now.terms }
    requires grounded { IsGrounded sk.now u.now.terms g.now }
    requires satisfied { Satisfies (assignment_of a.now) (clauses_of (length g.now.atoms) (plains g.now.roots) g.now.equalities) }
    ensures value { IfOk result (λ w. w ≡ tables_of voc.now (class_structure sk.now (counts u.now.terms) (atom_truth g.now.atoms (assignment_of a.now)))) }

    // What follows for the caller.
    ensures sound { IfOk result (λ w. IsSound w) }
    ensures vocabulary { IfOk result (HasVocabulary voc.now) }
    ensures broken { IfOk result (λ w. (s : Sentences) → SentencesFit voc.now s → IsSkolem voc.now s sk.now → breaks (meaning w) s ≡ true) }
    ensures few { IfOk result (λ w. (s : SortId) → s.0 < voc.now.sorts → size_in w s ≤ counts u.now.terms s) }
{
    let st = Assigned { sk, u, g, a };
    let quotient = Quotient::new(alloc, &st)?;
    Structure::tabulate(alloc, voc, &quotient)
}
