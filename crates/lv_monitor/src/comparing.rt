//! When a move is allowed, and when the state looks as it was saved.
ghost use Rattle.std.specs.Prelude.{◌≡◌, ◌++◌, IfOk, OnOk, map};
ghost use Rattle.lv_labels.specs.Problem.{problem_of};
ghost use Rattle.lv_labels.specs.Closing.{numbered};
ghost use Rattle.lv_labels.specs.Rows.{IsTableOf, condition_of, row_condition};
ghost use Rattle.lv_footprint.specs.Gathered.{gathered};
ghost use Rattle.lv_monitor.specs.Conditions as conditions;

use crate::bodies::{itself, member, push_members};
use crate::naming::ElementSet;
use lv_formula::{
    Formula, List, Memory, SortId, Sym, Term, and, atom, iff, implies, not, or, same,
};
use lv_labels::{Justice, Label, LabelTable, Move, for_all, number};
use lv_system::{Shape, Symbol, System};
use std::alloc::Global;

/// When the monitor may make the move: nothing for a stay. The error is want of memory.
pub fn move_condition(alloc: Global, mv: Move, justice: &[Justice]) -> Result<List<Formula>, Memory>
    ensures { IfOk result (λ fs. fs ≡ conditions.move_condition_of (map condition_of justice.now) mv) }
{
    let mut sentences = Vec::new(alloc);
    push_move_condition(alloc, mv, justice, &mut sentences)?;
    Ok(List::from_vec(sentences))
}

/// Adds when the monitor may make the move.
pub fn push_move_condition(
    alloc: Global,
    mv: Move,
    justice: &[Justice],
    sentences: &mut Vec<Formula>,
) -> Result<(), Memory>
    ensures { OnOk result (sentences.new.items ≡ sentences.old.items ++ conditions.move_condition_of (map condition_of justice.now) mv) }
{
    match mv {
        Move::Stay => Ok(()),
        Move::Freeze => {
            sentences.push(not(alloc, mark_set(alloc, Sym::Frozen)?)?)?;
            sentences.push(not(alloc, mark_set(alloc, Sym::Saved)?)?)?;
            push_none_due(alloc, justice, sentences)
        }
        Move::Save => {
            sentences.push(mark_set(alloc, Sym::Frozen)?)?;
            sentences.push(not(alloc, mark_set(alloc, Sym::Saved)?)?)?;
            push_none_due(alloc, justice, sentences)
        }
    }
}

/// The mark is set.
pub fn mark_set(alloc: Global, sym: Sym) -> Result<Formula, Memory>
    ensures { IfOk result (λ f. f ≡ conditions.mark_set sym) }
{
    atom(alloc, sym, &[])
}

/// Adds for each justice condition that nothing is due of it.
pub fn push_none_due(
    alloc: Global,
    justice: &[Justice],
    sentences: &mut Vec<Formula>,
) -> Result<(), Memory>
    ensures { OnOk result (sentences.new.items ≡ sentences.old.items ++ conditions.all_none_due (map condition_of justice.now)) }
{
    for (j, condition) in justice.iter().enumerate() {
        sentences.push(none_due(alloc, number(j)?, condition)?)?;
    }
    Ok(())
}

fn none_due(alloc: Global, j: u32, condition: &Justice) -> Result<Formula, Memory>
    ensures { IfOk result (λ f. f ≡ conditions.none_due_of j (condition_of condition.now)) }
{
    let sorts = condition.sorts.as_slice();
    let due = itself(alloc, Sym::Due(j), sorts)?;
    for_all(alloc, sorts, not(alloc, due)?)
}

/// On the kept elements each changing symbol and each label is as its copy. The error is want of memory.
#[tactic(auto, using(crate::proofs::WordsMade::compare_made))]
pub fn compare_sentences(
    alloc: Global,
    system: &System,
    table: &LabelTable,
) -> Result<List<Formula>, Memory>
    requires { IsTableOf system.now table.now }
    ensures { IfOk result (λ fs. fs ≡ conditions.compare_of (problem_of system.now)) }
{
    let mut sentences = Vec::new(alloc);
    push_symbols(alloc, system.parts().symbols.as_slice(), &mut sentences)?;
    push_labels(alloc, table.labels.as_slice(), &mut sentences)?;
    Ok(List::from_vec(sentences))
}

fn push_symbols(
    alloc: Global,
    symbols: &[Symbol],
    sentences: &mut Vec<Formula>,
) -> Result<(), Memory>
    ensures { OnOk result (sentences.new.items ≡ sentences.old.items ++ gathered conditions.symbol_alike 0 symbols.now) }
{
    for (n, symbol) in symbols.iter().enumerate() {
        if !symbol.fixed {
            sentences.push(shape_alike(alloc, number(n)?, &symbol.shape)?)?;
        }
    }
    Ok(())
}

fn shape_alike(alloc: Global, n: u32, shape: &Shape) -> Result<Formula, Memory>
    ensures { IfOk result (λ f. f ≡ conditions.shape_alike n shape.now) }
{
    match shape {
        Shape::Relation(sorts) => looks_alike(alloc, Sym::Own(n), Sym::Copy(n), sorts.as_slice()),
        Shape::Constant(sort) => stays_alike(alloc, Sym::Own(n), Sym::Copy(n), *sort),
    }
}

fn push_labels(alloc: Global, labels: &[Label], sentences: &mut Vec<Formula>) -> Result<(), Memory>
    ensures { OnOk result (sentences.new.items ≡ sentences.old.items ++ numbered conditions.label_alike 0 (map row_condition labels.now)) }
{
    for (l, label) in labels.iter().enumerate() {
        let l = number(l)?;
        let sorts = label.sorts.as_slice();
        sentences.push(looks_alike(alloc, Sym::Label(l), Sym::CopyLabel(l), sorts)?)?;
    }
    Ok(())
}

/// On the kept elements the relation is as its copy.
fn looks_alike(alloc: Global, sym: Sym, copy: Sym, sorts: &[SortId]) -> Result<Formula, Memory>
    ensures { IfOk result (λ f. f ≡ conditions.looks_alike sym copy sorts.now) }
{
    let mut places = Vec::new(alloc);
    push_members(alloc, ElementSet::Kept, sorts, &mut places)?;
    let alike = iff(
        alloc,
        itself(alloc, sym, sorts)?,
        itself(alloc, copy, sorts)?,
    )?;
    for_all(
        alloc,
        sorts,
        implies(alloc, and(alloc, places.as_slice())?, alike)?,
    )
}

/// If the constant or its copy is kept, they are the same.
fn stays_alike(alloc: Global, sym: Sym, copy: Sym, sort: SortId) -> Result<Formula, Memory>
    ensures { IfOk result (λ f. f ≡ conditions.stays_alike sym copy sort) }
{
    let here = member(alloc, ElementSet::Kept, sort, Term::Const(sym))?;
    let there = member(alloc, ElementSet::Kept, sort, Term::Const(copy))?;
    let kept = or(alloc, &[here, there])?;
    implies(alloc, kept, same(Term::Const(sym), Term::Const(copy)))
}
