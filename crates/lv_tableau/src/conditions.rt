//! The justice conditions of a system.
ghost use Rattle.std.specs.Prelude.{◌≡◌, ◌++◌, IfOk, OnOk, map};
ghost use Rattle.lv_labels.specs.Closing.{numbered};
ghost use Rattle.lv_labels.specs.Problem.{fair_condition, problem_of};
ghost use Rattle.lv_labels.specs.Rows.{IsTableOf, condition_of, row_justice};

use lv_formula::{Formula, List, Memory, Sym, not, or};
use lv_labels::{Justice, Label, LabelTable, copied, number, tuple_variables};
use lv_system::{Fair, System};
use std::alloc::Global;

/// The conditions of fairness, in order, and then for each label that it holds or its body doesn't. The error is want
/// of memory.
///
/// The caller sees to it that the table is the system's.
pub fn justice(alloc: Global, system: &System, table: &LabelTable) -> Result<List<Justice>, Memory>
    requires table { IsTableOf system.now table.now }
    ensures list { IfOk result (λ all. map condition_of all ≡ map fair_condition system.now.fairs ++ numbered row_justice 0 table.now.labels) }

    // They are the conditions that a round of a labelled run meets for each tuple of touched elements.
    ensures conditions { IfOk result (λ all. map condition_of all ≡ (problem_of system.now).justice) }
{
    conditions(
        alloc,
        system.parts().fairs.as_slice(),
        table.labels.as_slice(),
    )
}

fn conditions(alloc: Global, fairs: &[Fair], labels: &[Label]) -> Result<List<Justice>, Memory>
    ensures { IfOk result (λ all. map condition_of all ≡ map fair_condition fairs.now ++ numbered row_justice 0 labels.now) }
{
    let mut conditions = Vec::new(alloc);
    push_fairs(alloc, fairs, &mut conditions)?;
    push_labels(alloc, labels, &mut conditions)?;
    Ok(List::from_vec(conditions))
}

fn push_fairs(alloc: Global, fairs: &[Fair], conditions: &mut Vec<Justice>) -> Result<(), Memory>
    ensures { OnOk result (map condition_of conditions.new.items ≡ map condition_of conditions.old.items ++ map fair_condition fairs.now) }
{
    for fair in fairs {
        conditions.push(Justice {
            sorts: copied(alloc, fair.params.as_slice())?,
            condition: fair.condition.share(alloc)?,
        })?;
    }
    Ok(())
}

fn push_labels(alloc: Global, labels: &[Label], conditions: &mut Vec<Justice>) -> Result<(), Memory>
    ensures { OnOk result (map condition_of conditions.new.items ≡ map condition_of conditions.old.items ++ numbered row_justice 0 labels.now) }
{
    for (l, label) in labels.iter().enumerate() {
        conditions.push(label_justice(alloc, number(l)?, label)?)?;
    }
    Ok(())
}

/// That the label holds or its body doesn't.
fn label_justice(alloc: Global, l: u32, label: &Label) -> Result<Justice, Memory>
    ensures { IfOk result (λ condition. condition_of condition ≡ row_justice l label.now) }
{
    let sorts = label.sorts.as_slice();
    let holds = Formula::Atom(Sym::Label(l), tuple_variables(alloc, sorts)?);
    let fails = not(alloc, label.body.share(alloc)?)?;
    Ok(Justice {
        sorts: copied(alloc, sorts)?,
        condition: or(alloc, &[holds, fails])?,
    })
}
