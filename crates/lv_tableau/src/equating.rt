//! The equations of labels.
ghost use Rattle.std.specs.Prelude.{◌≡◌, ◌↔◌, IfOk, map, true, []};
ghost use Rattle.lv_formula.specs.declared.symbols.Sym.TheVariants.{Next};
ghost use Rattle.lv_formula.specs.Meaning.{Meaning};
ghost use Rattle.lv_formula.specs.Truth.{all_true_in};
ghost use Rattle.lv_system.specs.declared.parts.Parts.{Parts};
ghost use Rattle.lv_labels.specs.Problem.{problem_of};
ghost use Rattle.lv_labels.specs.Rows.{IsTableOf, row_condition};
ghost use Rattle.lv_labels.specs.Runs.{LabelEquation};
ghost use Rattle.lv_tableau.specs.Sentences.{equation_of, equations_of};

use lv_formula::{Formula, List, Memory, Sym, and, iff};
use lv_labels::{Label, LabelTable, for_all, number, tuple_variables};
use std::alloc::Global;

/// For each label the sentence that at each tuple the label is its body and its next value. The error is want of
/// memory.
pub fn equations(alloc: Global, table: &LabelTable) -> Result<List<Formula>, Memory>
    ensures list { IfOk result (λ all. all ≡ equations_of (map row_condition table.now.labels)) }

    // They are true exactly where each label is its body now and itself at the next position of a labelled run.
    ensures truth { (p : Parts) (m : Meaning) → IsTableOf p table.now → IfOk result (λ all. (all_true_in m all [] ≡ true) ↔ LabelEquation (problem_of p) m (λ l tuple. m.holds (Next l) tuple)) }
{
    each_equation(alloc, table.labels.as_slice())
}

fn each_equation(alloc: Global, labels: &[Label]) -> Result<List<Formula>, Memory>
    ensures { IfOk result (λ all. all ≡ equations_of (map row_condition labels.now)) }
{
    let mut equations = Vec::new(alloc);
    for (l, label) in labels.iter().enumerate() {
        equations.push(equation(alloc, number(l)?, label)?)?;
    }
    Ok(List::from_vec(equations))
}

fn equation(alloc: Global, l: u32, label: &Label) -> Result<Formula, Memory>
    ensures { IfOk result (λ f. f ≡ equation_of l (row_condition label.now)) }
{
    let sorts = label.sorts.as_slice();
    let now = Formula::Atom(Sym::Label(l), tuple_variables(alloc, sorts)?);
    let next = Formula::Atom(Sym::Next(l), tuple_variables(alloc, sorts)?);
    let body = label.body.share(alloc)?;
    for_all(alloc, sorts, iff(alloc, now, and(alloc, &[body, next])?)?)
}
