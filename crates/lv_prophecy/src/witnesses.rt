ghost use Rattle.std.specs.Prelude.{◌≡◌, ◌↔◌, IfOk, true, []};
ghost use Rattle.lv_formula.specs.Meaning.{Meaning};
ghost use Rattle.lv_formula.specs.Truth.{all_true_in};
ghost use Rattle.lv_labels.specs.Problem.{choice_of, problem_of};
ghost use Rattle.lv_labels.specs.Rows.{IsTableOf};
ghost use Rattle.lv_prophecy.specs.Witnesses.{AreChosen, choice_sentence, choice_sentences, read_choices};

use lv_formula::{Formula, List, Memory, Sym, Term, any, implies};
use lv_labels::{LabelTable, number, reading};
use lv_rewrite::instantiate;
use lv_system::{System, WitnessDecl};
use std::alloc::Global;

/// For each witness the sentence that the reading of its formula is true of it, if it is of any element. The error is
/// want of memory, also where a variable's number would pass the greatest `u32`.
///
/// The caller sees to it that the table is the system's.
pub fn witness_sentences(
    alloc: Global,
    system: &System,
    table: &LabelTable,
) -> Result<List<Formula>, Memory>
    requires table { IsTableOf system.now table.now }
    ensures list { IfOk result (λ all. all ≡ choice_sentences (problem_of system.now).choices) }

    // They are true exactly where each witness meets its formula if any element does.
    ensures truth { (m : Meaning) → IfOk result (λ all. (all_true_in m all [] ≡ true) ↔ AreChosen (problem_of system.now) m) }
{
    each_sentence(alloc, system.parts().witnesses.as_slice(), table)
}

fn each_sentence(
    alloc: Global,
    witnesses: &[WitnessDecl],
    table: &LabelTable,
) -> Result<List<Formula>, Memory>
    ensures { IfOk result (λ all. all ≡ choice_sentences (read_choices table.now.keys witnesses.now)) }
{
    let mut sentences = Vec::new(alloc);
    for (k, witness) in witnesses.iter().enumerate() {
        sentences.push(sentence(alloc, number(k)?, witness, table)?)?;
    }
    Ok(List::from_vec(sentences))
}

fn sentence(
    alloc: Global,
    k: u32,
    witness: &WitnessDecl,
    table: &LabelTable,
) -> Result<Formula, Memory>
    ensures { IfOk result (λ f. f ≡ choice_sentence k (choice_of table.now.keys witness.now)) }
{
    let body = reading(alloc, &witness.formula, &[witness.sort], table)?;
    let of_it = instantiate(alloc, &body, &[Term::Const(Sym::Witness(k))])?;
    implies(alloc, any(alloc, witness.sort, body)?, of_it)
}
