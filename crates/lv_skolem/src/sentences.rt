//! Sentences and what stands in them.
ghost use Rattle.std.specs.Prelude.{◌≡◌, None, IfOk, option_copied};
ghost use Rattle.lv_formula.specs.declared.vocabulary.Sentences.{Sentences};
ghost use Rattle.lv_formula.specs.declared.vocabulary.Vocabulary.{Vocabulary};
ghost use Rattle.lv_formula.specs.Pairs.{SentencesFit};
ghost use Rattle.lv_places.specs.Sizes.{SizeIs};
ghost use Rattle.lv_places.specs.SortGraphs.{TellsCycle};
ghost use Rattle.lv_skolem.specs.Skolems.{normal_forms, IsSkolem};

use crate::counting::counts_of;
use crate::cycles::cycle_of;
use crate::sizing::capped_size;
use lv_formula::{Formula, List, Memory, Sentences, SortId, Vocabulary};
use lv_places::{Skolem, occurring_constants, occurring_relations, places};
use lv_rewrite::nnf;
use std::alloc::Global;

/// The greatest size of sentences that are ground.
const LIMIT: u64 = 4_000_000;

/// The sentences in normal form, with their places, the symbols that occur, a cycle of the sort graph if
/// there is one, and else the size if it is within the limit.
///
/// The error is want of memory, also where the number of a variable would pass the greatest `u32`.
pub fn skolemise(alloc: Global, voc: &Vocabulary, s: &Sentences) -> Result<Skolem, Memory>
    requires { SentencesFit voc.now s.now }
    ensures { IfOk result (IsSkolem voc.now s.now) }
{
    let forms = normal_forms_of(alloc, s)?;
    let places = places(alloc, forms.as_slice())?;
    let constants = occurring_constants(alloc, forms.as_slice(), voc.constants.as_slice())?;
    let relations = occurring_relations(alloc, forms.as_slice(), voc.relations.as_slice())?;
    let cycle = cycle_of(alloc, voc.sorts, places.as_slice())?;
    let is_cyclic = cycle.is_some();
    let sk = Skolem {
        sorts: voc.sorts,
        forms,
        places,
        constants,
        relations,
        cycle,
        size: None,
    };
    if is_cyclic {
        return Ok(sk);
    }
    let size = size_within(alloc, &sk)?;
    Ok(Skolem { size, ..sk })
}

/// The cycle of the sort graph that was found: distinct sorts, with an edge from each to the next and one
/// from the last to the first. `None` where the sort graph has no cycle.
pub fn cycle(sk: &Skolem) -> Option<&List<SortId>>
    ensures value { option_copied result ≡ sk.now.cycle }
    ensures exact { (voc : Vocabulary) (s : Sentences) → IsSkolem voc s sk.now → TellsCycle sk.now.places (option_copied result) }
{
    sk.cycle.as_ref()
}

/// The number of nodes of the ground forms and of equality clauses, where it is at most 4,000,000. `None`
/// exactly where it is above that, if the sort graph has no cycle.
pub fn ground_size(sk: &Skolem) -> Option<u64>
    ensures value { result ≡ sk.now.size }
    ensures exact { (voc : Vocabulary) (s : Sentences) → IsSkolem voc s sk.now → sk.now.cycle ≡ None → SizeIs sk.now result }
{
    sk.size
}

/// The normal forms of the hypotheses, and last that of the negated conclusion.
fn normal_forms_of(alloc: Global, s: &Sentences) -> Result<List<Formula>, Memory>
    ensures { IfOk result (λ fs. fs ≡ normal_forms s.now) }
{
    let mut forms = Vec::new(alloc);
    for f in s.hypotheses.as_slice() {
        forms.push(nnf(alloc, f, true)?)?;
    }
    forms.push(nnf(alloc, &s.conclusion, false)?)?;
    Ok(List::from_vec(forms))
}

/// The size, where it is within the limit.
fn size_within(alloc: Global, sk: &Skolem) -> Result<Option<u64>, Memory>
    ensures { IfOk result (λ size. SizeIs sk.now size) }
{
    match counts_of(alloc, sk)? {
        None => Ok(None),
        Some(counts) => {
            let size = capped_size(alloc, sk, counts.as_slice())?;
            if size <= LIMIT {
                Ok(Some(size))
            } else {
                Ok(None)
            }
        }
    }
}
