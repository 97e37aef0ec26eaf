//! Which hypotheses and conclusions are decided.
ghost use Rattle.std.specs.Prelude.{IfOk};
ghost use Rattle.lv_formula.specs.Pairs.{SentencesFit};
ghost use Rattle.lv_decide.specs.Fragments.{IsFragment};

use lv_formula::{List, Memory, Sentences, SortId, Vocabulary};
use lv_skolem::{Skolem, skolemise};
use std::alloc::Global;

/// Whether hypotheses and a conclusion are decided.
#[derive(Debug, Drop)]
pub enum Fragment {
    /// They are not: the sort graph has this cycle.
    Cycle { sorts: List<SortId> },
    /// They are not: the sort graph has no cycle, and the size is above 4,000,000.
    TooLarge,
    /// They are: the sort graph has no cycle, and this is the size.
    Size { size: u64 },
}

/// Whether the hypotheses and the conclusion are decided: a cycle of their sort graph, if there is one, and else their
/// size, as far as it is at most 4,000,000. The error is want of memory.
///
/// The caller sees to it that they are closed formulas over the vocabulary.
pub fn measure(alloc: Global, voc: &Vocabulary, s: &Sentences) -> Result<Fragment, Memory>
    requires { SentencesFit voc.now s.now }
    ensures { IfOk result (IsFragment voc.now s.now) }
{
    let Skolem { cycle, size, .. } = skolemise(alloc, voc, s)?;
    Ok(match cycle {
        Some(sorts) => Fragment::Cycle { sorts },
        None => match size {
            Some(size) => Fragment::Size { size },
            None => Fragment::TooLarge,
        },
    })
}
