//! Which obligations are decided at all.
ghost use Rattle.std.specs.Prelude.{◌≡◌, ◌<◌, IfOk, length};
ghost use Rattle.lv_labels.specs.Obligations.{InvariantsFit, obligations_of};
ghost use Rattle.lv_labels.specs.Rows.{IsTableOf};
ghost use Rattle.lv_decide.specs.Fragments.{IsFragment};
ghost use Rattle.lv_prove.specs.Outcomes.{IsSurveyed, sentences_at, vocabulary_at};
ghost use Rattle.lv_prove.specs.Surveying.{and_large, and_size};

use lv_decide::{Fragment, measure};
use lv_formula::{List, Memory, SortId};
use lv_labels::LabelTable;
use lv_oblig::{count, sentences, vocabulary};
use lv_system::System;
use std::alloc::Global;

/// Whether all obligations of a system are decided.
#[derive(Debug, Drop)]
pub enum Surveyed {
    /// All are, and this is the greatest size.
    Fits { largest: u64 },
    /// This obligation is the first whose sort graph has a cycle, and this is one.
    NotStratified { index: u32, sorts: List<SortId> },
    /// No sort graph has a cycle, and this obligation is the first whose size is above 4,000,000.
    TooLarge { index: u32 },
}

/// What was seen of the first obligations, none of which has a cycle.
#[derive(Clone, Copy)]
enum Seen {
    /// All sizes are within the limit, and this is the greatest.
    AllSmall { largest: u64 },
    /// This obligation is the first whose size is above the limit.
    Large { first: u32 },
}

impl Seen {
    /// With one more obligation, of this size within the limit.
    fn and_size(self, size: u64) -> Seen
        ensures { result ≡ and_size self size }
    {
        match self {
            Seen::AllSmall { largest } => Seen::AllSmall {
                largest: largest.max(size),
            },
            Seen::Large { first } => Seen::Large { first },
        }
    }

    /// With one more obligation, above the limit.
    fn and_large(self, index: u32) -> Seen
        ensures { result ≡ and_large self index }
    {
        match self {
            Seen::AllSmall { largest: _ } => Seen::Large { first: index },
            Seen::Large { first } => Seen::Large { first },
        }
    }
}

/// What the obligation with that number measures.
fn measure_at(
    alloc: Global,
    system: &System,
    table: &LabelTable,
    i: u32,
) -> Result<Fragment, Memory>
    requires number { i < length (obligations_of system.now) }
    requires table { IsTableOf system.now table.now }
    requires invariants { InvariantsFit system.now }
    ensures { IfOk result (IsFragment (vocabulary_at system.now i) (sentences_at system.now i)) }
{
    let voc = vocabulary(alloc, system, table, i)?;
    let s = sentences(alloc, system, table, i)?;
    measure(alloc, &voc, &s)
}

/// Whether all obligations are decided: the first one whose sort graph has a cycle, else the first one that is too large,
/// else the greatest size. The error is want of memory.
///
/// The caller sees to it that the table is the system's, and that the invariants stand over the words of the monitored
/// structure.
#[tactic(auto, using(crate::proofs::Surveys::seen_none, crate::proofs::Surveys::surveyed_cycle))]
pub fn survey(alloc: Global, system: &System, table: &LabelTable) -> Result<Surveyed, Memory>
    requires table { IsTableOf system.now table.now }
    requires invariants { InvariantsFit system.now }
    ensures { IfOk result (IsSurveyed system.now) }
{
    let mut seen = Seen::AllSmall { largest: 0 };
    for index in 0..count(system) {
        seen = match measure_at(alloc, system, table, index)? {
            Fragment::Cycle { sorts } => return Ok(Surveyed::NotStratified { index, sorts }),
            Fragment::TooLarge => seen.and_large(index),
            Fragment::Size { size } => seen.and_size(size),
        };
    }
    match seen {
        Seen::AllSmall { largest } => Ok(Surveyed::Fits { largest }),
        Seen::Large { first } => Ok(Surveyed::TooLarge { index: first }),
    }
}
