ghost use Rattle.std.specs.Prelude.{◌≡◌};
ghost use Rattle.lv_run.specs.Answers.{detail_of};
ghost use Rattle.lv_run.specs.Calls.{status_of};

use lv_check::Checked;
use lv_cnf::Log;
use lv_formula::{List, SortId};
use lv_lasso::ReplayAnswer;
use lv_prove::Outcome;
use lv_struct::Structure;
use lv_syntax::SyntaxFault;
use lv_tree::TreeFault;

/// The answer of a call.
#[derive(Debug, Drop)]
pub enum Detail {
    /// All obligations of the system are valid; there are so many.
    Proved {
        obligations: u32,
    },
    /// This obligation is the first that isn't valid, and the structure breaks it. It has at most 256 elements in each sort.
    Counter {
        index: u32,
        structure: Structure,
    },
    /// This obligation is the first whose sort graph has a cycle, and this is one.
    NotStratified {
        index: u32,
        sorts: List<SortId>,
    },
    /// No sort graph has a cycle, and this obligation is the first whose size is above 4,000,000.
    TooLarge {
        index: u32,
    },
    /// The obligations before this one are valid. At this one the solver learned these clauses, as many as the budget allows.
    Spent {
        index: u32,
        log: Log,
    },
    /// The system was shown.
    Shown,
    /// The structure was checked against the obligation.
    Checked(Checked),
    /// The lasso was replayed.
    Replayed(ReplayAnswer),
    /// A chain was made. It has so many obligations. The largest size of one is as `survey` tells it, and 0 where it tells
    /// none. What became of them is the answer of `prove` with a budget of 100,000.
    Made {
        obligations: u32,
        largest: u64,
        answer: Outcome,
    },
    /// The command doesn't take the words.
    Usage,
    /// Reading the text failed.
    ReadFault,
    /// The text has more than 1,048,576 bytes.
    TooLong,
    /// The text spells no tree: its first fault.
    TreeRefused(TreeFault),
    /// The text spells a tree, and the tree no system: its first fault.
    SyntaxRefused(SyntaxFault),
    /// Writing a report failed.
    WriteFault,
    /// There was no memory for the answer.
    MemoryWanting,
}

impl Detail {
    /// What became of the obligations of a system.
    pub(crate) fn of(outcome: Outcome) -> Detail
        ensures { result ≡ detail_of outcome }
    {
        match outcome {
            Outcome::Proved { obligations } => Detail::Proved { obligations },
            Outcome::Counter { index, structure } => Detail::Counter { index, structure },
            Outcome::NotStratified { index, sorts } => Detail::NotStratified { index, sorts },
            Outcome::TooLarge { index } => Detail::TooLarge { index },
            Outcome::Spent { index, log } => Detail::Spent { index, log },
        }
    }

    /// The number with which the program ends.
    pub fn status(&self) -> u8
        ensures { result ≡ status_of self.now }
    {
        match self {
            Detail::Proved { .. }
            | Detail::Shown
            | Detail::Checked(Checked::Breaks)
            | Detail::Replayed(ReplayAnswer::Satisfies)
            | Detail::Made {
                answer: Outcome::Proved { .. },
                ..
            } => 0,
            Detail::Counter { .. }
            | Detail::Checked(_)
            | Detail::Replayed(_)
            | Detail::Made { .. } => 1,
            Detail::Usage => 2,
            Detail::TooLong | Detail::TreeRefused(_) | Detail::SyntaxRefused(_) => 3,
            Detail::NotStratified { .. } => 4,
            Detail::TooLarge { .. } => 5,
            Detail::Spent { .. } => 6,
            Detail::ReadFault => 7,
            Detail::WriteFault => 8,
            Detail::MemoryWanting => 9,
        }
    }
}
