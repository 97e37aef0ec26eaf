//! The one call that does all that the program does.
//!
//! A text is read as a tree and then as a system, which is shown, or whose obligations are decided; or as a system with a
//! structure that is checked against an obligation, or with a lasso that is replayed.
//! Where a chain is asked for no text is read: the chain is made, shown and decided.
#![tactic(auto)]

mod answer;
mod call;
mod detail;
pub mod laws;
mod making;
mod outcome;
mod reader;
mod refusals;
mod requests;
mod verdicts;

pub use call::{Report, run};
pub use detail::Detail;
pub use lv_check::Checked;
pub use lv_command::{Mode, TextMode};
pub use lv_lasso::ReplayAnswer;
pub use lv_prove::Outcome;
