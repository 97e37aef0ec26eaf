//! Answers cases about pairs of hypotheses and conclusion. A case is a line of standard input, and its answer is the line of
//! standard output with the same number. An empty line, or one that begins with `#`, is printed as it is.
//!
//! `N | TEXT` stands for obligation N of the system that the text spells. A text alone stands for a pair: its axioms and its
//! invariants but the last are the hypotheses, and the last invariant is the conclusion. They may speak of the system's symbols
//! and of `saved`. `ground | TEXT` stands for all obligations of the system.
//!
//! ```text
//! places t(1) s(); size 6; terms 1 2         each place as its sort with the variables that are its arguments, the
//!                                            size, and how many terms each sort has
//! places s(1); cycle s                       the sorts of a cycle of the sort graph
//! places; too large                          where the size is above the limit
//! atoms/sentences/clauses 6/4/2 none         of each obligation's ground form: its atoms, its sentences and the
//!                                            clauses of equality; `none` for a cycle or a size above the limit
//! ```
#![tactic(auto)]

mod answers;
mod obligations;
mod pairs;

use answers::answer;
use std::io::{BufRead, BufReader, BufWriter, Write};

fn main(rt: HostRuntime) -> anyhow::Result<()> {
    let mut out = BufWriter::new(rt.alloc(), rt.stdout())?;
    for line in BufReader::new(rt.alloc(), rt.stdin())?.lines(rt.alloc()) {
        let line = line?;
        let answer = answer(rt.alloc(), line.as_str())?;
        writeln!(out, "{answer}")?;
    }
    out.flush()?;
    Ok(())
}
