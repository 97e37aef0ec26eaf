//! Answers cases. A case is a line of standard input, and its answer is the line of standard output with the same
//! number. An empty line, or one that begins with `#`, is printed as it is.
//!
//! ```text
//! run prove | (system a (property p))           a call with these words: its status, and what it writes to out and err
//! run show | (system a) | piece=3 out-fails=2   the same over streams that behave so
//! read | (system a)                             `system`, or the first fault of the text
//! tree | (a (b))                                the line of the tree, and the places of its brackets and words
//! justice | (system a (property p))             the justice conditions of the system, one behind the other; and so
//!                                               `equations`, `start` and `witnesses`
//! obligations | (system a (property p))         how many obligations there are, and their names
//! obligation 5 | (system a (property p))        the hypotheses of an obligation, `=>` and its conclusion
//! vocabulary 5 | (system a (property p))        the words of its vocabulary
//! ```
//!
//! The words of a call stand behind one space each. How a text and a word are written is told in `spelling`, how
//! streams behave in `streams`.
#![tactic(auto)]

mod answers;
mod obligations;
mod sentences;
mod spelling;
mod streams;

use answers::answer;
use std::io::{BufRead, BufReader, BufWriter, Write};

fn main(rt: HostRuntime) -> anyhow::Result<()> {
    let mut out = BufWriter::new(rt.alloc(), rt.stdout())?;
    for line in BufReader::new(rt.alloc(), rt.stdin())?.lines(rt.alloc()) {
        let line = line?;
        let answer = answer(rt.alloc(), line.as_str())?;
        writeln!(out, "{answer}")?;
    }
    out.flush()?;
    Ok(())
}
