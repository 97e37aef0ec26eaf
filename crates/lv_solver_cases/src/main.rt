//! Cases of the solver, one on each line of standard input, with one answer for each on standard output. What the
//! solver answers is compared with what plain code finds out, which shares nothing with the solver but clauses.
//!
//! - `check SHAPE BUDGET ..` solves a clause set with and without the log, and reads both answers (`plain`).
//! - `empty SHAPE BUDGET ..` does the same, and the log must be empty.
//! - `solve SHAPE BUDGET ..` only solves it.
//! - `nodes ATOMS ..` shows the clauses of propositions (`nodes`).
//! - A line that begins with `#` is written as it is.
//!
//! The shapes are told in `instances`.
#![tactic(auto)]

mod instances;
mod nodes;
mod plain;
mod solving;

use lv_cnf::Memory;
use std::alloc::Global;
use std::io;

/// The answer to a line.
fn answer(alloc: Global, line: &str) -> Result<String, Memory> {
    let Some((command, rest)) = line.split_once(' ') else {
        return Ok(String::from_str(alloc, "not a case")?);
    };
    if command == "#" {
        return Ok(String::from_str(alloc, line)?);
    }
    if command == "nodes" {
        return nodes::shown(alloc, rest);
    }
    let text = solving::answer(alloc, command, rest)?;
    Ok(String::from_str(alloc, text)?)
}

fn main(rt: HostRuntime) -> io::Result<()> {
    let alloc = rt.alloc();
    for line in rt.lines(alloc) {
        match answer(alloc, line?.as_str()) {
            Ok(text) => println!(rt; "{text}")?,
            Err(_) => println!(rt; "out of memory")?,
        }
    }
    Ok(())
}
