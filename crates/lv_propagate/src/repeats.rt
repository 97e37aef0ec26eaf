//! Clauses without repeated literals. What watches a clause by two of its literals needs these to differ; and a clause that has
//! a literal beside its negation is always true, and says nothing.

ghost use Rattle.std.specs.Prelude.{◌≡◌, ◌++◌, ◌∷◌, [], IfOk, OnOk, IsTrue, ◌↔◌};
ghost use Rattle.std.specs.List.{Contains};
ghost use Rattle.lv_propagate.specs.Repeats.{UnrepeatedIs};

use lv_cnf::{Lit, Memory};
use std::alloc::Global;

/// Whether the literal is one of these.
fn has(lits: &[Lit], lit: Lit) -> bool
    ensures { IsTrue result ↔ Contains lits.now lit }
{
    lits.contains(&lit)
}

/// Adds a literal at the end.
fn add(out: &mut Vec<Lit>, lit: Lit) -> Result<(), Memory>
    ensures { OnOk result (out.new.items ≡ out.old.items ++ lit ∷ []) }
{
    out.push(lit)?;
    Ok(())
}

/// The literals, each once; none where one stands beside its negation. The only error is want of memory.
pub fn without_repeats(alloc: Global, lits: &[Lit]) -> Result<Option<Vec<Lit>>, Memory>
    ensures { IfOk result (UnrepeatedIs lits.now) }
{
    let mut out: Vec<Lit> = Vec::new(alloc);
    for lit in lits {
        if has(out.as_slice(), lit.negated()) {
            return Ok(None);
        }
        if !has(out.as_slice(), *lit) {
            add(&mut out, *lit)?;
        }
    }
    Ok(Some(out))
}
