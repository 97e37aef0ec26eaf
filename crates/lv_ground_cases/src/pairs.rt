//! The pair of hypotheses and conclusion that a system stands for, and its normal form.
ghost use Rattle.std.specs.Prelude.{◌≡◌, true, []};
ghost use Rattle.lv_formula.specs.Fits.{all_fit_in};
ghost use Rattle.lv_formula.specs.Pairs.{SentencesFit};
ghost use Rattle.lv_places.specs.Sizes.{IsWithin};

use anyhow::{Context, Result, ensure};
use lv_formula::{ConShape, Formula, List, RelShape, Sentences, SortId, Sym, Vocabulary};
use lv_skolem::{Skolem, Universe, skolemise};
use lv_system::{Parts, Shape};
use std::alloc::Global;

/// The axioms and the invariants but the last, and what is to follow from them.
pub fn sentences(alloc: Global, parts: &Parts) -> Result<Sentences> {
    let mut hypotheses = Vec::new(alloc);
    for axiom in parts.axioms.as_slice() {
        hypotheses.push(axiom.share(alloc)?)?;
    }
    let (conclusion, others) = parts
        .invariants
        .as_slice()
        .split_last()
        .context("no invariant")?;
    for invariant in others {
        hypotheses.push(invariant.formula.share(alloc)?)?;
    }
    Ok(Sentences {
        hypotheses: List::from_vec(hypotheses),
        conclusion: conclusion.formula.share(alloc)?,
    })
}

/// The symbols of the system, and `saved`.
pub fn vocabulary(alloc: Global, parts: &Parts) -> Result<Vocabulary> {
    let mut relations = Vec::new(alloc);
    let mut constants = Vec::new(alloc);
    let mut order = Vec::new(alloc);
    for (i, symbol) in parts.symbols.as_slice().iter().enumerate() {
        let sym = Sym::Own(u32::try_from(i)?);
        match &symbol.shape {
            Shape::Relation(sorts) => relations.push(RelShape {
                sym,
                sorts: copied(alloc, sorts.as_slice())?,
            })?,
            Shape::Constant(sort) => constants.push(ConShape { sym, sort: *sort })?,
        }
        order.push(sym)?;
    }
    relations.push(RelShape {
        sym: Sym::Saved,
        sorts: copied(alloc, &[])?,
    })?;
    order.push(Sym::Saved)?;
    Ok(Vocabulary {
        sorts: u32::try_from(parts.sorts.as_slice().len())?,
        relations: List::from_vec(relations),
        constants: List::from_vec(constants),
        order: List::from_vec(order),
    })
}

fn copied(alloc: Global, sorts: &[SortId]) -> Result<List<SortId>> {
    Ok(List::from_vec(Vec::from_slice(alloc, sorts)?))
}

/// The sentences in normal form with what stands in them, and how many terms each sort has if there is a size.
#[tactic(auto, using(lv_skolem::proofs::Limits::within_where_sized))]
pub fn skolem_form(alloc: Global, voc: &Vocabulary, s: &Sentences) -> Result<(Skolem, Vec<usize>)> {
    ensure!(fit(voc, s), "a symbol that has no sorts here");
    let sk = skolemise(alloc, voc, s)?;
    let counts = match sk.size {
        Some(_) => counts(alloc, &sk)?,
        None => Vec::new(alloc),
    };
    Ok((sk, counts))
}

/// How many terms each sort has.
fn counts(alloc: Global, sk: &Skolem) -> Result<Vec<usize>>
    requires { IsWithin sk.now }
{
    let universe = Universe::new(alloc, sk)?;
    let mut counts = Vec::new(alloc);
    for terms in universe.terms.as_slice() {
        counts.push(terms.as_slice().len())?;
    }
    Ok(counts)
}

/// Whether the sentences are closed formulas over the vocabulary.
pub fn fit(voc: &Vocabulary, s: &Sentences) -> bool
    ensures { result ≡ true → SentencesFit voc.now s.now }
{
    all_fit(voc, s.hypotheses.as_slice()) && s.conclusion.fits(voc, &[])
}

fn all_fit(voc: &Vocabulary, formulas: &[Formula]) -> bool
    ensures { result ≡ all_fit_in voc.now [] formulas.now }
{
    for f in formulas {
        if !f.fits(voc, &[]) {
            return false;
        }
    }
    true
}
