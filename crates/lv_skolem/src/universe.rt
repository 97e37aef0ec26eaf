//! The universe.
ghost use Rattle.std.specs.Prelude.{IfOk};
ghost use Rattle.lv_places.specs.Sizes.{IsWithin};
ghost use Rattle.lv_places.specs.Universes.{IsUniverse};

use crate::counting::counts_of;
use crate::filling::all_terms;
use lv_formula::{List, Memory};
use lv_places::{GroundTerm, Skolem};
use std::alloc::Global;

/// The terms of each sort, by the sort's number.
#[derive(Debug, Drop)]
pub struct Universe {
    pub terms: List<List<GroundTerm>>,
}

impl Universe {
    /// The terms of each sort: its constants that occur, then for each of its places one term for each
    /// tuple of terms of the place's arguments, and one extra term if there is none so far. Constants are in
    /// order of the vocabulary, places in preorder, and tuples in lexicographic order.
    ///
    /// The terms must be finitely many and the size within the limit, as `ground_size` tells of sentences
    /// without a cycle. The error is want of memory.
    pub fn new(alloc: Global, sk: &Skolem) -> Result<Universe, Memory>
        requires { IsWithin sk.now }
        ensures { IfOk result (λ u. IsUniverse sk.now u.terms) }
    {
        match counts_of(alloc, sk)? {
            Some(counts) => {
                let terms = all_terms(alloc, sk, counts.as_slice())?;
                Ok(Universe { terms })
            }
            None => unreachable!(),
        }
    }
}
