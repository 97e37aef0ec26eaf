//! The watch lists. The clauses in the list of a literal are just those of two or more literals that have it at
//! place 0 or 1, each once. While a list is walked it is taken out, and its clauses are put back one by one, into the same
//! list or into that of another literal.

ghost use Rattle.std.specs.Prelude.{◌≡◌, ◌+◌, ◌*◌, ◌^◌, ◌<◌, [], ◌∷◌, ◌++◌, length, slice_set, replicate, IfOk, OnOk};
ghost use Rattle.lv_watch.specs.Lists.{slot, list_at};

use lv_cnf::{Lit, Memory};
use std::alloc::Global;
use std::marker::Model;
use std::mem;

/// The numbers of the clauses that watch one literal.
#[derive(Drop)]
pub struct WatchList {
    items: Vec<usize>,
}

impl Model for WatchList {
    ghost use Rattle.std.specs.Prelude.{List as Seq, ℕ};

    ghost Value = { Seq ℕ };

    ghost view = { λ a. a.items.items };
}

impl WatchList {
    /// No clause.
    fn new(alloc: Global) -> WatchList
        ensures { result ≡ [] }
    {
        WatchList {
            items: Vec::new(alloc),
        }
    }

    /// Adds a clause at the end. The only error is want of memory.
    fn push(&mut self, clause: usize) -> Result<(), Memory>
        ensures { OnOk result (self.new ≡ self.old ++ clause ∷ []) }
    {
        self.items.push(clause)?;
        Ok(())
    }

    /// The clauses in order.
    pub fn as_slice(&self) -> &[usize]
        ensures { result.now ≡ self.now }
    {
        self.items.as_slice()
    }
}

/// The watch list of each literal.
#[derive(Drop)]
pub struct Watches {
    lists: Vec<WatchList>,
}

impl Model for Watches {
    ghost use Rattle.std.specs.Prelude.{List as Seq, ℕ};

    ghost Value = { Seq (Seq ℕ) };

    ghost view = { λ a. a.lists.items };
}

/// The place of a literal's list.
fn slot_of(lit: Lit) -> usize
    ensures { result ≡ slot lit }
{
    2 * lit.var as usize + if lit.positive { 1 } else { 0 }
}

impl Watches {
    /// No clause watches any literal of the variables below `vars`. The only error is want of memory.
    pub fn new(alloc: Global, vars: usize) -> Result<Watches, Memory>
        ensures { IfOk result (λ w. w ≡ replicate (2 * vars) []) }
    {
        let mut lists: Vec<WatchList> = Vec::new(alloc);
        for var in 0..vars {
            lists.push(WatchList::new(alloc))?;
            lists.push(WatchList::new(alloc))?;
        }
        Ok(Watches { lists })
    }

    /// Adds a clause at the end of a literal's list. The only error is want of memory.
    pub fn add(&mut self, lit: Lit, clause: usize) -> Result<(), Memory>
        requires { slot lit < length self.old }
        ensures { OnOk result (self.new ≡ slice_set self.old (slot lit) (list_at self.old (slot lit) ++ clause ∷ [])) }
    {
        self.lists[slot_of(lit)].push(clause)
    }

    /// Takes the list of a literal out and leaves an empty one.
    pub fn take(&mut self, alloc: Global, lit: Lit) -> WatchList
        requires { slot lit < length self.old }
        ensures list { result ≡ list_at self.old (slot lit) }
        ensures emptied { self.new ≡ slice_set self.old (slot lit) [] }
    {
        mem::replace(&mut self.lists[slot_of(lit)], WatchList::new(alloc))
    }
}
