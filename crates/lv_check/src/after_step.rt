//! The structure after a step, as it is looked up.
ghost use Rattle.std.specs.Prelude.{◌≡◌, ◌&&◌, ◌||◌, ◌<◌, eqb, length, not};
ghost use Rattle.lv_formula.specs.declared.symbols.Sym.TheVariants.{Due};
ghost use Rattle.lv_formula.specs.Tuples as of_tuples;
ghost use Rattle.lv_struct.specs.Tables.{meaning};
ghost use Rattle.lv_system.specs.Step.{IsPerformed, set_value, symbol_at};
ghost use Rattle.lv_labels.specs.Monitor as monitor;
ghost use Rattle.lv_labels.specs.Problem.{problem_of};
ghost use Rattle.lv_labels.specs.Runs as runs;
ghost use Rattle.lv_check.specs.Performing.{AreDueAfter};

use crate::due::{is_freeze, is_save};
use lv_formula::{List, SortId, Sym};
use lv_labels::Move;
use lv_struct::{Interpretation, Structure};
use lv_system::{Action, Shape, Symbol, System};

/// The structure after a step of the monitored structure.
#[derive(Clone, Copy, Drop)]
pub(crate) struct AfterStep<'a> {
    pub(crate) system: &'a System,
    pub(crate) action: &'a Action,
    pub(crate) mv: Move,
    /// The structure before the step.
    pub(crate) before: &'a Structure,
    /// The elements with which the action is taken.
    pub(crate) elements: &'a [u32],
    /// The structure before the step with the action performed on its own symbols.
    pub(crate) acted: &'a Structure,
    /// For each justice condition the tuples that are due after the step.
    pub(crate) due: &'a [List<List<u32>>],
    ghost passed: { elements.now ≡ monitor.elements_in (meaning before.now) action.now },
    ghost performed: { IsPerformed system.now action.now elements.now (meaning before.now) (meaning acted.now) },
    ghost left: { AreDueAfter system.now mv action.now (meaning before.now) due.now },
}

/// Whether the symbol is a constant of the sort that actions may change.
fn is_changing_constant(symbol: &Symbol, sort: SortId) -> bool
    ensures { result ≡ (not symbol.now.fixed && runs.is_constant symbol.now sort) }
{
    match &symbol.shape {
        Shape::Relation(_) => false,
        Shape::Constant(other) => !symbol.fixed && other.0 == sort.0,
    }
}

/// Whether the element is among those that a step takes for parameters of the sort.
fn is_passed(params: &[SortId], elements: &[u32], sort: SortId, element: u32) -> bool
    ensures { result ≡ runs.is_passed params.now elements.now sort element }
{
    match params {
        [param, params @ ..] => match elements {
            [passed, elements @ ..] => {
                (param.0 == sort.0 && *passed == element)
                    || is_passed(params, elements, sort, element)
            }
            [] => false,
        },
        [] => false,
    }
}

/// Whether the tuple is one of the tuples.
fn has_tuple(tuples: &[List<u32>], tuple: &[u32]) -> bool
    ensures { result ≡ of_tuples.has_tuple tuples.now tuple.now }
{
    for t in tuples {
        if t.as_slice() == tuple {
            return true;
        }
    }
    false
}

impl<'a> AfterStep<'a> {
    /// Whether the symbol with that number is a changing constant of the sort, and the element after the action.
    fn becomes(&self, c: u32, sort: SortId, element: u32) -> bool
        requires { c < length self.now.system.now.symbols }
        ensures { result ≡ ((not (symbol_at self.now.system.now c).fixed && runs.is_constant (symbol_at self.now.system.now c) sort) && eqb (set_value (monitor.elements_in (meaning self.now.before.now) self.now.action.now) (meaning self.now.before.now) self.now.action.now.updates c) element) }
    {
        let symbol = &self.system.parts().symbols.as_slice()[c as usize];
        is_changing_constant(symbol, sort) && self.acted.value(Sym::Own(c)) == element
    }

    /// Whether some changing constant of the sort is the element after the action.
    #[tactic(auto, using(crate::proofs::Symbols::few_symbols))]
    fn is_new_value(&self, sort: SortId, element: u32) -> bool
        ensures { result ≡ monitor.is_new_value (problem_of self.now.system.now) self.now.action.now (meaning self.now.before.now) sort element }
    {
        let count = self.system.parts().symbols.as_slice().len() as u32;
        for c in 0..count {
            if self.becomes(c, sort, element) {
                return true;
            }
        }
        false
    }

    /// Whether the tuple is a touched element of the sort alone.
    fn is_touched(&self, sort: SortId, tuple: &[u32]) -> bool
        ensures { result ≡ monitor.single (λ x. monitor.is_gained (problem_of self.now.system.now) self.now.action.now (meaning self.now.before.now) sort x || monitor.is_touched (meaning self.now.before.now) sort x) tuple.now }
    {
        match tuple {
            [element] => {
                is_passed(self.action.params.as_slice(), self.elements, sort, *element)
                    || self.is_new_value(sort, *element)
                    || self.before.holds(Sym::Touched(sort), tuple)
            }
            _ => false,
        }
    }

    /// Whether the tuple of the condition with that number is due.
    fn is_due(&self, j: u32, tuple: &[u32]) -> bool
        ensures { result ≡ monitor.stepped_holds (problem_of self.now.system.now) self.now.mv self.now.action.now (meaning self.now.before.now) (Due j) tuple.now }
    {
        match self.due.get(j as usize) {
            Some(tuples) => has_tuple(tuples.as_slice(), tuple),
            None => false,
        }
    }
}

impl Interpretation for AfterStep<'_> {
    ghost meaning = { λ s. monitor.stepped (problem_of s.system.now) s.mv s.action.now (meaning s.before.now) };

    fn size(&self, sort: SortId) -> u32 {
        self.before.size(sort)
    }

    fn holds(&self, sym: Sym, tuple: &[u32]) -> bool {
        match sym {
            Sym::Own(_) => self.acted.holds(sym, tuple),
            Sym::Label(l) => self.before.holds(Sym::Next(l), tuple),
            Sym::Frozen => is_freeze(self.mv) || self.before.holds(sym, tuple),
            Sym::Saved => is_save(self.mv) || self.before.holds(sym, tuple),
            Sym::Touched(sort) => self.is_touched(sort, tuple),
            Sym::Kept(sort) => {
                if is_freeze(self.mv) {
                    self.before.holds(Sym::Touched(sort), tuple)
                } else {
                    self.before.holds(sym, tuple)
                }
            }
            Sym::Due(j) => self.is_due(j, tuple),
            Sym::Copy(r) => {
                if is_save(self.mv) {
                    self.before.holds(Sym::Own(r), tuple)
                } else {
                    self.before.holds(sym, tuple)
                }
            }
            Sym::CopyLabel(l) => {
                if is_save(self.mv) {
                    self.before.holds(Sym::Label(l), tuple)
                } else {
                    self.before.holds(sym, tuple)
                }
            }
            Sym::Witness(_) | Sym::Next(_) | Sym::Param(_) => false,
        }
    }

    fn value(&self, sym: Sym) -> u32 {
        match sym {
            Sym::Own(_) => self.acted.value(sym),
            Sym::Witness(_) => self.before.value(sym),
            Sym::Copy(c) => {
                if is_save(self.mv) {
                    self.before.value(Sym::Own(c))
                } else {
                    self.before.value(sym)
                }
            }
            _ => 0,
        }
    }
}
