ghost use Rattle.std.specs.Prelude.{◌≡◌, ◌≤◌, ◌∷◌, ◌+◌};
ghost use Rattle.lv_formula.specs.Measures.{depth_of, depth_of_all};
ghost use Rattle.lv_struct.specs.Tables.{meaning};
ghost use Rattle.lv_formula.specs.Truth.{truth_in, all_true_in, any_true_in, all_below, any_below, value_of, values_of, iff};

use crate::env::Env;
use lv_formula::{Formula, Rc, SortId, Sym, Term};
use lv_struct::{Elements, Structure};

/// Whether the formula is true in the structure, where its free variables have the values of `env`, whose
/// innermost value is that of variable 0. Takes no memory, and leaves `env` as it was.
///
/// A variable without a value counts as element 0, and a symbol that is not there as an empty relation or
/// as element 0, so a formula that fits the structure's vocabulary and the context of `env` reads neither.
#[cycle(truth)]
pub fn truth(f: &Formula, m: &Structure, env: &mut Env) -> bool
    requires room { depth_of f.now ≤ env.old.room }
    ensures value { result ≡ truth_in (meaning m.now) f.now env.old.values }
    ensures unchanged { env.new ≡ env.old }
{
    match f {
        Formula::True => true,
        Formula::False => false,
        Formula::Atom(sym, terms) => atom_holds(*sym, terms.as_slice(), m, env),
        Formula::Same(a, b) => term_value(a, m, env) == term_value(b, m, env),
        Formula::Not(f) => !truth(f, m, env),
        Formula::And(fs) => all_hold(fs.as_slice(), m, env),
        Formula::Or(fs) => any_holds(fs.as_slice(), m, env),
        Formula::Implies(a, b) => !truth(a, m, env) || truth(b, m, env),
        Formula::Iff(a, b) => both_or_neither(truth(a, m, env), truth(b, m, env)),
        Formula::All(sort, f) => holds_for_all(*sort, f, m, env),
        Formula::Any(sort, f) => holds_for_any(*sort, f, m, env),
    }
}

/// Whether both are true, or neither is.
fn both_or_neither(a: bool, b: bool) -> bool
    ensures { result ≡ iff a b }
{
    if a { b } else { !b }
}

/// Whether each of the formulas is true.
#[cycle(truth)]
fn all_hold(fs: &[Rc<Formula>], m: &Structure, env: &mut Env) -> bool
    requires room { depth_of_all fs.now ≤ env.old.room }
    ensures value { result ≡ all_true_in (meaning m.now) fs.now env.old.values }
    ensures unchanged { env.new ≡ env.old }
{
    for f in fs {
        if !truth(f, m, env) {
            return false;
        }
    }
    true
}

/// Whether some formula is true.
#[cycle(truth)]
fn any_holds(fs: &[Rc<Formula>], m: &Structure, env: &mut Env) -> bool
    requires room { depth_of_all fs.now ≤ env.old.room }
    ensures value { result ≡ any_true_in (meaning m.now) fs.now env.old.values }
    ensures unchanged { env.new ≡ env.old }
{
    for f in fs {
        if truth(f, m, env) {
            return true;
        }
    }
    false
}

/// Whether the formula is true with each element of the sort as the innermost value.
#[cycle(truth)]
fn holds_for_all(sort: SortId, f: &Formula, m: &Structure, env: &mut Env) -> bool
    requires room { depth_of f.now + 1 ≤ env.old.room }
    ensures value { result ≡ all_below ((meaning m.now).size sort) (λ x. truth_in (meaning m.now) f.now (x ∷ env.old.values)) }
    ensures unchanged { env.new ≡ env.old }
{
    for x in 0..m.size(sort) {
        if !truth_with(x, f, m, env) {
            return false;
        }
    }
    true
}

/// Whether the formula is true with some element of the sort as the innermost value.
#[cycle(truth)]
fn holds_for_any(sort: SortId, f: &Formula, m: &Structure, env: &mut Env) -> bool
    requires room { depth_of f.now + 1 ≤ env.old.room }
    ensures value { result ≡ any_below ((meaning m.now).size sort) (λ x. truth_in (meaning m.now) f.now (x ∷ env.old.values)) }
    ensures unchanged { env.new ≡ env.old }
{
    for witness in 0..m.size(sort) {
        if truth_with(witness, f, m, env) {
            return true;
        }
    }
    false
}

/// The element that the term stands for.
fn term_value(term: &Term, m: &Structure, env: &Env) -> u32
    ensures { result ≡ value_of (meaning m.now) env.now.values term.now }
{
    match term {
        Term::Var(i) => env.value(*i),
        Term::Const(sym) => m.value(*sym),
    }
}

/// The elements that some terms stand for, as a tuple.
#[derive(Clone, Copy, Drop)]
struct TermElements<'a> {
    terms: &'a [Term],
    structure: &'a Structure,
    env: &'a Env,
}

impl Elements for TermElements<'_> {
    ghost elements = { λ t. values_of (meaning t.structure.now) t.env.now.values t.terms.now };

    fn count(&self) -> usize {
        self.terms.len()
    }

    fn at(&self, i: usize) -> u32 {
        term_value(&self.terms[i], self.structure, self.env)
    }
}

/// Whether the tuple of the terms' elements is in the relation.
fn atom_holds(sym: Sym, terms: &[Term], m: &Structure, env: &Env) -> bool
    ensures { result ≡ (meaning m.now).holds sym (values_of (meaning m.now) env.now.values terms.now) }
{
    let tuple = TermElements {
        terms,
        structure: m,
        env,
    };
    m.has(sym, &tuple)
}

/// Whether the formula is true with the element as the innermost value.
#[cycle(truth)]
fn truth_with(x: u32, f: &Formula, m: &Structure, env: &mut Env) -> bool
    requires room { depth_of f.now + 1 ≤ env.old.room }
    ensures value { result ≡ truth_in (meaning m.now) f.now (x ∷ env.old.values) }
    ensures unchanged { env.new ≡ env.old }
{
    env.push(x);
    let holds = truth(f, m, env);
    env.pop();
    holds
}
