//! The trees that are shown for terms and formulas.
ghost use Rattle.std.specs.Prelude.{◌≡◌, ◌∷◌, ◌++◌, [], List, map, codes, IfOk, OnOk};
ghost use Rattle.lv_grammar.specs.Words.{sort_name, symbol_word};
ghost use Rattle.lv_grammar.specs.ShownFormulas.{word, list, variable_name, deeper, shown_term, shown_atom, shown_temporal, shown_temporals, shown_formula, shown_formulas};
ghost use Rattle.lv_grammar.specs.Tables.{IsTable};

use crate::trees::{eventually, list, many, pair, triple, variable, word};
use lv_formula::{Formula, Memory, Rc, SortId, Sym, Temporal, Term};
use lv_grammar::words::{Words, sort_name, symbol_word};
use lv_tree::Tree;
use std::alloc::Global;

/// The word of the symbol, as a tree.
fn symbol(alloc: Global, sym: Sym, words: &Words) -> Result<Tree, Memory>
    requires { IsTable words.now.parts.now words.now.labels.now }
    ensures { IfOk result (λ t. t ≡ word (symbol_word words.now.parts.now sym)) }
{
    Ok(Tree::Word {
        at: 0,
        text: symbol_word(alloc, sym, words)?,
    })
}

/// A term in the scope of so many variables.
pub(crate) fn term(alloc: Global, term: &Term, words: &Words, depth: u64) -> Result<Tree, Memory>
    requires { IsTable words.now.parts.now words.now.labels.now }
    ensures { IfOk result (λ t. t ≡ shown_term words.now.parts.now depth term.now) }
{
    match term {
        Term::Var(i) => variable(alloc, depth.saturating_sub(1).saturating_sub(*i as u64)),
        Term::Const(sym) => symbol(alloc, *sym, words),
    }
}

/// An atom: a bare word, or a list where there are terms.
fn atom(alloc: Global, sym: Sym, terms: &[Term], words: &Words, depth: u64) -> Result<Tree, Memory>
    requires { IsTable words.now.parts.now words.now.labels.now }
    ensures { IfOk result (λ t. t ≡ shown_atom (symbol_word words.now.parts.now sym) (map (shown_term words.now.parts.now depth) terms.now)) }
{
    let head = symbol(alloc, sym, words)?;
    if terms.is_empty() {
        return Ok(head);
    }
    let mut items = Vec::new(alloc);
    items.push(head)?;
    for x in terms {
        items.push(term(alloc, x, words, depth)?)?;
    }
    Ok(list(items))
}

/// An equation of two terms.
fn equation(alloc: Global, a: &Term, b: &Term, words: &Words, depth: u64) -> Result<Tree, Memory>
    requires { IsTable words.now.parts.now words.now.labels.now }
    ensures { IfOk result (λ t. t ≡ list (word (codes "=") ∷ shown_term words.now.parts.now depth a.now ∷ shown_term words.now.parts.now depth b.now ∷ [])) }
{
    let left = term(alloc, a, words, depth)?;
    triple(alloc, b"=", left, term(alloc, b, words, depth)?)
}

/// A quantifier over the formula of which this is the tree.
fn binder(
    alloc: Global,
    head: &[u8],
    sort: SortId,
    body: Tree,
    words: &Words,
    depth: u64,
) -> Result<Tree, Memory>
    ensures { IfOk result (λ t. t ≡ list (word head.now ∷ word (variable_name depth) ∷ word (sort_name words.now.parts.now sort) ∷ body ∷ [])) }
{
    let mut items = Vec::new(alloc);
    items.push(word(alloc, head)?)?;
    items.push(variable(alloc, depth)?)?;
    items.push(word(alloc, sort_name(sort, words.parts))?)?;
    items.push(body)?;
    Ok(list(items))
}

/// A formula in the scope of so many variables.
#[cycle(formula)]
pub(crate) fn formula(alloc: Global, f: &Formula, words: &Words, depth: u64) -> Result<Tree, Memory>
    requires { IsTable words.now.parts.now words.now.labels.now }
    ensures { IfOk result (λ t. t ≡ shown_formula words.now.parts.now f.now depth) }
{
    match f {
        Formula::True => word(alloc, b"true"),
        Formula::False => word(alloc, b"false"),
        Formula::Atom(sym, terms) => atom(alloc, *sym, terms.as_slice(), words, depth),
        Formula::Same(a, b) => equation(alloc, a, b, words, depth),
        Formula::Not(f) => pair(alloc, b"not", formula(alloc, f, words, depth)?),
        Formula::And(fs) => formulas(alloc, b"and", fs.as_slice(), words, depth),
        Formula::Or(fs) => formulas(alloc, b"or", fs.as_slice(), words, depth),
        Formula::Implies(f, g) => {
            let left = formula(alloc, f, words, depth)?;
            triple(alloc, b"implies", left, formula(alloc, g, words, depth)?)
        }
        Formula::Iff(f, g) => {
            let left = formula(alloc, f, words, depth)?;
            triple(alloc, b"iff", left, formula(alloc, g, words, depth)?)
        }
        Formula::All(sort, f) => {
            let body = formula(alloc, f, words, depth.saturating_add(1))?;
            binder(alloc, b"all", *sort, body, words, depth)
        }
        Formula::Any(sort, f) => {
            let body = formula(alloc, f, words, depth.saturating_add(1))?;
            binder(alloc, b"some", *sort, body, words, depth)
        }
    }
}

/// A list of a word and the formulas.
#[cycle(formula)]
fn formulas(
    alloc: Global,
    head: &[u8],
    fs: &[Rc<Formula>],
    words: &Words,
    depth: u64,
) -> Result<Tree, Memory>
    requires { IsTable words.now.parts.now words.now.labels.now }
    ensures { IfOk result (λ t. t ≡ list (word head.now ∷ shown_formulas words.now.parts.now fs.now depth)) }
{
    let mut items = Vec::new(alloc);
    items.push(word(alloc, head)?)?;
    for f in fs {
        items.push(formula(alloc, f, words, depth)?)?;
    }
    Ok(list(items))
}

/// A temporal formula in the scope of so many variables.
#[cycle(temporal)]
pub(crate) fn temporal(
    alloc: Global,
    f: &Temporal,
    words: &Words,
    depth: u64,
) -> Result<Tree, Memory>
    requires { IsTable words.now.parts.now words.now.labels.now }
    ensures { IfOk result (λ t. t ≡ shown_temporal words.now.parts.now f.now depth) }
{
    match f {
        Temporal::True => word(alloc, b"true"),
        Temporal::False => word(alloc, b"false"),
        Temporal::Atom(sym, terms) => atom(alloc, *sym, terms.as_slice(), words, depth),
        Temporal::Same(a, b) => equation(alloc, a, b, words, depth),
        Temporal::Not(f) => pair(alloc, b"not", temporal(alloc, f, words, depth)?),
        Temporal::And(fs) => many(
            alloc,
            b"and",
            temporals(alloc, fs.as_slice(), words, depth)?,
        ),
        Temporal::Or(fs) => many(alloc, b"or", temporals(alloc, fs.as_slice(), words, depth)?),
        Temporal::Implies(f, g) => {
            let left = temporal(alloc, f, words, depth)?;
            triple(alloc, b"implies", left, temporal(alloc, g, words, depth)?)
        }
        Temporal::Iff(f, g) => {
            let left = temporal(alloc, f, words, depth)?;
            triple(alloc, b"iff", left, temporal(alloc, g, words, depth)?)
        }
        Temporal::All(sort, f) => {
            let body = temporal(alloc, f, words, depth.saturating_add(1))?;
            binder(alloc, b"all", *sort, body, words, depth)
        }
        Temporal::Any(sort, f) => {
            let body = temporal(alloc, f, words, depth.saturating_add(1))?;
            binder(alloc, b"some", *sort, body, words, depth)
        }
        Temporal::Always(f) => pair(alloc, b"always", temporal(alloc, f, words, depth)?),
        Temporal::Eventually(f) => eventually(alloc, temporal(alloc, f, words, depth)?),
    }
}

/// The trees of the temporal formulas.
#[tactic(auto, using(crate::proofs::Nodes::part_below))]
#[cycle(temporal)]
fn temporals(
    alloc: Global,
    fs: &[Rc<Temporal>],
    words: &Words,
    depth: u64,
) -> Result<Vec<Tree>, Memory>
    requires { IsTable words.now.parts.now words.now.labels.now }
    ensures { IfOk result (λ ts. ts.items ≡ shown_temporals words.now.parts.now fs.now depth) }
{
    let mut trees = Vec::new(alloc);
    for f in fs {
        trees.push(temporal(alloc, f, words, depth)?)?;
    }
    Ok(trees)
}
