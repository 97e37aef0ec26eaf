//! The trees that are shown for the items of a system.
ghost use Rattle.std.specs.Prelude.{◌≡◌, ◌∷◌, ◌++◌, [], ℕ, List, length, map, codes, IfOk, OnOk};
ghost use Rattle.lv_tree.specs.declared.tree.Tree.{Tree};
ghost use Rattle.lv_system.specs.declared.parts.Parts.{Parts};
ghost use Rattle.lv_grammar.specs.Grammar.{argument_sorts, in_order};
ghost use Rattle.lv_grammar.specs.ShownFormulas.{word, list, variable_name, deeper, shown_term, shown_temporal, shown_formula};
ghost use Rattle.lv_grammar.specs.ShownSystems.{shown_mark, shown_sort, shape_word, shown_sort_name, shown_shape, shown_symbol, shown_pairs, shown_names, shown_parameters, shown_lone, shown_setting, shown_update, shown_action, shown_declaration, shown_fair, shown_label, shown_witness, shown_property, shown_invariant, shown_items};
ghost use Rattle.lv_grammar.specs.Tables.{IsTable};

use crate::formulas::{formula, temporal, term};
use crate::trees::{invariant_word, list, pair, triple, variable, word};
use lv_formula::{Formula, Memory, SortId};
use lv_grammar::words::{Words, own_name, sort_name};
use lv_system::{
    Action, ActionUpdate, Fair, Invariant, LabelDecl, Parts, Shape, Sort, Symbol, WitnessDecl,
};
use lv_tree::Tree;
use std::alloc::Global;

/// An item of a system that is shown as a tree.
trait Item {
    ghost shown: { Parts → Self → Tree };

    /// The tree of the item. The error is want of memory.
    fn tree(&self, alloc: Global, words: &Words) -> Result<Tree, Memory>
        requires { IsTable words.now.parts.now words.now.labels.now }
        ensures { IfOk result (λ t. t ≡ shown words.now.parts.now self.now) };
}

/// Adds the word, if it is to be there.
fn push_mark(alloc: Global, items: &mut Vec<Tree>, text: &[u8], there: bool) -> Result<(), Memory>
    ensures { OnOk result (items.new.items ≡ items.old.items ++ shown_mark text.now there) }
{
    if there {
        items.push(word(alloc, text)?)?;
    }
    Ok(())
}

impl Item for Sort {
    ghost shown = { λ p s. shown_sort s };

    fn tree(&self, alloc: Global, words: &Words) -> Result<Tree, Memory> {
        let mut items = Vec::new(alloc);
        items.push(word(alloc, b"sort")?)?;
        items.push(word(alloc, self.name.as_slice())?)?;
        push_mark(alloc, &mut items, b"finite", self.finite)?;
        Ok(list(items))
    }
}

/// The sorts of a relation's arguments, or the sort of a constant.
fn shape(alloc: Global, shape: &Shape, parts: &Parts) -> Result<Tree, Memory>
    ensures { IfOk result (λ t. t ≡ shown_shape parts.now shape.now) }
{
    match shape {
        Shape::Relation(sorts) => sort_names(alloc, sorts.as_slice(), parts),
        Shape::Constant(sort) => word(alloc, sort_name(*sort, parts)),
    }
}

/// A list of the names of sorts.
fn sort_names(alloc: Global, sorts: &[SortId], parts: &Parts) -> Result<Tree, Memory>
    ensures { IfOk result (λ t. t ≡ list (map (shown_sort_name parts.now) sorts.now)) }
{
    let mut items = Vec::new(alloc);
    for sort in sorts {
        items.push(word(alloc, sort_name(*sort, parts))?)?;
    }
    Ok(list(items))
}

/// The word with which the declaration of a symbol of this shape begins.
fn shape_word(shape: &Shape) -> &[u8]
    ensures { result.now ≡ shape_word shape.now }
{
    match shape {
        Shape::Relation(_) => b"relation",
        Shape::Constant(_) => b"constant",
    }
}

impl Item for Symbol {
    ghost shown = { λ p s. shown_symbol p s };

    fn tree(&self, alloc: Global, words: &Words) -> Result<Tree, Memory> {
        let mut items = Vec::new(alloc);
        items.push(word(alloc, shape_word(&self.shape))?)?;
        items.push(word(alloc, self.name.as_slice())?)?;
        items.push(shape(alloc, &self.shape, words.parts)?)?;
        push_mark(alloc, &mut items, b"fixed", self.fixed)?;
        Ok(list(items))
    }
}

/// A list of variables of these sorts, each with its sort.
fn parameters(alloc: Global, sorts: &[SortId], parts: &Parts) -> Result<Tree, Memory>
    ensures { IfOk result (λ t. t ≡ shown_parameters parts.now sorts.now) }
{
    let mut items = Vec::new(alloc);
    let mut number = 0u64;
    for sort in sorts {
        items.push(variable(alloc, number)?)?;
        items.push(word(alloc, sort_name(*sort, parts))?)?;
        number = number.saturating_add(1);
    }
    Ok(list(items))
}

/// A list of variables, one for each of these sorts, in the scope of so many others.
fn variables(alloc: Global, sorts: &[SortId], depth: u64) -> Result<Tree, Memory>
    ensures { IfOk result (λ t. t ≡ list (shown_names depth sorts.now)) }
{
    let mut items = Vec::new(alloc);
    let mut number = depth;
    for _sort in sorts {
        items.push(variable(alloc, number)?)?;
        number = number.saturating_add(1);
    }
    Ok(list(items))
}

/// A list of the word and the formula.
fn lone(alloc: Global, head: &[u8], f: &Formula, words: &Words, depth: u64) -> Result<Tree, Memory>
    requires { IsTable words.now.parts.now words.now.labels.now }
    ensures { IfOk result (λ t. t ≡ shown_lone words.now.parts.now head.now depth f.now) }
{
    pair(alloc, head, formula(alloc, f, words, depth)?)
}

/// The sorts of the arguments of the symbol with the number. A constant has none.
#[tactic(auto, using(lv_grammar::proofs::Elements::element_there, lv_grammar::proofs::Elements::element_past))]
fn argument_sorts(parts: &Parts, symbol: u32) -> &[SortId]
    ensures { result.now ≡ argument_sorts parts.now symbol }
{
    let symbols = parts.symbols.as_slice();
    let place = symbol as usize;
    if place < symbols.len() {
        match &symbols[place].shape {
            Shape::Relation(sorts) => sorts.as_slice(),
            Shape::Constant(_) => &[],
        }
    } else {
        &[]
    }
}

/// What a relation is set to, which stands in the scope of so many variables and of the arguments.
fn setting(
    alloc: Global,
    symbol: u32,
    body: &Formula,
    words: &Words,
    depth: u64,
) -> Result<Tree, Memory>
    requires { IsTable words.now.parts.now words.now.labels.now }
    ensures { IfOk result (λ t. t ≡ shown_setting words.now.parts.now depth symbol (argument_sorts words.now.parts.now symbol) body.now) }
{
    let sorts = argument_sorts(words.parts, symbol);
    let mut items = Vec::new(alloc);
    items.push(word(alloc, b"set")?)?;
    items.push(word(alloc, own_name(symbol, words.parts))?)?;
    items.push(variables(alloc, sorts, depth)?)?;
    let inner = depth.saturating_add(sorts.len() as u64);
    items.push(formula(alloc, body, words, inner)?)?;
    Ok(list(items))
}

fn update(alloc: Global, update: &ActionUpdate, words: &Words, depth: u64) -> Result<Tree, Memory>
    requires { IsTable words.now.parts.now words.now.labels.now }
    ensures { IfOk result (λ t. t ≡ shown_update words.now.parts.now depth update.now) }
{
    match update {
        ActionUpdate::Relation { symbol, body } => setting(alloc, *symbol, body, words, depth),
        ActionUpdate::Constant {
            symbol,
            term: value,
        } => {
            let name = word(alloc, own_name(*symbol, words.parts))?;
            triple(alloc, b"set", name, term(alloc, value, words, depth)?)
        }
    }
}

/// Adds the updates of an action with so many parameters.
fn push_updates(
    alloc: Global,
    items: &mut Vec<Tree>,
    updates: &[ActionUpdate],
    words: &Words,
    depth: u64,
) -> Result<(), Memory>
    requires { IsTable words.now.parts.now words.now.labels.now }
    ensures { OnOk result (items.new.items ≡ items.old.items ++ map (shown_update words.now.parts.now depth) updates.now) }
{
    for each in updates {
        items.push(update(alloc, each, words, depth)?)?;
    }
    Ok(())
}

/// A word, a name and parameters, as the first items of a list.
fn headed(
    alloc: Global,
    head: &[u8],
    name: &[u8],
    sorts: &[SortId],
    parts: &Parts,
) -> Result<Vec<Tree>, Memory>
    ensures { IfOk result (λ items. items.items ≡ word head.now ∷ word name.now ∷ shown_parameters parts.now sorts.now ∷ []) }
{
    let mut items = Vec::new(alloc);
    items.push(word(alloc, head)?)?;
    items.push(word(alloc, name)?)?;
    items.push(parameters(alloc, sorts, parts)?)?;
    Ok(items)
}

impl Item for Action {
    ghost shown = { λ p a. shown_action p a };

    fn tree(&self, alloc: Global, words: &Words) -> Result<Tree, Memory> {
        let params = self.params.as_slice();
        let depth = params.len() as u64;
        let name = self.name.as_slice();
        let mut items = headed(alloc, b"action", name, params, words.parts)?;
        items.push(lone(alloc, b"guard", &self.guard, words, depth)?)?;
        push_updates(alloc, &mut items, self.updates.as_slice(), words, depth)?;
        Ok(list(items))
    }
}

/// A list of a word, a name, parameters and a formula.
fn declaration(
    alloc: Global,
    head: &[u8],
    name: &[u8],
    sorts: &[SortId],
    body: Tree,
    parts: &Parts,
) -> Result<Tree, Memory>
    ensures { IfOk result (λ t. t ≡ shown_declaration parts.now head.now name.now sorts.now body) }
{
    let mut items = headed(alloc, head, name, sorts, parts)?;
    items.push(body)?;
    Ok(list(items))
}

impl Item for Fair {
    ghost shown = { λ p c. shown_fair p c };

    fn tree(&self, alloc: Global, words: &Words) -> Result<Tree, Memory> {
        let params = self.params.as_slice();
        let body = formula(alloc, &self.condition, words, params.len() as u64)?;
        declaration(
            alloc,
            b"fair",
            self.name.as_slice(),
            params,
            body,
            words.parts,
        )
    }
}

impl Item for LabelDecl {
    ghost shown = { λ p l. shown_label p l };

    fn tree(&self, alloc: Global, words: &Words) -> Result<Tree, Memory> {
        let params = self.params.as_slice();
        let body = temporal(alloc, &self.formula, words, params.len() as u64)?;
        declaration(
            alloc,
            b"label",
            self.name.as_slice(),
            params,
            body,
            words.parts,
        )
    }
}

impl Item for WitnessDecl {
    ghost shown = { λ p w. shown_witness p w };

    fn tree(&self, alloc: Global, words: &Words) -> Result<Tree, Memory> {
        let body = temporal(alloc, &self.formula, words, 1)?;
        declaration(
            alloc,
            b"witness",
            self.name.as_slice(),
            &[self.sort],
            body,
            words.parts,
        )
    }
}

impl Item for Invariant {
    ghost shown = { λ p i. shown_invariant p i };

    fn tree(&self, alloc: Global, words: &Words) -> Result<Tree, Memory> {
        let mut items = Vec::new(alloc);
        items.push(invariant_word(alloc)?)?;
        items.push(word(alloc, self.name.as_slice())?)?;
        items.push(formula(alloc, &self.formula, words, 0)?)?;
        Ok(list(items))
    }
}

/// Adds the trees of items of one kind.
fn push_each<T: Item>(
    alloc: Global,
    trees: &mut Vec<Tree>,
    items: &[T],
    words: &Words,
) -> Result<(), Memory>
    requires { IsTable words.now.parts.now words.now.labels.now }
    ensures { OnOk result (trees.new.items ≡ trees.old.items ++ map (T.shown words.now.parts.now) items.now) }
{
    for item in items {
        trees.push(item.tree(alloc, words)?)?;
    }
    Ok(())
}

/// Adds the trees of closed formulas, each behind the word.
fn push_lones(
    alloc: Global,
    trees: &mut Vec<Tree>,
    head: &[u8],
    fs: &[Formula],
    words: &Words,
) -> Result<(), Memory>
    requires { IsTable words.now.parts.now words.now.labels.now }
    ensures { OnOk result (trees.new.items ≡ trees.old.items ++ map (shown_lone words.now.parts.now head.now 0) fs.now) }
{
    for f in fs {
        trees.push(lone(alloc, head, f, words, 0)?)?;
    }
    Ok(())
}

/// Adds the trees of what stays: sorts, symbols, axioms and initial conditions.
#[tactic(auto, using(lv_grammar::proofs::LayoutLaw::behind_four))]
fn push_declared(alloc: Global, trees: &mut Vec<Tree>, words: &Words) -> Result<(), Memory>
    requires { IsTable words.now.parts.now words.now.labels.now }
    ensures { OnOk result (trees.new.items ≡ trees.old.items ++ (map shown_sort words.now.parts.now.sorts ++ (map (shown_symbol words.now.parts.now) words.now.parts.now.symbols
        ++ (map (shown_lone words.now.parts.now (codes "axiom") 0) words.now.parts.now.axioms ++ map (shown_lone words.now.parts.now (codes "init") 0) words.now.parts.now.inits)))) }
{
    let parts = words.parts;
    push_each(alloc, trees, parts.sorts.as_slice(), words)?;
    push_each(alloc, trees, parts.symbols.as_slice(), words)?;
    push_lones(alloc, trees, b"axiom", parts.axioms.as_slice(), words)?;
    push_lones(alloc, trees, b"init", parts.inits.as_slice(), words)
}

/// Adds the trees of what runs do: actions, fairness, labels and witnesses.
fn push_moving(alloc: Global, trees: &mut Vec<Tree>, words: &Words) -> Result<(), Memory>
    requires { IsTable words.now.parts.now words.now.labels.now }
    ensures { OnOk result (trees.new.items ≡ trees.old.items ++ (map (shown_action words.now.parts.now) words.now.parts.now.actions ++ (map (shown_fair words.now.parts.now) words.now.parts.now.fairs
        ++ (map (shown_label words.now.parts.now) words.now.parts.now.labels ++ map (shown_witness words.now.parts.now) words.now.parts.now.witnesses)))) }
{
    let parts = words.parts;
    push_each(alloc, trees, parts.actions.as_slice(), words)?;
    push_each(alloc, trees, parts.fairs.as_slice(), words)?;
    push_each(alloc, trees, parts.labels.as_slice(), words)?;
    push_each(alloc, trees, parts.witnesses.as_slice(), words)?;
    Ok(())
}

/// The tree of the property.
fn property(alloc: Global, words: &Words) -> Result<Tree, Memory>
    requires { IsTable words.now.parts.now words.now.labels.now }
    ensures { IfOk result (λ t. t ≡ shown_property words.now.parts.now) }
{
    let body = temporal(alloc, &words.parts.property, words, 0)?;
    pair(alloc, b"property", body)
}

/// The trees of all items of a system, in order.
pub(crate) fn items(alloc: Global, words: &Words) -> Result<Vec<Tree>, Memory>
    requires { IsTable words.now.parts.now words.now.labels.now }
    ensures { IfOk result (λ ts. ts.items ≡ shown_items words.now.parts.now) }
{
    let mut trees = Vec::new(alloc);
    push_declared(alloc, &mut trees, words)?;
    push_moving(alloc, &mut trees, words)?;
    trees.push(property(alloc, words)?)?;
    push_each(alloc, &mut trees, words.parts.invariants.as_slice(), words)?;
    Ok(trees)
}
