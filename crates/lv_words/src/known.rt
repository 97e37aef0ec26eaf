//! What is known of a system of which a part was read.
ghost use Rattle.std.specs.Prelude.{◌≡◌, ◌+◌, ◌∷◌, [], eqb, IfOk, OnOk};
ghost use Rattle.lv_grammar.specs.declared.reading.Named.TheVariants as N;
ghost use Rattle.lv_labels.specs.Once.{is_among};
ghost use Rattle.lv_grammar.specs.Known.{named, what_is, with_entry};
ghost use Rattle.lv_grammar.specs.Rules.{add_action, add_fair, add_invariant, add_sort, add_symbol, known_first, label_numbers};
ghost use Rattle.lv_words.specs.Seen.{lent_named};

use lv_formula::{List, Memory, SortId, Text};
use lv_grammar::reading::Named;
use lv_labels::{KnownKeys, copied};
use lv_system::{Action, Fair, Invariant, Shape, Sort, Symbol, WitnessDecl, same_bytes};
use std::alloc::Global;
use std::marker::Model;

/// What is known of a system of which a part was read: what its names name, how many items of a kind there are, and the
/// table of labels.
#[derive(Debug, Drop)]
pub struct Known {
    /// The names, in the order of their items.
    names: Vec<(Text, Named)>,
    sorts: u32,
    symbols: u32,
    fairs: u32,
    witnesses: u32,
    keys: KnownKeys,
}

impl Model for Known {
    ghost use Rattle.std.specs.Coded.{codes};
    ghost use Rattle.lv_labels.specs.contracts.key.Key as label_key;
    ghost use Rattle.lv_grammar.specs.Known.{Known as Seen};

    ghost Value = { Seen };

    ghost coded = { Prim.hlevel (codes, label_key.the_row.coded) };

    ghost view = { λ it. record { names = it.names.items; sorts = it.sorts; symbols = it.symbols; fairs = it.fairs; witnesses = it.witnesses; keys = it.keys } };
}

/// The text again. The error is want of memory.
pub fn text_of(alloc: Global, bytes: &[u8]) -> Result<Text, Memory>
    ensures { IfOk result (λ text. text ≡ bytes.now) }
{
    Ok(List::from_vec(Vec::from_slice(alloc, bytes)?))
}

fn shape_of(alloc: Global, shape: &Shape) -> Result<Shape, Memory>
    ensures { IfOk result (λ copy. copy ≡ shape.now) }
{
    match shape {
        Shape::Relation(sorts) => Ok(Shape::Relation(copied(alloc, sorts.as_slice())?)),
        Shape::Constant(sort) => Ok(Shape::Constant(*sort)),
    }
}

/// One more than so many. A number that doesn't fit a `u32` is answered as want of memory.
fn one_more(count: u32) -> Result<u32, Memory>
    ensures { IfOk result (λ next. next ≡ count + 1) }
{
    match count.checked_add(1) {
        Some(next) => Ok(next),
        None => Err(Memory),
    }
}

/// Adds what the name names, behind the other names.
fn enter(
    alloc: Global,
    names: &mut Vec<(Text, Named)>,
    name: &[u8],
    what: Named,
) -> Result<(), Memory>
    ensures { OnOk result (names.new.items ≡ with_entry names.old.items name.now what) }
{
    let name = text_of(alloc, name)?;
    names.push((name, what))?;
    Ok(())
}

fn what_is<'a>(names: &'a [(Text, Named)], name: &[u8]) -> Option<&'a Named>
    ensures { lent_named result ≡ what_is names.now name.now }
{
    for (known, what) in names {
        if same_bytes(known.as_slice(), name) {
            return Some(what);
        }
    }
    None
}

fn is_label(number: u32, names: &[(Text, Named)]) -> bool
    ensures { result ≡ is_among eqb number (label_numbers names.now) }
{
    for (_, what) in names {
        if let Named::Label(label, _) = what {
            if number == *label {
                return true;
            }
        }
    }
    false
}

impl Known {
    /// The system's name alone. The error is want of memory.
    pub fn first(alloc: Global, name: &[u8]) -> Result<Known, Memory>
        ensures { IfOk result (λ known. known ≡ known_first name.now) }
    {
        let mut names = Vec::new(alloc);
        enter(alloc, &mut names, name, Named::System)?;
        Ok(Known {
            names,
            sorts: 0,
            symbols: 0,
            fairs: 0,
            witnesses: 0,
            keys: KnownKeys::new(alloc),
        })
    }

    /// What the name names.
    #[tactic(auto, unfolding(lv_grammar::specs::Known::named))]
    pub fn named(&self, name: &[u8]) -> Option<&Named>
        ensures { lent_named result ≡ named self.now name.now }
    {
        what_is(self.names.as_slice(), name)
    }

    /// Whether the label with the number is declared.
    pub fn has_label(&self, number: u32) -> bool
        ensures { result ≡ is_among eqb number (label_numbers self.now.names) }
    {
        is_label(number, self.names.as_slice())
    }

    /// The table of labels: each once, in order of text.
    pub fn keys(&self) -> &KnownKeys
        ensures { result.now ≡ self.now.keys }
    {
        &self.keys
    }

    /// How many fairness conditions there are.
    pub fn fairs(&self) -> u32
        ensures { result ≡ self.now.fairs }
    {
        self.fairs
    }

    /// Another table of labels.
    pub fn set_keys(&mut self, keys: KnownKeys)
        ensures { self.new ≡ record self.old { keys = keys } }
    {
        self.keys = keys;
    }

    /// Adds a sort. The error is want of memory, here and below.
    pub fn add_sort(&mut self, alloc: Global, sort: &Sort) -> Result<(), Memory>
        ensures { OnOk result (self.new ≡ add_sort self.old sort.now) }
    {
        let number = self.sorts;
        self.sorts = one_more(number)?;
        enter(
            alloc,
            &mut self.names,
            sort.name.as_slice(),
            Named::Sort(number),
        )
    }

    /// Adds a relation or a constant.
    pub fn add_symbol(&mut self, alloc: Global, symbol: &Symbol) -> Result<(), Memory>
        ensures { OnOk result (self.new ≡ add_symbol self.old symbol.now) }
    {
        let number = self.symbols;
        self.symbols = one_more(number)?;
        let what = Named::Symbol(number, shape_of(alloc, &symbol.shape)?, symbol.fixed);
        enter(alloc, &mut self.names, symbol.name.as_slice(), what)
    }

    /// Adds an action.
    pub fn add_action(&mut self, alloc: Global, action: &Action) -> Result<(), Memory>
        ensures { OnOk result (self.new ≡ add_action self.old action.now) }
    {
        enter(
            alloc,
            &mut self.names,
            action.name.as_slice(),
            Named::Action,
        )
    }

    /// Adds a fairness condition.
    pub fn add_fair(&mut self, alloc: Global, fair: &Fair) -> Result<(), Memory>
        ensures { OnOk result (self.new ≡ add_fair self.old fair.now) }
    {
        let number = self.fairs;
        self.fairs = one_more(number)?;
        let what = Named::Fair(number, copied(alloc, fair.params.as_slice())?);
        enter(alloc, &mut self.names, fair.name.as_slice(), what)
    }

    /// Adds the name of a declared label with this number, whose free variables have these sorts.
    pub fn add_label(
        &mut self,
        alloc: Global,
        name: &[u8],
        number: u32,
        sorts: List<SortId>,
    ) -> Result<(), Memory>
        ensures { OnOk result (self.new ≡ record self.old { names = with_entry self.old.names name.now (N.Label number sorts) }) }
    {
        enter(alloc, &mut self.names, name, Named::Label(number, sorts))
    }

    /// Adds a witness, whose labels are not added.
    pub fn add_witness(&mut self, alloc: Global, witness: &WitnessDecl) -> Result<(), Memory>
        ensures { OnOk result (self.new ≡ record self.old { names = with_entry self.old.names witness.now.name (N.Witness self.old.witnesses witness.now.sort); witnesses = self.old.witnesses + 1 }) }
    {
        let number = self.witnesses;
        self.witnesses = one_more(number)?;
        let what = Named::Witness(number, witness.sort);
        enter(alloc, &mut self.names, witness.name.as_slice(), what)
    }

    /// Adds an invariant.
    pub fn add_invariant(&mut self, alloc: Global, invariant: &Invariant) -> Result<(), Memory>
        ensures { OnOk result (self.new ≡ add_invariant self.old invariant.now) }
    {
        enter(
            alloc,
            &mut self.names,
            invariant.name.as_slice(),
            Named::Invariant,
        )
    }
}
