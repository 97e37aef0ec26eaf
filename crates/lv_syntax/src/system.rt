//! Systems, read section by section.
ghost use Rattle.std.specs.Prelude.{◌≡◌, codes};
ghost use Rattle.lv_formula.specs.declared.temporal.Temporal as temporal;
ghost use Rattle.lv_fault.specs.Given.{Fails, Gives};
ghost use Rattle.lv_grammar.specs.Reading.{left_over, names_kind, none_left, parts_of, system_name, system_of, the_one};
ghost use Rattle.lv_syntax.specs.Groups.{declared_from, moving_from, closing_from, in_groups, declared_seen, moving_seen, closing_seen};

use crate::items::{
    Actions, Axioms, Fairs, Inits, Invariants, Labels, Properties, Sorts, Symbols, Witnesses,
};
use crate::sections::read_section;
use lv_fault::trees::{head, next, refusal, refuse_if, word};
use lv_fault::{Kind, ReadText};
use lv_formula::{Formula, List, Temporal};
use lv_grammar::reading::Family;
use lv_system::{Action, Fair, Invariant, LabelDecl, Parts, Sort, Symbol, WitnessDecl, same_bytes};
use lv_tree::Tree;
use lv_words::growing::Growing;
use lv_words::known::{Known, text_of};
use lv_words::words::family_in;
use std::alloc::Global;

/// What a system declares: its sorts and symbols, and what holds in every state and at the start; and the trees behind.
#[derive(Drop)]
pub(crate) struct Declared<'a> {
    pub(crate) sorts: List<Sort>,
    pub(crate) symbols: List<Symbol>,
    pub(crate) axioms: List<Formula>,
    pub(crate) inits: List<Formula>,
    pub(crate) rest: &'a [Tree],
}

/// What moves a system, and what is said of its runs; and the trees behind.
#[derive(Drop)]
pub(crate) struct Moving<'a> {
    pub(crate) actions: List<Action>,
    pub(crate) fairs: List<Fair>,
    pub(crate) labels: List<LabelDecl>,
    pub(crate) witnesses: List<WitnessDecl>,
    pub(crate) rest: &'a [Tree],
}

/// What is to hold of a system.
#[derive(Drop)]
pub(crate) struct Closing {
    pub(crate) property: Temporal,
    pub(crate) invariants: List<Invariant>,
}

#[tactic(auto, unfolding(crate::specs::Groups::declared_from))]
fn read_declared<'a>(
    alloc: Global,
    known: &mut Known,
    trees: &'a [Tree],
) -> Result<Declared<'a>, ReadText>
    ensures { Gives (declared_seen known.new) result (declared_from known.old trees.now) }
{
    let sorts = read_section::<Sorts>(alloc, 16, &mut *known, trees)?;
    let symbols = read_section::<Symbols>(alloc, 256, &mut *known, sorts.rest)?;
    let axioms = read_section::<Axioms>(alloc, 64, &mut *known, symbols.rest)?;
    let inits = read_section::<Inits>(alloc, 64, known, axioms.rest)?;
    Ok(Declared {
        sorts: sorts.items.into_list(),
        symbols: symbols.items.into_list(),
        axioms: axioms.items.into_list(),
        inits: inits.items.into_list(),
        rest: inits.rest,
    })
}

#[tactic(auto, unfolding(crate::specs::Groups::moving_from))]
fn read_moving<'a>(
    alloc: Global,
    known: &mut Known,
    trees: &'a [Tree],
) -> Result<Moving<'a>, ReadText>
    ensures { Gives (moving_seen known.new) result (moving_from known.old trees.now) }
{
    let actions = read_section::<Actions>(alloc, 32, &mut *known, trees)?;
    let fairs = read_section::<Fairs>(alloc, 16, &mut *known, actions.rest)?;
    let labels = read_section::<Labels>(alloc, 32, &mut *known, fairs.rest)?;
    let witnesses = read_section::<Witnesses>(alloc, 16, known, labels.rest)?;
    Ok(Moving {
        actions: actions.items.into_list(),
        fairs: fairs.items.into_list(),
        labels: labels.items.into_list(),
        witnesses: witnesses.items.into_list(),
        rest: witnesses.rest,
    })
}

#[tactic(auto, unfolding(lv_grammar::specs::Reading::names_kind))]
fn is_kind(text: &[u8]) -> bool
    ensures { result ≡ names_kind text.now }
{
    same_bytes(text, b"sort")
        || same_bytes(text, b"relation")
        || same_bytes(text, b"constant")
        || same_bytes(text, b"axiom")
        || same_bytes(text, b"init")
        || same_bytes(text, b"action")
        || same_bytes(text, b"fair")
        || same_bytes(text, b"label")
        || same_bytes(text, b"witness")
        || same_bytes(text, b"property")
        || same_bytes(text, b"invariant")
}

/// The fault of a tree that no section took: an item out of its order, or none.
#[tactic(auto, unfolding(lv_grammar::specs::Reading::left_over))]
fn fault_of(tree: &Tree) -> ReadText
    ensures end { Fails result (left_over {X = Unit {0}} tree.now) }
    ensures property { Fails result (left_over {X = temporal.Temporal} tree.now) }
{
    match head(tree) {
        Err(error) => error,
        Ok(list) => {
            let at = if is_kind(list.word.text) {
                list.at
            } else {
                list.word.at
            };
            refusal(Kind::Unexpected, at)
        }
    }
}

/// That nothing is left.
#[tactic(auto, unfolding(lv_grammar::specs::Reading::none_left))]
fn check_end(trees: &[Tree]) -> Result<(), ReadText>
    ensures { Gives (λ x. x) result (none_left trees.now) }
{
    match trees {
        [] => Ok(()),
        [tree, ..] => Err(fault_of(tree)),
    }
}

/// The one property that was read. Else it is missing at the system's end, or something stands in its place.
#[tactic(auto, unfolding(lv_grammar::specs::Reading::the_one))]
fn the_one(end: u32, found: Growing<Temporal>, rest: &[Tree]) -> Result<Temporal, ReadText>
    ensures { Gives (λ x. x) result (the_one end found rest.now) }
{
    match found.into_first() {
        Some(property) => Ok(property),
        None => match rest {
            [] => Err(refusal(Kind::Missing, end)),
            [tree, ..] => Err(fault_of(tree)),
        },
    }
}

#[tactic(auto, unfolding(crate::specs::Groups::closing_from))]
fn read_closing(
    alloc: Global,
    known: &mut Known,
    end: u32,
    trees: &[Tree],
) -> Result<Closing, ReadText>
    ensures { Gives closing_seen result (closing_from known.old end trees.now) }
{
    let found = read_section::<Properties>(alloc, 1, &mut *known, trees)?;
    let property = the_one(end, found.items, found.rest)?;
    let invariants = read_section::<Invariants>(alloc, 256, known, found.rest)?;
    check_end(invariants.rest)?;
    Ok(Closing {
        property,
        invariants: invariants.items.into_list(),
    })
}

/// The system's name, which nothing can have taken.
#[tactic(auto, unfolding(lv_grammar::specs::Reading::system_name))]
fn name_of_system(tree: &Tree) -> Result<&[u8], ReadText>
    ensures { Gives (λ x. x.now) result (system_name tree.now) }
{
    let word = word(tree)?;
    match family_in(word.text) {
        Family::Name => {
            refuse_if(word.text.len() > 48, Kind::TooMany, word.at)?;
            Ok(word.text)
        }
        Family::Frozen | Family::Saved | Family::Dotted | Family::Variable | Family::Other => {
            Err(refusal(Kind::Unexpected, word.at))
        }
    }
}

/// The groups of a system of this name, up to the bracket at its end.
#[tactic(auto, unfolding(crate::specs::Groups::in_groups))]
fn read_groups(alloc: Global, name: &[u8], end: u32, trees: &[Tree]) -> Result<Parts, ReadText>
    ensures { Gives (λ x. x) result (in_groups name.now end trees.now) }
{
    let mut known = Known::first(alloc, name)?;
    let declared = read_declared(alloc, &mut known, trees)?;
    let moving = read_moving(alloc, &mut known, declared.rest)?;
    let closing = read_closing(alloc, &mut known, end, moving.rest)?;
    Ok(Parts {
        name: text_of(alloc, name)?,
        sorts: declared.sorts,
        symbols: declared.symbols,
        axioms: declared.axioms,
        inits: declared.inits,
        actions: moving.actions,
        fairs: moving.fairs,
        labels: moving.labels,
        witnesses: moving.witnesses,
        property: closing.property,
        invariants: closing.invariants,
    })
}

/// The items of a system of this name, up to the bracket at its end.
#[tactic(auto, using(crate::proofs::GroupLaws::parts_in_groups))]
fn read_items(alloc: Global, name: &[u8], end: u32, trees: &[Tree]) -> Result<Parts, ReadText>
    ensures { Gives (λ x. x) result (parts_of name.now end trees.now) }
{
    read_groups(alloc, name, end, trees)
}

/// The system that a tree spells, or the first fault of the tree.
#[tactic(auto, unfolding(lv_grammar::specs::Reading::system_of))]
pub(crate) fn read_parts(alloc: Global, tree: &Tree) -> Result<Parts, ReadText>
    ensures { Gives (λ x. x) result (system_of tree.now) }
{
    let list = head(tree)?;
    let is_other = !same_bytes(list.word.text, b"system");
    refuse_if(is_other, Kind::Unexpected, list.word.at)?;
    let (first, rest) = next(list.end, list.rest)?;
    let name = name_of_system(first)?;
    read_items(alloc, name, list.end, rest)
}
