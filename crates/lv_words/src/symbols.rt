//! What words say where a symbol may stand, and which words may stand where.
ghost use Rattle.std.specs.Prelude.{◌≡◌, ℕ, not, IfOk};
ghost use Rattle.lv_formula.specs.declared.symbols.Sym.TheVariants as Y;
ghost use Rattle.lv_fault.specs.Given.{Gives, fail_if};
ghost use Rattle.lv_grammar.specs.Known.{named, is_invariant, has_witnesses, is_temporal, may_stand};
ghost use Rattle.lv_grammar.specs.ReadWords.{shaped, name_speaks, set_said, due_said, copy_said, dotted_said, freely, monitor_word, speaks, relation_at, constant_at};
ghost use Rattle.lv_words.specs.Seen.{sorts_seen, said_seen, said_seen_in, refused_seen, speaks_seen, speaks_seen_in, predicate_seen};

use crate::known::Known;
use crate::words::{family_in, rest_behind};
use lv_fault::trees::refusal;
use lv_fault::{Kind, ReadText};
use lv_formula::{Memory, SortId, Sym};
use lv_grammar::reading::{Family, Named, Role};
use lv_system::Shape;
use std::slice;

/// What a formula is read over: what is known, and where the formula stands.
#[derive(Clone, Copy, Debug, Drop)]
pub struct Setting<'a> {
    pub known: &'a Known,
    pub role: Role,
}

/// The sorts of a relation's arguments.
#[derive(Clone, Copy, Debug, Drop)]
pub enum Sorts<'a> {
    Listed(&'a [SortId]),
    One(SortId),
    Empty,
}

impl Sorts<'_> {
    pub fn as_slice(&self) -> &[SortId]
        ensures { result.now ≡ sorts_seen self.now }
    {
        match self {
            Sorts::Listed(sorts) => sorts,
            Sorts::One(sort) => slice::from_ref(sort),
            Sorts::Empty => &[],
        }
    }
}

/// A symbol that a word says, with its sorts.
#[derive(Clone, Copy, Debug, Drop)]
pub enum Spoken<'a> {
    Relation(Sym, Sorts<'a>),
    Constant(Sym, SortId),
}

/// What a word says, and the fault that it is where it may not stand.
#[derive(Clone, Copy, Debug, Drop)]
pub struct Speaks<'a> {
    pub says: Spoken<'a>,
    pub refused: Option<Kind>,
}

/// A relation with the sorts of its arguments.
#[derive(Clone, Copy, Debug, Drop)]
pub struct Predicate<'a> {
    pub sym: Sym,
    pub sorts: Sorts<'a>,
}

/// Whether the monitor's words may stand.
fn is_invariant(role: Role) -> bool
    ensures { result ≡ is_invariant role }
{
    match role {
        Role::Invariant => true,
        Role::Axiom | Role::State | Role::Path | Role::Witness => false,
    }
}

/// Whether witnesses may stand.
fn has_witnesses(role: Role) -> bool
    ensures { result ≡ has_witnesses role }
{
    match role {
        Role::Invariant | Role::Witness => true,
        Role::Axiom | Role::State | Role::Path => false,
    }
}

/// Whether temporal operators may stand.
pub fn is_temporal(role: Role) -> bool
    ensures { result ≡ is_temporal role }
{
    match role {
        Role::Path | Role::Witness => true,
        Role::Axiom | Role::State | Role::Invariant => false,
    }
}

/// Whether a symbol of the system may stand, which is fixed or not.
fn may_stand(role: Role, fixed: bool) -> bool
    ensures { result ≡ may_stand role fixed }
{
    match role {
        Role::Axiom => fixed,
        Role::State | Role::Path | Role::Witness | Role::Invariant => true,
    }
}

fn shaped(sym: Sym, shape: &Shape) -> Spoken<'_>
    ensures { said_seen result ≡ shaped sym shape.now }
{
    match shape {
        Shape::Relation(sorts) => Spoken::Relation(sym, Sorts::Listed(sorts.as_slice())),
        Shape::Constant(sort) => Spoken::Constant(sym, *sort),
    }
}

/// The fault, where it is one.
fn fault_if(wrong: bool, kind: Kind) -> Option<Kind>
    ensures { (at : ℕ) → refused_seen at result ≡ fail_if wrong kind at }
{
    if wrong { Some(kind) } else { None }
}

/// What a name says by itself.
fn name_speaks(role: Role, what: &Named) -> Option<Speaks<'_>>
    ensures { (at : ℕ) → speaks_seen_in at result ≡ name_speaks role at what.now }
{
    match what {
        Named::Symbol(n, shape, fixed) => Some(Speaks {
            says: shaped(Sym::Own(*n), shape),
            refused: fault_if(!may_stand(role, *fixed), Kind::NotFixed),
        }),
        Named::Label(n, sorts) => Some(Speaks {
            says: Spoken::Relation(Sym::Label(*n), Sorts::Listed(sorts.as_slice())),
            refused: fault_if(!is_invariant(role), Kind::MonitorWord),
        }),
        Named::Witness(n, sort) => Some(Speaks {
            says: Spoken::Constant(Sym::Witness(*n), *sort),
            refused: fault_if(!has_witnesses(role), Kind::MonitorWord),
        }),
        Named::System | Named::Sort(_) | Named::Action | Named::Fair(_, _) | Named::Invariant =>
            None,
    }
}

/// `touched.SORT`, behind the dot.
fn touched<'a>(known: &'a Known, name: &[u8]) -> Option<Spoken<'a>>
    ensures { said_seen_in result ≡ set_said Y.Touched (named known.now name.now) }
{
    match known.named(name) {
        Some(Named::Sort(n)) => Some(Spoken::Relation(
            Sym::Touched(SortId(*n)),
            Sorts::One(SortId(*n)),
        )),
        _ => None,
    }
}

/// `kept.SORT`, behind the dot.
fn kept<'a>(known: &'a Known, name: &[u8]) -> Option<Spoken<'a>>
    ensures { said_seen_in result ≡ set_said Y.Kept (named known.now name.now) }
{
    match known.named(name) {
        Some(Named::Sort(n)) => Some(Spoken::Relation(
            Sym::Kept(SortId(*n)),
            Sorts::One(SortId(*n)),
        )),
        _ => None,
    }
}

/// `due.NAME`, behind the dot, of a fairness condition or a declared label. A symbol whose number doesn't fit a `u32`
/// is answered as want of memory.
fn due<'a>(known: &'a Known, name: &[u8]) -> Result<Option<Spoken<'a>>, Memory>
    ensures { IfOk result (λ said. said_seen_in said ≡ due_said known.now (named known.now name.now)) }
{
    match known.named(name) {
        Some(Named::Fair(n, sorts)) => Ok(Some(Spoken::Relation(
            Sym::Due(*n),
            Sorts::Listed(sorts.as_slice()),
        ))),
        Some(Named::Label(n, sorts)) => match known.fairs().checked_add(*n) {
            Some(number) => Ok(Some(Spoken::Relation(
                Sym::Due(number),
                Sorts::Listed(sorts.as_slice()),
            ))),
            None => Err(Memory),
        },
        _ => Ok(None),
    }
}

/// `saved.NAME`, behind the dot, of a changing symbol or a declared label.
fn copy<'a>(known: &'a Known, name: &[u8]) -> Option<Spoken<'a>>
    ensures { said_seen_in result ≡ copy_said (named known.now name.now) }
{
    match known.named(name) {
        Some(Named::Symbol(n, shape, false)) => Some(shaped(Sym::Copy(*n), shape)),
        Some(Named::Label(n, sorts)) => Some(Spoken::Relation(
            Sym::CopyLabel(*n),
            Sorts::Listed(sorts.as_slice()),
        )),
        _ => None,
    }
}

/// What a word with a dot says.
#[tactic(auto, unfolding(lv_grammar::specs::ReadWords::dotted_said))]
fn dotted<'a>(known: &'a Known, text: &[u8]) -> Result<Option<Spoken<'a>>, Memory>
    ensures { IfOk result (λ said. said_seen_in said ≡ dotted_said known.now text.now) }
{
    if let Some(name) = rest_behind(b"touched.", text) {
        if let Some(spoken) = touched(known, name) {
            return Ok(Some(spoken));
        }
    }
    if let Some(name) = rest_behind(b"kept.", text) {
        if let Some(spoken) = kept(known, name) {
            return Ok(Some(spoken));
        }
    }
    if let Some(name) = rest_behind(b"due.", text) {
        if let Some(spoken) = due(known, name)? {
            return Ok(Some(spoken));
        }
    }
    match rest_behind(b"saved.", text) {
        Some(name) => Ok(copy(known, name)),
        None => Ok(None),
    }
}

/// One of the monitor's words, which stand in invariants alone.
fn monitor_word<'a>(
    role: Role,
    at: u32,
    spoken: Option<Spoken<'a>>,
) -> Result<Option<Speaks<'a>>, ReadText>
    ensures { Gives (speaks_seen_in at) result (monitor_word role at (said_seen_in spoken.entry)) }
{
    if !is_invariant(role) {
        return Err(refusal(Kind::MonitorWord, at));
    }
    match spoken {
        Some(says) => Ok(Some(Speaks {
            says,
            refused: None,
        })),
        None => Err(refusal(Kind::UnknownName, at)),
    }
}

/// What a word says, if it says a symbol.
#[tactic(auto, unfolding(lv_grammar::specs::ReadWords::speaks))]
fn say<'a>(setting: &Setting<'a>, at: u32, text: &[u8]) -> Result<Option<Speaks<'a>>, ReadText>
    ensures { Gives (speaks_seen_in at) result (speaks setting.now.known.now setting.now.role at text.now) }
{
    let role = setting.role;
    match family_in(text) {
        Family::Dotted => monitor_word(role, at, dotted(setting.known, text)?),
        Family::Frozen => monitor_word(role, at, Some(Spoken::Relation(Sym::Frozen, Sorts::Empty))),
        Family::Saved => monitor_word(role, at, Some(Spoken::Relation(Sym::Saved, Sorts::Empty))),
        Family::Name => match setting.known.named(text) {
            Some(what) => Ok(name_speaks(role, what)),
            None => Err(refusal(Kind::UnknownName, at)),
        },
        Family::Variable | Family::Other => Err(refusal(Kind::Unexpected, at)),
    }
}

/// That there is no fault.
fn permit(refused: Option<Kind>, at: u32) -> Result<(), ReadText>
    ensures { Gives (λ x. x) result (refused_seen at refused) }
{
    match refused {
        Some(kind) => Err(refusal(kind, at)),
        None => Ok(()),
    }
}

/// The relation that a word says.
#[tactic(auto, unfolding(lv_grammar::specs::ReadWords::relation_at))]
pub fn relation<'a>(setting: &Setting<'a>, at: u32, text: &[u8]) -> Result<Predicate<'a>, ReadText>
    ensures { Gives predicate_seen result (relation_at setting.now.known.now setting.now.role at text.now) }
{
    match say(setting, at, text)? {
        Some(
            Speaks {
                says: Spoken::Relation(sym, sorts),
                refused,
            },
        ) => {
            permit(refused, at)?;
            Ok(Predicate { sym, sorts })
        }
        _ => Err(refusal(Kind::Unexpected, at)),
    }
}

/// The constant that a word says, with its sort.
#[tactic(auto, unfolding(lv_grammar::specs::ReadWords::constant_at))]
pub fn constant(setting: &Setting, at: u32, text: &[u8]) -> Result<(Sym, SortId), ReadText>
    ensures { Gives (λ x. x) result (constant_at setting.now.known.now setting.now.role at text.now) }
{
    match say(setting, at, text)? {
        Some(
            Speaks {
                says: Spoken::Constant(sym, sort),
                refused,
            },
        ) => {
            permit(refused, at)?;
            Ok((sym, sort))
        }
        _ => Err(refusal(Kind::Unexpected, at)),
    }
}
