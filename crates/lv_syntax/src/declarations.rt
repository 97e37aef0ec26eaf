//! Items without updates or temporal formulas: sorts, relations, constants, fairness conditions, invariants.
ghost use Rattle.std.specs.Prelude.{◌≡◌, [], codes};
ghost use Rattle.lv_grammar.specs.declared.reading.Role.TheVariants as R;
ghost use Rattle.lv_fault.specs.Given.{Gives};
ghost use Rattle.lv_fault.specs.Seen.{headed_seen};
ghost use Rattle.lv_syntax.specs.Parameters.{params_seen};
ghost use Rattle.lv_grammar.specs.ReadFormulas.{lone_formula};
ghost use Rattle.lv_grammar.specs.ReadItems.{sort_item, relation_item, constant_item, fair_item, invariant_item, scope_of};

use crate::parameters::{is_marked, name, open, sorts, sorts_of_parameters};
use lv_fault::ReadText;
use lv_fault::trees::{HeadedList, next};
use lv_formula::Formula;
use lv_grammar::reading::Role;
use lv_system::{Fair, Invariant, Shape, Sort, Symbol};
use lv_tree::Tree;
use lv_words::known::{Known, text_of};
use lv_words::names::sort;
use lv_words::scope::{Parameter, Scope};
use lv_words::states::lone;
use lv_words::symbols::Setting;
use std::alloc::Global;

/// How deep the lists of a formula may nest in an item, where lists of a system nest at most 60 deep.
pub(crate) const ROOM: u32 = 58;

/// `(sort NAME)` or `(sort NAME finite)`
#[tactic(auto, unfolding(lv_grammar::specs::ReadItems::sort_item))]
pub(crate) fn read_sort(alloc: Global, known: &Known, list: &HeadedList) -> Result<Sort, ReadText>
    ensures { Gives (λ x. x) result (sort_item known.now (headed_seen list.now)) }
{
    let (name, rest) = name(known, list.end, list.rest)?;
    let finite = is_marked(b"finite", rest)?;
    Ok(Sort {
        name: text_of(alloc, name)?,
        finite,
    })
}

/// `(relation NAME (SORT ..))`, or with `fixed` at the end
#[tactic(auto, unfolding(lv_grammar::specs::ReadItems::relation_item))]
pub(crate) fn read_relation(
    alloc: Global,
    known: &Known,
    list: &HeadedList,
) -> Result<Symbol, ReadText>
    ensures { Gives (λ x. x) result (relation_item known.now (headed_seen list.now)) }
{
    let (name, rest) = name(known, list.end, list.rest)?;
    let (second, rest) = next(list.end, rest)?;
    let sorts = sorts(alloc, known, second)?;
    let fixed = is_marked(b"fixed", rest)?;
    Ok(Symbol {
        name: text_of(alloc, name)?,
        shape: Shape::Relation(sorts),
        fixed,
    })
}

/// `(constant NAME SORT)`, or with `fixed` at the end
#[tactic(auto, unfolding(lv_grammar::specs::ReadItems::constant_item))]
pub(crate) fn read_constant(
    alloc: Global,
    known: &Known,
    list: &HeadedList,
) -> Result<Symbol, ReadText>
    ensures { Gives (λ x. x) result (constant_item known.now (headed_seen list.now)) }
{
    let (name, rest) = name(known, list.end, list.rest)?;
    let (second, rest) = next(list.end, rest)?;
    let sort = sort(known, second)?;
    let fixed = is_marked(b"fixed", rest)?;
    Ok(Symbol {
        name: text_of(alloc, name)?,
        shape: Shape::Constant(sort),
        fixed,
    })
}

/// One formula of a state in the scope of parameters, and nothing behind it.
#[tactic(auto, using(crate::proofs::ScopeLaws::scope_same))]
pub(crate) fn lone_over(
    alloc: Global,
    known: &Known,
    room: u32,
    params: &[Parameter],
    end: u32,
    items: &[Tree],
) -> Result<Formula, ReadText>
    ensures { Gives (λ x. x) result (lone_formula known.now R.State room (scope_of (params_seen params.now)) end items.now) }
{
    let outer = Scope::Empty;
    let setting = Setting {
        known,
        role: Role::State,
    };
    lone(
        alloc,
        &setting,
        room,
        &Scope::Listed(&*params, &outer),
        end,
        items,
    )
}

/// `(fair NAME (VAR SORT ..) F)`
#[tactic(auto, unfolding(lv_grammar::specs::ReadItems::fair_item))]
pub(crate) fn read_fair(alloc: Global, known: &Known, list: &HeadedList) -> Result<Fair, ReadText>
    ensures { Gives (λ x. x) result (fair_item known.now (headed_seen list.now)) }
{
    let opening = open(alloc, known, list.end, list.rest)?;
    let params = opening.params.as_slice();
    let condition = lone_over(alloc, known, ROOM, params, list.end, opening.rest)?;
    Ok(Fair {
        name: text_of(alloc, opening.name)?,
        params: sorts_of_parameters(alloc, params)?,
        condition,
    })
}

/// One formula outside all scopes, of an axiom, an `init` or an invariant, and nothing behind it.
pub(crate) fn lone_closed(
    alloc: Global,
    known: &Known,
    role: Role,
    end: u32,
    items: &[Tree],
) -> Result<Formula, ReadText>
    ensures { Gives (λ x. x) result (lone_formula known.now role 58 [] end items.now) }
{
    let setting = Setting { known, role };
    lone(alloc, &setting, ROOM, &Scope::Empty, end, items)
}

/// `(invariant NAME F)`
#[tactic(auto, unfolding(lv_grammar::specs::ReadItems::invariant_item))]
pub(crate) fn read_invariant(
    alloc: Global,
    known: &Known,
    list: &HeadedList,
) -> Result<Invariant, ReadText>
    ensures { Gives (λ x. x) result (invariant_item known.now (headed_seen list.now)) }
{
    let (name, rest) = name(known, list.end, list.rest)?;
    let formula = lone_closed(alloc, known, Role::Invariant, list.end, rest)?;
    Ok(Invariant {
        name: text_of(alloc, name)?,
        formula,
    })
}
