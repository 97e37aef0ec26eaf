//! Tuples of elements, each in the range of its sort.
ghost use Rattle.std.specs.Prelude.{◌≡◌, length, All, IfOk};
ghost use Rattle.lv_struct.specs.Tables.{IsInRange};
ghost use Rattle.lv_fault.specs.Given.{Gives, place_of};
ghost use Rattle.lv_reading.specs.Structures.{each_element, elements_in, tuple_in, tuples_in};
ghost use Rattle.lv_fault.specs.Behind.{behind};

use crate::numbers::element;
use lv_fault::trees::{list, place, refuse_if};
use lv_fault::{Kind, ReadText};
use lv_formula::{List, SortId};
use lv_struct::Structure;
use lv_tree::Tree;
use std::alloc::Global;

/// An element of each sort, behind the elements that are done. As many items were counted before.
#[tactic(auto, using(lv_fault::proofs::BehindLaws::nothing_more), unfolding(crate::specs::Structures::each_element))]
fn elements_after(
    m: &Structure,
    mut done: Vec<u32>,
    sorts: &[SortId],
    items: &[Tree],
) -> Result<Vec<u32>, ReadText>
    ensures { Gives (λ x. x.items) result (behind done.items (each_element m.now.sizes sorts.now items.now)) }
{
    match sorts {
        [] => Ok(done),
        [sort, sorts @ ..] => match items {
            [] => Ok(done),
            [first, items @ ..] => {
                done.push(element(m.size(*sort), first)?)?;
                elements_after(m, done, sorts, items)
            }
        },
    }
}

/// The items as elements of these sorts, each in range. Another number of items than of sorts is `WrongArity` at this place,
/// told before they are read.
#[tactic(auto, using(lv_fault::proofs::BehindLaws::nothing_done), unfolding(crate::specs::Structures::elements_in))]
pub fn elements(
    alloc: Global,
    m: &Structure,
    sorts: &[SortId],
    at: u32,
    items: &[Tree],
) -> Result<List<u32>, ReadText>
    ensures given { Gives (λ x. x) result (elements_in m.now.sizes sorts.now at items.now) }
    ensures in_range { IfOk result (IsInRange m.now.sizes sorts.now) }
{
    let is_other = items.len() != sorts.len();
    refuse_if(is_other, Kind::WrongArity, at)?;
    let elements = elements_after(m, Vec::new(alloc), sorts, items)?;
    Ok(List::from_vec(elements))
}

/// `(E ..)`, with an element of each sort.
#[tactic(auto, unfolding(crate::specs::Structures::tuple_in))]
fn tuple(alloc: Global, m: &Structure, sorts: &[SortId], tree: &Tree) -> Result<List<u32>, ReadText>
    ensures given { Gives (λ x. x) result (tuple_in m.now.sizes sorts.now tree.now) }
    ensures in_range { IfOk result (IsInRange m.now.sizes sorts.now) }
{
    let inside = list(tree)?;
    elements(alloc, m, sorts, place(tree), inside.items)
}

/// The tuples, each with an element of each sort.
pub(crate) fn tuples(
    alloc: Global,
    m: &Structure,
    sorts: &[SortId],
    items: &[Tree],
) -> Result<Vec<List<u32>>, ReadText>
    ensures given { Gives (λ x. x.items) result (tuples_in m.now.sizes sorts.now items.now) }
    ensures in_range { IfOk result (λ x. All (IsInRange m.now.sizes sorts.now) x.items) }
{
    let mut tuples = Vec::new(alloc);
    for tree in items {
        tuples.push(tuple(alloc, m, sorts, tree)?)?;
    }
    Ok(tuples)
}
