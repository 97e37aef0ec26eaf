//! The places of normal forms.
ghost use Rattle.std.specs.Prelude.{◌≡◌, ◌+◌, ◌++◌, ◌∷◌, ◌&&◌, [], false, cond, get_or, length, map, OnOk, IfOk};
ghost use Rattle.std.specs.List.{list_any};
ghost use Rattle.lv_formula.specs.Truth.{any_below};
ghost use Rattle.lv_places.specs.Forms.{in_term, form_of, forms_of, free, free_some};
ghost use Rattle.lv_places.specs.Places.{needs, place_needs, marks_to, marked_from, sort_of, places_in, places_in_all, places_of, place_at};
ghost use Rattle.lv_places.specs.Arounds.{binders_of, IsRight};

use crate::numbers::{one_more, variable};
use crate::skolem::{Place, PlaceArg};
use lv_formula::{Formula, List, Memory, Rc, SortId, Term};
use std::alloc::Global;

/// The binders that stand around a node, from the innermost on.
#[derive(Drop)]
pub(crate) enum Around<'a> {
    Outside,
    /// The binder of an `All` variable.
    Every(SortId, &'a Around<'a>),
    /// The binder of a place: its sort, its body, and for each variable around it whether it depends on it.
    Chosen(SortId, &'a Formula, &'a [bool], &'a Around<'a>),
}

/// The places of normal forms, in preorder.
///
/// The error is want of memory, also where the number of a variable would pass the greatest `u32`.
pub fn places(alloc: Global, forms: &[Formula]) -> Result<List<Place>, Memory>
    ensures { IfOk result (λ ps. ps ≡ places_of forms.now) }
{
    let mut places = Vec::new(alloc);
    for f in forms {
        push_places(alloc, &mut places, f, &Around::Outside)?;
    }
    Ok(List::from_vec(places))
}

/// Appends the places of a part, in preorder.
#[cycle(push_places)]
#[tactic(auto, using(crate::proofs::Marks::places_turned))]
fn push_places(
    alloc: Global,
    places: &mut Vec<Place>,
    f: &Formula,
    around: &Around,
) -> Result<(), Memory>
    requires { IsRight around.now }
    ensures { OnOk result (places.new.items ≡ places.old.items ++ places_in (binders_of around.now) (form_of f.now)) }
{
    match f {
        Formula::True | Formula::False | Formula::Atom(_, _) | Formula::Same(_, _) => Ok(()),
        Formula::Implies(_, _) | Formula::Iff(_, _) => Ok(()),
        Formula::Not(f) => push_places(alloc, places, f, around),
        Formula::And(fs) | Formula::Or(fs) => push_all_places(alloc, places, fs.as_slice(), around),
        Formula::All(sort, f) => push_places(alloc, places, f, &Around::Every(*sort, &*around)),
        Formula::Any(sort, f) => {
            let marks = push_place(alloc, places, *sort, f, around)?;
            push_places(
                alloc,
                places,
                f,
                &Around::Chosen(*sort, &*f, marks.as_slice(), &*around),
            )
        }
    }
}

#[cycle(push_places)]
#[tactic(auto, using(crate::proofs::Marks::places_append))]
fn push_all_places(
    alloc: Global,
    places: &mut Vec<Place>,
    fs: &[Rc<Formula>],
    around: &Around,
) -> Result<(), Memory>
    requires { IsRight around.now }
    ensures { OnOk result (places.new.items ≡ places.old.items ++ places_in_all (binders_of around.now) (forms_of fs.now)) }
{
    for f in fs {
        push_places(alloc, places, f, around)?;
    }
    Ok(())
}

/// Appends the place of a node with this sort and body. Gives for each variable around it whether the place
/// depends on it.
#[tactic(auto, using(crate::proofs::Marks::arguments_marked))]
fn push_place(
    alloc: Global,
    places: &mut Vec<Place>,
    sort: SortId,
    body: &Formula,
    around: &Around,
) -> Result<Vec<bool>, Memory>
    requires { IsRight around.now }
    ensures marks { IfOk result (λ marks. marks.items ≡ marks_to (length (binders_of around.now)) (place_needs (binders_of around.now) (form_of body.now))) }
    ensures place { OnOk result (places.new.items ≡ places.old.items ++ place_at (binders_of around.now) sort (form_of body.now) ∷ []) }
{
    let marks = marks_of(alloc, body, around)?;
    let mut arguments = Vec::new(alloc);
    push_arguments(&mut arguments, around, marks.as_slice(), 0)?;
    places.push(Place {
        sort,
        arguments: List::from_vec(arguments),
    })?;
    Ok(marks)
}

/// Appends the marked variables, the outermost first, where the innermost has the number `var`.
fn push_arguments(
    arguments: &mut Vec<PlaceArg>,
    around: &Around,
    marks: &[bool],
    var: u64,
) -> Result<(), Memory>
    ensures { OnOk result (arguments.new.items ≡ arguments.old.items ++ marked_from marks.now var (map sort_of (binders_of around.now))) }
{
    match around {
        Around::Outside => Ok(()),
        Around::Every(sort, outer) | Around::Chosen(sort, _, _, outer) => {
            push_arguments(arguments, outer, marks, one_more(var)?)?;
            push_if_marked(arguments, *sort, marks, var)
        }
    }
}

fn push_if_marked(
    arguments: &mut Vec<PlaceArg>,
    sort: SortId,
    marks: &[bool],
    var: u64,
) -> Result<(), Memory>
    ensures { OnOk result (arguments.new.items ≡ arguments.old.items ++ cond (get_or marks.now var false) (record { sort = sort; var = var } ∷ []) []) }
{
    if is_marked(marks, var) {
        let var = variable(var)?;
        arguments.push(PlaceArg { sort, var })?;
    }
    Ok(())
}

/// For each variable around a place with this body, whether the place depends on it.
#[tactic(auto, using(crate::proofs::Marks::marks_length))]
fn marks_of(alloc: Global, body: &Formula, around: &Around) -> Result<Vec<bool>, Memory>
    requires { IsRight around.now }
    ensures { IfOk result (λ marks. marks.items ≡ marks_to (length (binders_of around.now)) (place_needs (binders_of around.now) (form_of body.now))) }
{
    let n = count(around)?;
    let mut is_used = Vec::new(alloc);
    for x in 0..n {
        is_used.push(is_free(body, x + 1)?)?;
    }
    let mut marks = Vec::new(alloc);
    for y in 0..n {
        marks.push(some_depends(is_used.as_slice(), around, y))?;
    }
    Ok(marks)
}

/// How many binders there are.
fn count(around: &Around) -> Result<u64, Memory>
    ensures { IfOk result (λ n. n ≡ length (binders_of around.now)) }
{
    match around {
        Around::Outside => Ok(0),
        Around::Every(_, outer) | Around::Chosen(_, _, _, outer) => one_more(count(outer)?),
    }
}

/// Whether some of the variables that are used depends on the `All` variable `y`.
fn some_depends(is_used: &[bool], around: &Around, y: u64) -> bool
    requires { IsRight around.now }
    ensures { result ≡ any_below (length is_used.now) (λ x. get_or is_used.now x false && needs (binders_of around.now) x y) }
{
    let mut found = false;
    for x in 0..is_used.len() {
        found = found || (is_used[x] && depends(around, x as u64, y));
    }
    found
}

/// Whether the variable `x` depends on the `All` variable `y`.
fn depends(around: &Around, x: u64, y: u64) -> bool
    requires { IsRight around.now }
    ensures { result ≡ needs (binders_of around.now) x y }
{
    match around {
        Around::Outside => false,
        Around::Every(_, outer) => {
            if x == 0 {
                y == 0
            } else {
                y != 0 && depends(outer, x - 1, y - 1)
            }
        }
        Around::Chosen(_, _, marks, outer) => {
            if y == 0 {
                false
            } else if x == 0 {
                is_marked(marks, y - 1)
            } else {
                depends(outer, x - 1, y - 1)
            }
        }
    }
}

/// Whether there is a mark at the number, and it is set.
fn is_marked(marks: &[bool], at: u64) -> bool
    ensures { result ≡ get_or marks.now at false }
{
    let at = at as usize;
    at < marks.len() && marks[at]
}

/// Whether the variable is free in the normal form.
#[cycle(free)]
#[tactic(auto, using(crate::proofs::Marks::free_turned))]
fn is_free(f: &Formula, x: u64) -> Result<bool, Memory>
    ensures { IfOk result (λ b. b ≡ free x (form_of f.now)) }
{
    match f {
        Formula::True | Formula::False => Ok(false),
        Formula::Atom(_, terms) => Ok(has_variable(terms.as_slice(), x)),
        Formula::Same(a, b) => Ok(is_variable(a, x) || is_variable(b, x)),
        Formula::Not(f) => is_free(f, x),
        Formula::And(fs) | Formula::Or(fs) => is_free_in_some(fs.as_slice(), x),
        Formula::Implies(_, _) | Formula::Iff(_, _) => Ok(false),
        Formula::All(_, f) | Formula::Any(_, f) => is_free(f, one_more(x)?),
    }
}

#[cycle(free)]
fn is_free_in_some(fs: &[Rc<Formula>], x: u64) -> Result<bool, Memory>
    ensures { IfOk result (λ b. b ≡ free_some x (forms_of fs.now)) }
{
    for f in fs {
        if is_free(f, x)? {
            return Ok(true);
        }
    }
    Ok(false)
}

fn has_variable(terms: &[Term], x: u64) -> bool
    ensures { result ≡ list_any (in_term x) terms.now }
{
    for term in terms {
        if is_variable(term, x) {
            return true;
        }
    }
    false
}

fn is_variable(term: &Term, x: u64) -> bool
    ensures { result ≡ in_term x term.now }
{
    match term {
        Term::Var(y) => x == u64::from(*y),
        Term::Const(_) => false,
    }
}
