//! Names: their form, and that no two of a system are the same.
ghost use Rattle.std.specs.Prelude.{◌≡◌, map, cond, eqb};
ghost use Rattle.lv_formula.specs.Measures.{at_most_u64};
ghost use Rattle.lv_system.specs.Names.{same_text, is_name, are_names, occurrences, each_stands_once, names_of, names_fit};

use crate::named::HasName;
use crate::parts::Parts;
use crate::words::{all_stand_in_names, begins_with_small_letter, is_reserved_word, same_bytes};

/// Whether the bytes are a name: a small letter, then letters, digits, `_` and `-`, at most 48 bytes in
/// all, and no reserved word.
fn is_a_name(text: &[u8]) -> bool
    ensures { result ≡ is_name text.now }
{
    begins_with_small_letter(text)
        && all_stand_in_names(text)
        && text.len() <= 48
        && !is_reserved_word(text)
}

/// Whether each item's name has the form of one.
fn have_names<T: HasName>(items: &[T]) -> bool
    ensures { result ≡ are_names (map T.text items.now) }
{
    for item in items {
        if !is_a_name(item.name()) {
            return false;
        }
    }
    true
}

/// 1 where the two are one text, else 0.
fn one_if_same(a: &[u8], b: &[u8]) -> u64
    ensures { result ≡ cond (same_text a.now b.now) 1 0 }
{
    if same_bytes(a, b) { 1 } else { 0 }
}

/// How many of the items have the name, ending at the greatest `u64`.
fn count_in<T: HasName>(name: &[u8], items: &[T]) -> u64
    ensures { result ≡ at_most_u64 (occurrences name.now (map T.text items.now)) }
{
    let mut sum = 0u64;
    for item in items {
        sum = sum.saturating_add(one_if_same(item.name(), name));
    }
    sum
}

/// How often the name stands among the names of the system, ending at the greatest `u64`.
#[tactic(auto, using(crate::proofs::NameLaws::occurrences_summed))]
fn count(name: &[u8], parts: &Parts) -> u64
    ensures { result ≡ at_most_u64 (occurrences name.now (names_of parts.now)) }
{
    one_if_same(parts.name.as_slice(), name)
        .saturating_add(count_in(name, parts.sorts.as_slice()))
        .saturating_add(count_in(name, parts.symbols.as_slice()))
        .saturating_add(count_in(name, parts.actions.as_slice()))
        .saturating_add(count_in(name, parts.fairs.as_slice()))
        .saturating_add(count_in(name, parts.labels.as_slice()))
        .saturating_add(count_in(name, parts.witnesses.as_slice()))
        .saturating_add(count_in(name, parts.invariants.as_slice()))
}

/// Whether the name stands once among the names of the system.
fn stands_once(name: &[u8], parts: &Parts) -> bool
    ensures { result ≡ eqb (occurrences name.now (names_of parts.now)) 1 }
{
    count(name, parts) == 1
}

/// Whether each item's name stands once among the names of the system.
fn each_once<T: HasName>(items: &[T], parts: &Parts) -> bool
    ensures { result ≡ each_stands_once (map T.text items.now) (names_of parts.now) }
{
    for item in items {
        if !stands_once(item.name(), parts) {
            return false;
        }
    }
    true
}

/// Whether all names of the system have the form of a name.
#[tactic(auto, using(crate::proofs::NameLaws::names_parted))]
fn all_are_names(parts: &Parts) -> bool
    ensures { result ≡ are_names (names_of parts.now) }
{
    is_a_name(parts.name.as_slice())
        && have_names(parts.sorts.as_slice())
        && have_names(parts.symbols.as_slice())
        && have_names(parts.actions.as_slice())
        && have_names(parts.fairs.as_slice())
        && have_names(parts.labels.as_slice())
        && have_names(parts.witnesses.as_slice())
        && have_names(parts.invariants.as_slice())
}

/// Whether no two names of the system are the same.
#[tactic(auto, using(crate::proofs::NameLaws::once_parted))]
fn all_differ(parts: &Parts) -> bool
    ensures { result ≡ each_stands_once (names_of parts.now) (names_of parts.now) }
{
    stands_once(parts.name.as_slice(), parts)
        && each_once(parts.sorts.as_slice(), parts)
        && each_once(parts.symbols.as_slice(), parts)
        && each_once(parts.actions.as_slice(), parts)
        && each_once(parts.fairs.as_slice(), parts)
        && each_once(parts.labels.as_slice(), parts)
        && each_once(parts.witnesses.as_slice(), parts)
        && each_once(parts.invariants.as_slice(), parts)
}

/// Whether each name has the form of one, and no two are the same.
pub(crate) fn names_of_parts_fit(parts: &Parts) -> bool
    ensures { result ≡ names_fit parts.now }
{
    all_are_names(parts) && all_differ(parts)
}
