//! Words that a place asks for by their bytes, and numbers.
ghost use Rattle.std.specs.Prelude.{◌≡◌, ◌≤◌, length, true};
ghost use Rattle.std.specs.Str.{all_ascii_digits};
ghost use Rattle.lv_fault.specs.Given.{Gives};
ghost use Rattle.lv_fault.specs.Seen.{spelled_seen};
ghost use Rattle.lv_reading.specs.Numbers.{element_in, exactly, exactly_in, is_number, number_in, value_from};

use lv_fault::trees::{Spelled, refusal, refuse_if, word};
use lv_fault::{Kind, ReadText};
use lv_system::same_bytes;
use lv_tree::Tree;

/// A number with its place.
#[derive(Clone, Copy, Debug, Drop)]
pub struct Numbered {
    pub at: u32,
    pub value: u32,
}

/// That the word is the one that its place asks for. Any other is `Unexpected`.
pub fn exactly(text: &[u8], word: Spelled<'_>) -> Result<(), ReadText>
    ensures { Gives (λ x. x) result (exactly text.now (spelled_seen word.entry)) }
{
    refuse_if(!same_bytes(text, word.text), Kind::Unexpected, word.at)
}

/// That the tree is the word that its place asks for. Any other word is `Unexpected`, and so is a list.
pub fn exactly_in(text: &[u8], tree: &Tree) -> Result<(), ReadText>
    ensures { Gives (λ x. x) result (exactly_in text.now tree.now) }
{
    exactly(text, word(tree)?)
}

fn are_digits(text: &[u8]) -> bool
    ensures { result ≡ all_ascii_digits text.now }
{
    for byte in text {
        if !byte.is_ascii_digit() {
            return false;
        }
    }
    true
}

/// Whether the bytes are `0`, or a digit 1 to 9 and at most eight digits after it.
fn is_number(text: &[u8]) -> bool
    ensures { result ≡ is_number text.now }
{
    match text {
        [] => false,
        [first, ..] => are_digits(text) && text.len() <= 9 && (*first != b'0' || text.len() == 1),
    }
}

/// The number that the digits spell.
fn value_of(text: &[u8]) -> u32
    requires digits { all_ascii_digits text.now ≡ true }
    requires few { length text.now ≤ 9 }
    ensures { result ≡ value_from 0 text.now }
{
    let mut value: u32 = 0;
    for byte in text {
        value = 10 * value + byte.saturating_sub(b'0') as u32;
    }
    value
}

/// A number. Any other word is `Unexpected`, and so is a list.
pub fn number(tree: &Tree) -> Result<Numbered, ReadText>
    ensures { Gives (λ x. x) result (number_in tree.now) }
{
    let word = word(tree)?;
    if is_number(word.text) {
        Ok(Numbered {
            at: word.at,
            value: value_of(word.text),
        })
    } else {
        Err(refusal(Kind::Unexpected, word.at))
    }
}

/// An element of a sort of this size. A number that is not below the size is `WrongSort`.
pub fn element(size: u32, tree: &Tree) -> Result<u32, ReadText>
    ensures { Gives (λ x. x) result (element_in size tree.now) }
{
    let number = number(tree)?;
    if number.value < size {
        Ok(number.value)
    } else {
        Err(refusal(Kind::WrongSort, number.at))
    }
}
