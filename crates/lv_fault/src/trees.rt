//! The words and lists of a tree, each with its place.
ghost use Rattle.std.specs.Prelude.{◌≡◌};
ghost use Rattle.lv_fault.specs.declared.fault.ReadText.TheVariants as R;
ghost use Rattle.lv_fault.specs.Given.{Gives, fail_if, place_of, next_of, ended, word_in, list_in, headed, headed_items};
ghost use Rattle.lv_fault.specs.Seen.{spelled_seen, inside_seen, headed_seen};

use crate::fault::{Kind, ReadText, SyntaxFault};
use lv_tree::Tree;

/// A word with its place.
#[derive(Clone, Copy, Debug, Drop)]
pub struct Spelled<'a> {
    pub at: u32,
    pub text: &'a [u8],
}

/// What stands in a list, with the place of its closing bracket.
#[derive(Clone, Copy, Debug, Drop)]
pub struct Inside<'a> {
    pub end: u32,
    pub items: &'a [Tree],
}

/// A list that begins with a word: its first and last place, the word, and the items behind it.
#[derive(Clone, Copy, Debug, Drop)]
pub struct HeadedList<'a> {
    pub at: u32,
    pub end: u32,
    pub word: Spelled<'a>,
    pub rest: &'a [Tree],
}

/// The refusal with this fault.
pub fn refusal(kind: Kind, at: u32) -> ReadText
    ensures { result ≡ R.Refused (record { at = at; kind = kind }) }
{
    ReadText::Refused(SyntaxFault { at, kind })
}

/// The fault, where it is one.
pub fn refuse_if(wrong: bool, kind: Kind, at: u32) -> Result<(), ReadText>
    ensures { Gives (λ x. x) result (fail_if wrong kind at) }
{
    if wrong {
        Err(refusal(kind, at))
    } else {
        Ok(())
    }
}

/// The place of the tree's first byte.
pub fn place(tree: &Tree) -> u32
    ensures { result ≡ place_of tree.now }
{
    match tree {
        Tree::Word { at, text: _ } => *at,
        Tree::Group {
            at,
            end: _,
            items: _,
        } => *at,
    }
}

/// The first item, and those behind it, of a list that ends at this place.
pub fn next(end: u32, items: &[Tree]) -> Result<(&Tree, &[Tree]), ReadText>
    ensures { Gives (λ x. (x.0.now, x.1.now)) result (next_of end items.now) }
{
    match items {
        [first, rest @ ..] => Ok((first, rest)),
        [] => Err(refusal(Kind::Missing, end)),
    }
}

/// That no item is left.
pub fn finish(items: &[Tree]) -> Result<(), ReadText>
    ensures { Gives (λ x. x) result (ended items.now) }
{
    match items {
        [] => Ok(()),
        [first, ..] => Err(refusal(Kind::Unexpected, place(first))),
    }
}

/// A word, where one has to stand.
pub fn word(tree: &Tree) -> Result<Spelled<'_>, ReadText>
    ensures { Gives spelled_seen result (word_in tree.now) }
{
    match tree {
        Tree::Word { at, text } => Ok(Spelled {
            at: *at,
            text: text.as_slice(),
        }),
        Tree::Group {
            at,
            end: _,
            items: _,
        } => Err(refusal(Kind::Unexpected, *at)),
    }
}

/// A list, where one has to stand.
pub fn list(tree: &Tree) -> Result<Inside<'_>, ReadText>
    ensures { Gives inside_seen result (list_in tree.now) }
{
    match tree {
        Tree::Word { at, text: _ } => Err(refusal(Kind::Unexpected, *at)),
        Tree::Group { at: _, end, items } => Ok(Inside {
            end: *end,
            items: items.as_slice(),
        }),
    }
}

/// The list with these items, which has to begin with a word.
#[tactic(auto, unfolding(crate::specs::Given::headed_items))]
pub fn list_headed(at: u32, end: u32, items: &[Tree]) -> Result<HeadedList<'_>, ReadText>
    ensures { Gives headed_seen result (headed_items at end items.now) }
{
    let (first, rest) = next(end, items)?;
    let word = word(first)?;
    Ok(HeadedList {
        at,
        end,
        word,
        rest,
    })
}

/// A list that begins with a word, where one has to stand.
pub fn head(tree: &Tree) -> Result<HeadedList<'_>, ReadText>
    ensures { Gives headed_seen result (headed tree.now) }
{
    match tree {
        Tree::Word { at, text: _ } => Err(refusal(Kind::Unexpected, *at)),
        Tree::Group { at, end, items } => list_headed(*at, *end, items.as_slice()),
    }
}
