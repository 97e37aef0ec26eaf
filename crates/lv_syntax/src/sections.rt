//! Items of one kind, read one after the other.
ghost use Rattle.std.specs.Prelude.{◌≡◌};
ghost use Rattle.lv_fault.specs.Given.{Gives};
ghost use Rattle.lv_grammar.specs.Reading.{begins_with};
ghost use Rattle.lv_grammar.specs.Sections.{section, section_from};
ghost use Rattle.lv_syntax.specs.SectionsSeen.{read_and_add, section_seen};

use lv_fault::trees::{place, refusal};
use lv_fault::{Kind, ReadText};
use lv_system::same_bytes;
use lv_tree::Tree;
use lv_words::growing::Growing;
use lv_words::known::Known;
use std::alloc::Global;

/// A kind of items of a system.
pub(crate) trait Items {
    ghost use Rattle.lv_grammar.specs.Sections.{Kind};

    type Item: Drop;

    ghost kind: { Kind Self.Item };

    /// Whether the tree is to be read as an item of this kind.
    fn begins(tree: &Tree) -> bool
        ensures { result ≡ kind.is tree.now };

    /// The item, which is then known.
    fn next(alloc: Global, known: &mut Known, tree: &Tree) -> Result<Self::Item, ReadText>
        ensures { Gives (λ x. (x, known.new)) result (read_and_add kind known.old tree.now) };
}

/// What was read of the items of one kind, and the trees that are left.
#[derive(Drop)]
pub(crate) struct Section<'a, T> {
    pub(crate) items: Growing<T>,
    pub(crate) rest: &'a [Tree],
}

/// The items of the kind at the front, at most so many, behind those that are read.
#[tactic(auto, using(crate::proofs::SectionTurns::turn, crate::proofs::SectionTurns::stop, crate::proofs::SectionTurns::full, crate::proofs::SectionTurns::other, crate::proofs::SectionTurns::end))]
fn section_behind<'a, K: Items>(
    alloc: Global,
    room: u32,
    known: &mut Known,
    mut items: Growing<K::Item>,
    trees: &'a [Tree],
) -> Result<Section<'a, K::Item>, ReadText>
    ensures { Gives (section_seen known.new) result (section_from K.kind room known.old items trees.now) }
{
    match trees {
        [] => Ok(Section { items, rest: trees }),
        [tree, rest @ ..] => {
            if !K::begins(tree) {
                return Ok(Section { items, rest: trees });
            }
            if room == 0 {
                return Err(refusal(Kind::TooMany, place(tree)));
            }
            items.push(K::next(alloc, &mut *known, tree)?)?;
            section_behind::<K>(alloc, room - 1, known, items, rest)
        }
    }
}

/// The items of the kind at the front, at most so many, which are then known.
#[tactic(auto, using(crate::proofs::SectionTurns::nothing_behind))]
pub(crate) fn read_section<'a, K: Items>(
    alloc: Global,
    room: u32,
    known: &mut Known,
    trees: &'a [Tree],
) -> Result<Section<'a, K::Item>, ReadText>
    ensures { Gives (section_seen known.new) result (section K.kind room known.old trees.now) }
{
    section_behind::<K>(alloc, room, known, Growing::new(alloc), trees)
}

/// Whether the tree is a list that begins with the word.
pub(crate) fn begins_with(word: &[u8], tree: &Tree) -> bool
    ensures { result ≡ begins_with word.now tree.now }
{
    match tree {
        Tree::Word { at: _, text: _ } => false,
        Tree::Group {
            at: _,
            end: _,
            items,
        } => match items.as_slice() {
            [Tree::Word { at: _, text }, ..] => same_bytes(text.as_slice(), word),
            _ => false,
        },
    }
}
