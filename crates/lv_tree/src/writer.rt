ghost use Rattle.std.specs.Prelude.{◌≡◌, ◌++◌, IfOk, OnOk, IsTrue};
ghost use Rattle.lv_tree.specs.Spelling.{fits_in, SpellsTree};
ghost use Rattle.lv_tree.specs.Writing.{written, written_all, placed, bare};

use crate::fault::Memory;
use crate::list::List;
use crate::tree::Tree;
use std::alloc::{AllocError, Global};

/// Adds the bytes of a tree.
#[cycle(push)]
fn push_tree(out: &mut Vec<u8>, tree: &Tree) -> Result<(), AllocError>
    ensures { OnOk result (out.new.items ≡ out.old.items ++ written tree.now) }
{
    match tree {
        Tree::Word { text, .. } => out.extend_from_slice(text.as_slice())?,
        Tree::Group { items, .. } => {
            out.push(b'(')?;
            push_items(out, items.as_slice())?;
            out.push(b')')?;
        }
    }
    Ok(())
}

/// Adds the bytes of the items of a list: the first one, and then each behind a space.
#[cycle(push)]
fn push_items(out: &mut Vec<u8>, items: &[Tree]) -> Result<(), AllocError>
    ensures { OnOk result (out.new.items ≡ out.old.items ++ written_all items.now) }
{
    if let [first, others @ ..] = items {
        push_tree(out, first)?;
        for item in others {
            out.push(b' ')?;
            push_tree(out, item)?;
        }
    }
    Ok(())
}

/// The tree on one line, with one space between two items of a list and none inside its brackets, whatever
/// its words are and however deep its lists nest. The only error is want of memory.
pub fn write_line(alloc: Global, tree: &Tree) -> Result<List<u8>, Memory>
    ensures { IfOk result (λ bytes. bytes ≡ written tree.now) }
{
    let mut line = Vec::new(alloc);
    push_tree(&mut line, tree)?;
    Ok(List::from_vec(line))
}

/// The line of [`write_line`], which spells the tree. The only error is want of memory.
///
/// The caller sees to it that each word has 1 to 64 bytes, all of them word bytes, and that lists nest
/// at most 64 deep.
pub fn write_tree(alloc: Global, tree: &Tree) -> Result<List<u8>, Memory>
    requires { IsTrue (fits_in 64 tree.now) }
    ensures line { IfOk result (λ bytes. bytes ≡ written tree.now) }

    // The bytes spell the same tree, the places aside.
    ensures spells { IfOk result (λ bytes. SpellsTree bytes (placed 0 tree.now)) }
    ensures same { OnOk result (bare (placed 0 tree.now) ≡ bare tree.now) }
{
    let line = write_line(alloc, tree)?;
    Ok(line)
}
