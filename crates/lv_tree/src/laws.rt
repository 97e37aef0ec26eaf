//! What holds of the grammar and of the faults, whatever the bytes: each law is the contract of a
//! function that does nothing.

ghost use Rattle.lv_tree.specs.Laws.{SpellsAtMostOne, SpellsUnlessFault};

/// A text spells at most one tree.
pub fn one_tree()
    ensures { SpellsAtMostOne }
{}

/// Bytes spell a tree exactly where they have no fault.
pub fn tree_or_fault()
    ensures { SpellsUnlessFault }
{}
