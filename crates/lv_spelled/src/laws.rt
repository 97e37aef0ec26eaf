//! A structure, or a lasso, is read of a tree exactly where the tree spells one: each law is the contract of a function that does
//! nothing.
ghost use Rattle.lv_spelled.specs.LassoLaws.{ReadLassoIsSpelled, SpelledLassoIsRead};
ghost use Rattle.lv_spelled.specs.Laws.{ReadIsSpelled, SpelledIsRead};

/// The structure that is read of a tree is one that the tree spells.
pub fn read_structures_are_spelled()
    ensures { ReadIsSpelled }
{}

/// Of a tree that spells a structure no fault is told, and what is read is the same structure: the same sizes, tuples and
/// elements.
pub fn spelled_structures_are_read()
    ensures { SpelledIsRead }
{}

/// The lasso that is read of a tree, of a system whose parts fit, is one that the tree spells.
pub fn read_lassos_are_spelled()
    ensures { ReadLassoIsSpelled }
{}

/// Of a tree that spells a lasso of a system whose parts fit, no fault is told, and what is read is the same lasso: the same
/// steps, and at the start the same sizes, tuples and elements.
pub fn spelled_lassos_are_read()
    ensures { SpelledLassoIsRead }
{}
