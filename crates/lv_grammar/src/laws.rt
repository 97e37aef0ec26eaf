//! What holds of the trees and texts that are shown, whatever the system or the structure: each law is the contract of a
//! function that does nothing.
ghost use Rattle.lv_grammar.specs.LayoutLaws.{ShownFits, FittingCanBeShown};
ghost use Rattle.lv_grammar.specs.StructureLaws.{ShownStructureSpells, SpellsOneStructure};

/// The items that are shown can be written.
pub fn shown_fits()
    ensures { ShownFits }
{}

/// Where the parts of a system fit and the symbols of its invariants have words, so have the symbols and
/// sorts of each of its formulas.
pub fn fitting_can_be_shown()
    ensures { FittingCanBeShown }
{}

/// The text that is shown for a structure spells it.
pub fn shown_structure_spells()
    ensures { ShownStructureSpells }
{}

/// A text spells one structure of a vocabulary alone.
pub fn one_structure()
    ensures { SpellsOneStructure }
{}
