//! What holds of the trees and texts that are shown, whatever the system: each law is the contract of a function that does
//! nothing.
ghost use Rattle.lv_layout.specs.Laws.{ShownIsSpelled, ShownTextSpells, SpelledHasWords, SpelledCanBeShown};

/// Where some tree spells a system, the tree that is shown spells it, the places aside.
pub fn shown_is_spelled()
    ensures { ShownIsSpelled }
{}

/// Where some tree spells a system, the text that is shown spells it.
pub fn shown_text_spells()
    ensures { ShownTextSpells }
{}

/// Where some tree spells a system, the symbols of its invariants have words.
pub fn spelled_has_words()
    ensures { SpelledHasWords }
{}

/// Where some tree spells a system, the symbols and sorts of each of its formulas have words.
pub fn spelled_can_be_shown()
    ensures { SpelledCanBeShown }
{}
