//! What holds of reading, whatever the tree and whatever is known.
ghost use Rattle.lv_spelling.specs.Laws.{WordsSay, FormulasAreSpelled, SectionsAgree, SystemsAreSpelled, SpellsAtMostOne};

/// A word is read as a symbol exactly where it says it.
pub fn words_say()
    ensures { WordsSay }
{}

/// A formula is read exactly where it is one by the rules.
pub fn formulas_are_spelled()
    ensures { FormulasAreSpelled }
{}

/// The items of each kind are read exactly where they are spelled.
pub fn sections_agree()
    ensures { SectionsAgree }
{}

/// A tree is read as a system exactly where it spells one, and as that one.
pub fn systems_are_spelled()
    ensures { SystemsAreSpelled }
{}

/// A text spells at most one system.
pub fn one_system()
    ensures { SpellsAtMostOne }
{}
