//! What holds of what is spelled, whatever the tree.
ghost use Rattle.lv_fitting.specs.Laws.{FormulasFit, WordsOfSymbols, SystemsFit};

/// A formula by the rules fits where its words do, and keeps its limits.
pub fn formulas_fit()
    ensures { FormulasFit }
{}

/// The word that says a symbol is the symbol's word.
pub fn words_of_symbols()
    ensures { WordsOfSymbols }
{}

/// The parts of a system that is spelled fit, and its labels keep their limits.
pub fn systems_fit()
    ensures { SystemsFit }
{}
