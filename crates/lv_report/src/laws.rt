//! What holds of reports: each law is the contract of a function that does nothing.
ghost use Rattle.std.specs.Prelude.{◌≡◌, ℕ, List, true, false};
ghost use Rattle.lv_formula.specs.declared.symbols.SortId.{SortId};
ghost use Rattle.lv_struct.specs.Tables.{Tables};
ghost use Rattle.lv_system.specs.declared.parts.Parts.{Parts};
ghost use Rattle.lv_report.specs.Texts.{axiom_fails_text, begins_with_p, countermodel_text, guard_fails_text, hypothesis_fails_text, made_text, not_stratified_text, proved_text, spent_text, too_large_text, unfair_text};
ghost use Rattle.lv_report.specs.Spelling.{CountermodelsAreSpelled, ObligationsHaveWords};

/// Of the reports only the one that all obligations are valid begins with the byte `p`.
pub fn only_proved_begins_with_p()
    ensures proved { (obligations : ℕ) → begins_with_p (proved_text obligations) ≡ true }
    ensures countermodel { (p : Parts) (index : ℕ) (w : Tables) → begins_with_p (countermodel_text p index w) ≡ false }
    ensures not_stratified { (p : Parts) (index : ℕ) (sorts : List SortId) → begins_with_p (not_stratified_text p index sorts) ≡ false }
    ensures too_large { (p : Parts) (index : ℕ) → begins_with_p (too_large_text p index) ≡ false }
    ensures spent { (p : Parts) (index learned : ℕ) → begins_with_p (spent_text p index learned) ≡ false }
    ensures hypothesis_fails { (number : ℕ) → begins_with_p (hypothesis_fails_text number) ≡ false }
    ensures axiom_fails { (number : ℕ) → begins_with_p (axiom_fails_text number) ≡ false }
    ensures guard_fails { (step : ℕ) → begins_with_p (guard_fails_text step) ≡ false }
    ensures made { (p : Parts) (obligations largest : ℕ) (answer : List ℕ) → begins_with_p (made_text p obligations largest answer) ≡ false }
    ensures unfair { (p : Parts) (fair : ℕ) → begins_with_p (unfair_text p fair) ≡ false }
{}

/// The symbols of each obligation's vocabulary have words.
pub fn obligations_have_words()
    ensures { ObligationsHaveWords }
{}

/// Behind the first line of a countermodel's report stands a text that spells the structure.
pub fn countermodels_are_spelled()
    ensures { CountermodelsAreSpelled }
{}
