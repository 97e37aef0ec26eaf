//! The one call that does all that the program does.
ghost use Rattle.std.specs.Prelude.{◌≡◌, ◌⊎◌, ◌≤◌, ◌<◌, IfSome, Option, Some, ℕ, List, [], length};
ghost use Rattle.std.specs.declared.string.String.{String};
ghost use Rattle.std.specs.declared.alloc.Global.{Global};
ghost use Rattle.lv_system.specs.declared.parts.Parts.{Parts};
ghost use Rattle.lv_grammar.specs.Spelling.{Spells};
ghost use Rattle.lv_edge.specs.Causes.{Rose};
ghost use Rattle.lv_edge.specs.Streams.{LosesAtMost};
ghost use Rattle.lv_struct.specs.Tables.{Tables};
ghost use Rattle.lv_labels.specs.Obligations.{AreValid};
ghost use Rattle.lv_prove.specs.Outcomes.{IsFirstBroken, IsInFragment};
ghost use Rattle.lv_prove.specs.declared.outcome.Outcome.TheVariants.{Proved};
ghost use Rattle.lv_headline.specs.Headline.{HoldsAtAllSizes, IsProved};
ghost use Rattle.lv_chain.specs.Chain.{chain_of};
ghost use Rattle.lv_command.specs.Commands.{HasBudgetInRange};
ghost use Rattle.lv_run.specs.Answers.{Reading, Reads, IsAnswer, language_of};
ghost use Rattle.lv_run.specs.Calls.{AskFor, AskOfText, AreNoCommand, NeedNoText, status_of, told_of, IsComposed, IsLeft, IsDelivered, Concludes, HasReason, BeginsWithP, IsOrFault, IsProvedOrSpent, IsCounterOrSpent, IsEnough, IsNotSpent, IsUsageOrFault, IsChainOrFault};

use crate::answer::{Composed, answer, told};
use crate::detail::Detail;
use crate::making::make_chain;
use lv_command::{Mode, TextMode, mode_of};
use lv_edge::{ReadAll, Sink, Source, read_all, write_all};
use std::alloc::Global;

/// The most bytes that a text may have.
const MOST_BYTES: u32 = 1_048_576;

/// What a call came to.
#[derive(Debug, Drop)]
pub struct Report {
    /// The number with which the program ends.
    pub status: u8,
    pub detail: Detail,
}

fn wanting(alloc: Global) -> Composed
    ensures detail { result.detail ≡ Detail.MemoryWanting }
    ensures out { result.out ≡ [] }
{
    told(alloc, Detail::MemoryWanting, b"memory\n")
}

/// The answer to what is asked of the text, which is read to its end.
#[tactic(auto, using(crate::proofs::CallLemmas::composed, crate::proofs::CallLemmas::no_read_fault, crate::proofs::CallLemmas::left_at_end))]
fn compose_answer<S: Source>(alloc: Global, mode: TextMode, source: &mut S) -> Composed
    requires { HasBudgetInRange mode }
    ensures texts { (words : List (String Global)) → AskFor (Mode.OnText mode) words → IsComposed words (S.left source.old) result.detail result.out }
    ensures fault { result.detail ≡ Detail.ReadFault → Rose (S.faults source.old) (S.faults source.new) }
    ensures later { S.faults source.old ≤ S.faults source.new }
    ensures taken { IsLeft result.detail (S.left source.old) (S.left source.new) }
    ensures at_most { LosesAtMost 1048577 (S.left source.old) (S.left source.new) }
{
    match read_all(alloc, source, MOST_BYTES) {
        Ok(bytes) => match answer(alloc, mode, bytes.as_slice()) {
            Ok(composed) => composed,
            Err(_) => wanting(alloc),
        },
        Err(ReadAll::ReadFault) => told(alloc, Detail::ReadFault, b"read fault\n"),
        Err(ReadAll::TooLong) => told(alloc, Detail::TooLong, b"text too long\n"),
        Err(ReadAll::Memory) => wanting(alloc),
    }
}

/// The answer to a chain of so many places.
#[tactic(auto, using(crate::proofs::ChainLemmas::composed, crate::proofs::ChainLemmas::no_read_fault, crate::proofs::ChainLemmas::unread))]
fn compose_chain(alloc: Global, places: u32) -> Composed
    requires least { 2 ≤ places }
    requires most { places ≤ 16 }
    ensures texts { (words : List (String Global)) (left : Option (List ℕ)) → AskFor (Mode.Make places) words → IsComposed words left result.detail result.out }
    ensures fault { result.detail ≡ Detail.ReadFault → ⊥ }
    ensures taken { (left : Option (List ℕ)) → IsLeft result.detail left left }
{
    match make_chain(alloc, places) {
        Ok(composed) => composed,
        Err(_) => wanting(alloc),
    }
}

/// The answer to the words and the text.
fn compose<S: Source>(alloc: Global, words: &[String], source: &mut S) -> Composed
    ensures texts { IsComposed words.now (S.left source.old) result.detail result.out }
    ensures fault { result.detail ≡ Detail.ReadFault → Rose (S.faults source.old) (S.faults source.new) }
    ensures later { S.faults source.old ≤ S.faults source.new }
    ensures taken { IsLeft result.detail (S.left source.old) (S.left source.new) }
    ensures at_most { LosesAtMost 1048577 (S.left source.old) (S.left source.new) }
    ensures unread { NeedNoText words.now → source.new ≡ source.old }
{
    match mode_of(alloc, words) {
        Ok(Some(Mode::OnText(mode))) => compose_answer(alloc, mode, source),
        Ok(Some(Mode::Make { places })) => compose_chain(alloc, places),
        Ok(None) => told(
            alloc,
            Detail::Usage,
            b"usage: leadsto prove [--budget N] | show | check | replay | make N\n",
        ),
        Err(_) => wanting(alloc),
    }
}

/// Writes the texts. After a fault nothing more is written.
fn deliver<O: Sink, E: Sink>(composed: Composed, out: &mut O, err: &mut E) -> Report
    ensures delivered { IsDelivered composed.detail result.detail composed.out (told_of composed.detail) (O.written out.old) (O.written out.new) (E.written err.old) (E.written err.new) }
    ensures status { result.status ≡ status_of result.detail }
    ensures out_later { O.faults out.old ≤ O.faults out.new }
    ensures err_later { E.faults err.old ≤ E.faults err.new }
    ensures fault { (result.detail ≡ composed.detail) ⊎ ((result.detail ≡ Detail.WriteFault) × (Rose (O.faults out.old) (O.faults out.new) ⊎ Rose (E.faults err.old) (E.faults err.new))) }
{
    if write_all(out, composed.out.as_slice()).is_err()
        || write_all(err, composed.err.as_slice()).is_err()
    {
        return ended(Detail::WriteFault);
    }
    ended(composed.detail)
}

fn ended(detail: Detail) -> Report
    ensures detail { result.detail ≡ detail }
    ensures status { result.status ≡ status_of detail }
{
    Report {
        status: detail.status(),
        detail,
    }
}

/// Does all that the program does: `words` are the words behind the program's name, `source` has the
/// text, and reports go to `out` and `err`. Each refusal is one of the answers of [`Detail`]; the words
/// are looked at first, then the text is read to its end, then what it spells is shown, decided, checked or
/// replayed, and a report is composed whole before its first byte is written. Where the words ask for a chain, no text is
/// read: the chain is made, shown and decided.
pub fn run<S: Source, O: Sink, E: Sink>(
    alloc: Global,
    words: &[String],
    source: &mut S,
    out: &mut O,
    err: &mut E,
) -> Report
    // Where `out` received a text that begins with the byte `p`, the bytes that were left spell one system. On each lasso run
    // of it, of structures of any sizes, whose loop is fair, the property holds; and its labelled runs are bounded.
    ensures headline { BeginsWithP (O.written out.old) (O.written out.new) → IfSome (S.left source.old) IsProved }

    // The same holds of a chain of which all obligations are valid.
    ensures chain { (places obligations largest n : ℕ) → AskFor (Mode.Make places) words.now → result.detail ≡ Detail.Made obligations largest (Proved n) → HoldsAtAllSizes (chain_of places) }

    // Each answer has its cause, and its text is written.
    ensures reason { HasReason words.now (S.left source.old) result.detail }
    ensures texts { Concludes words.now (S.left source.old) (S.faults source.old) (S.faults source.new) result.detail (O.written out.old) (O.written out.new) (E.written err.old) (E.written err.new) }
    ensures status { result.status ≡ status_of result.detail }

    // What is left of the text. Where the command doesn't take the words, or they ask for a chain, the source stays as it
    // was, whatever the answer.
    ensures taken { IsLeft result.detail (S.left source.old) (S.left source.new) }
    ensures unread { NeedNoText words.now → source.new ≡ source.old }

    // Faults come only where a count of faults rose in this call, and no count falls.
    ensures read_later { S.faults source.old ≤ S.faults source.new }
    ensures out_later { O.faults out.old ≤ O.faults out.new }
    ensures err_later { E.faults err.old ≤ E.faults err.new }
    ensures read_fault { result.detail ≡ Detail.ReadFault → Rose (S.faults source.old) (S.faults source.new) }
    ensures write_fault { result.detail ≡ Detail.WriteFault → Rose (O.faults out.old) (O.faults out.new) ⊎ Rose (E.faults err.old) (E.faults err.new) }

    // No other answer comes in place of the one that fits, faults and want of memory aside: to words that
    // are no command, to a text that is too long, to a chain, to what a text comes to in a mode, and so to a system whose
    // obligations are all decided and valid, and to one with an obligation that isn't, save that the budget may be spent.
    ensures only_usage { AreNoCommand words.now → IsUsageOrFault result.detail }
    ensures only_too_long { (bytes : List ℕ) → AskOfText words.now → S.left source.old ≡ Some bytes → 1048576 < length bytes → IsOrFault (λ answer. answer ≡ Detail.TooLong) result.detail }
    ensures only_chain { (places : ℕ) → AskFor (Mode.Make places) words.now → IsChainOrFault places result.detail }
    ensures only_answer { (mode : TextMode) (bytes : List ℕ) (reading : Reading) → AskFor (Mode.OnText mode) words.now → S.left source.old ≡ Some bytes → length bytes ≤ 1048576 → Reads (language_of mode) bytes reading → IsOrFault (IsAnswer mode reading) result.detail }
    ensures only_proved { (budget : ℕ) (bytes : List ℕ) (p : Parts) → AskFor (Mode.OnText (TextMode.Prove budget)) words.now → S.left source.old ≡ Some bytes → length bytes ≤ 1048576 → Spells bytes p → IsInFragment p → AreValid p → IsOrFault (IsProvedOrSpent p budget) result.detail }
    ensures only_counter { (budget : ℕ) (bytes : List ℕ) (p : Parts) (index : ℕ) (w : Tables) → AskFor (Mode.OnText (TextMode.Prove budget)) words.now → S.left source.old ≡ Some bytes → length bytes ≤ 1048576 → Spells bytes p → IsInFragment p → IsFirstBroken p index w → IsOrFault (IsCounterOrSpent p budget index) result.detail }

    // Where the budget is more than the solver can need, it isn't spent.
    ensures never_spent { (budget : ℕ) (bytes : List ℕ) (p : Parts) → AskFor (Mode.OnText (TextMode.Prove budget)) words.now → S.left source.old ≡ Some bytes → length bytes ≤ 1048576 → Spells bytes p → IsEnough p budget → IsNotSpent result.detail }
{
    deliver(compose(alloc, words, source), out, err)
}
