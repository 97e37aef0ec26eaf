//! What holds of the definitions, whatever the words: each law is the contract of a function that does nothing.
ghost use Rattle.lv_command.specs.Commands.{AsksByName, AsksToMake, AsksToProve, AsksWhereTaken, NamesEachMode};

/// The one word `prove` asks for a proof with the budget 100,000, and with the words `--budget` and `7`, or `--budget=7`,
/// for one with the budget 7. The one word `show` asks for the text in its layout, `check` for a check,
/// `replay` for a replay, and `make` with `2` or `16` behind it for the chain of so many places. Without a word no mode is
/// asked for, and none with a budget of 0 or above 1,000,000, nor with 1 or 17 places or without their number.
pub fn named_modes()
    ensures { NamesEachMode }
{}

/// A proof is asked for by the word `prove`, alone or with a budget behind it in one of the two spellings, and with at
/// most `--` behind that.
pub fn asks_to_prove()
    ensures { AsksToProve }
{}

/// The chain of some places is asked for by the word `make` with their number behind it, and `--` before or behind the
/// number, or none.
pub fn asks_to_make()
    ensures { AsksToMake }
{}

/// The layout is asked for by the word `show`, a check by `check`, and a replay by `replay`, with at most `--` behind it.
pub fn asks_by_name()
    ensures { AsksByName }
{}

/// No mode is asked for exactly where `clap`'s definition of the command doesn't take the words.
pub fn asks_where_taken()
    ensures { AsksWhereTaken }
{}
