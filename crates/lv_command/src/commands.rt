//! The words of a call, read with `clap`.
ghost use Rattle.std.specs.Prelude.{◌≡◌, IfOk, IfSome, map, pos, string_bytes, false, option_and_then};
ghost use Rattle.clap.specs.Words.{app_of, found_of, rows_of, rule_of, subcommand_rows_of};
ghost use Rattle.clap.specs.declared.builder.command.Command.TheViews.{out-Command};
ghost use Rattle.clap.specs.declared.builder.value_parser.ValueParser.TheVariants as parsers;
ghost use Rattle.lv_command.specs.Commands.{HasReadBudget, HasReadNumbers, HasReadPlaces, IsInRange, budget_of, budget_rule, command_on_systems, command_on_texts, make_command, mode_named, mode_of, places_of, places_rule, prove_command, the_command};

use crate::mode::{Mode, TextMode};
use clap::builder::ValueParser;
use clap::error::ErrorKind;
use clap::{Arg, ArgMatches, Command, value_parser};
use lv_formula::Memory;
use std::alloc::{AllocError, Global};

/// The budget where the words don't say it.
const BUDGET: u32 = 100_000;

/// The numbers that a budget may be.
fn budgets<'a>() -> ValueParser<'a>
    ensures { result ≡ parsers.Signed (pos 1) (pos 1000000) }
{
    value_parser!(u32).range(1..=1_000_000)
}

/// The option `--budget` with its number.
fn budget_option<'a>(alloc: Global) -> Arg<'a>
    ensures rule { rule_of result ≡ budget_rule }
    ensures local { result.global ≡ false }
{
    Arg::new(alloc, "budget")
        .long("budget")
        .value_parser(budgets())
}

/// The subcommand `prove` with its option.
fn prove_command<'a>(alloc: Global) -> Result<Command<'a>, AllocError>
    ensures shape { IfOk result (λ c. app_of c ≡ prove_command) }
    ensures local { IfOk result (λ c. (out-Command c).has_globals ≡ false) }
{
    Command::new(alloc, "prove").arg(budget_option(alloc))
}

/// The numbers of places that a chain may have.
fn chain_sizes<'a>() -> ValueParser<'a>
    ensures { result ≡ parsers.Signed (pos 2) (pos 16) }
{
    value_parser!(u32).range(2..=16)
}

/// The number of places, which stands by itself.
fn places_argument<'a>(alloc: Global) -> Arg<'a>
    ensures rule { rule_of result ≡ places_rule }
    ensures local { result.global ≡ false }
{
    Arg::new(alloc, "places")
        .required(true)
        .value_parser(chain_sizes())
}

/// The subcommand `make` with its number.
fn make_command<'a>(alloc: Global) -> Result<Command<'a>, AllocError>
    ensures shape { IfOk result (λ c. app_of c ≡ make_command) }
    ensures local { IfOk result (λ c. (out-Command c).has_globals ≡ false) }
{
    Command::new(alloc, "make").arg(places_argument(alloc))
}

/// The command with the subcommands on systems alone. There are no flags, not even for help. Behind the name of
/// a subcommand `clap` takes nothing but its option or its number, and `--`.
fn command_on_systems<'a>(alloc: Global) -> Result<Command<'a>, AllocError>
    ensures { IfOk result (λ c. app_of c ≡ command_on_systems) }
{
    let leadsto = Command::new(alloc, "leadsto")
        .no_binary_name(true)
        .subcommand_required(true)
        .disable_help_flag(true)
        .disable_help_subcommand(true)
        .disable_version_flag(true);
    leadsto
        .subcommand(prove_command(alloc)?)?
        .subcommand(Command::new(alloc, "show"))
}

/// The command with the subcommands on texts alone.
fn command_on_texts<'a>(alloc: Global) -> Result<Command<'a>, AllocError>
    ensures { IfOk result (λ c. app_of c ≡ command_on_texts) }
{
    command_on_systems(alloc)?
        .subcommand(Command::new(alloc, "check"))?
        .subcommand(Command::new(alloc, "replay"))
}

/// The command with all its subcommands.
fn command<'a>(alloc: Global) -> Result<Command<'a>, AllocError>
    ensures { IfOk result (λ c. app_of c ≡ the_command) }
{
    command_on_texts(alloc)?.subcommand(make_command(alloc)?)
}

/// The budget that was given behind `prove`, or the usual one.
fn budget(matches: &ArgMatches<'_>) -> u32
    requires { HasReadBudget (rows_of (found_of matches.now)) }
    ensures { result ≡ budget_of (rows_of (found_of matches.now)) }
{
    matches.get_one::<u32>("budget").unwrap_or(BUDGET)
}

/// The number of places that was given behind `make`.
fn places(matches: &ArgMatches<'_>) -> Option<u32>
    requires { HasReadPlaces (rows_of (found_of matches.now)) }
    ensures { result ≡ places_of (rows_of (found_of matches.now)) }
{
    matches.get_one::<u32>("places")
}

/// The mode of the subcommand that was met.
fn mode_met(matches: &ArgMatches<'_>) -> Option<Mode>
    requires { IfSome (subcommand_rows_of matches.now) (λ met. HasReadNumbers met.1) }
    ensures { result ≡ option_and_then mode_named (subcommand_rows_of matches.now) }
{
    match matches.subcommand() {
        Some(("prove", found)) => Some(Mode::OnText(TextMode::Prove {
            budget: budget(found),
        })),
        Some(("show", _)) => Some(Mode::OnText(TextMode::Show)),
        Some(("check", _)) => Some(Mode::OnText(TextMode::Check)),
        Some(("replay", _)) => Some(Mode::OnText(TextMode::Replay)),
        Some(("make", found)) => places(found).map(|places| Mode::Make { places }),
        _ => None,
    }
}

/// The mode that the words behind the program's name ask for, where the command takes them. The budget of a proof is from
/// 1 to 1,000,000, and 100,000 where the words don't say it. A chain has from 2 to 16 places. The error is want of memory.
pub fn mode_of(alloc: Global, words: &[String]) -> Result<Option<Mode>, Memory>
    ensures mode { IfOk result (λ mode. mode ≡ mode_of (map (λ word. string_bytes word) words.now)) }
    ensures range { IfOk result (λ mode. IfSome mode IsInRange) }
{
    match command(alloc)?.try_get_matches_from(words) {
        Ok(matches) => Ok(mode_met(&matches)),
        Err(error) => match error.kind() {
            ErrorKind::OutOfMemory => Err(Memory),
            _ => Ok(None),
        },
    }
}
