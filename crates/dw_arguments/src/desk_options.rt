//! Arguments that several commands have.
ghost use Rattle.std.specs.Prelude.{◌≡◌, ◌≤◌};
ghost use Rattle.dw_arguments.specs.Commands.{moves_within};
ghost use Rattle.dw_arguments.specs.DeskCommands.{lines_option};
ghost use Rattle.dw_arguments.specs.Options.{options_of};

use crate::options::{CommandTexts, cache, count_option, flag, moves_option, option, reader};
use clap::{Arg, ArgMatches, Command, value_parser};
use dw_stipulation::MoveCount;
use std::alloc::{AllocError, Global};

/// The fewest lines that a solution is written with.
const FEWEST_LINES: u64 = 1;

/// The most lines that a solution is written with.
const MOST_LINES: u64 = 1_000_000;

/// The default number of lines of a solution.
pub const USUAL_LINES: usize = 1000;

pub(crate) const JSON_HELP: &str = "Write one line of JSON for each problem";

/// Makes a command that searches the problems that it reads. Its own arguments follow those that each command has.
pub(crate) fn searcher<'a>(
    alloc: Global,
    texts: CommandTexts<'a>,
    problem: Arg<'a>,
    own: Vec<Arg<'a>>,
) -> Result<Command<'a>, AllocError> {
    let searching = vec![in alloc; cache(alloc), progress(alloc)]?;
    reader(alloc, texts, problem)?.args(own)?.args(searching)
}

/// Makes `--lines`, whose default is `USUAL_LINES`.
pub(crate) fn lines<'a>(alloc: Global) -> Arg<'a> {
    let numbers = value_parser!(u64).range(FEWEST_LINES as i64..=MOST_LINES as i64);
    let help = "Write at most K lines of the solution, 1 to 1000000 [default: 1000]";
    option(alloc, "lines", "K", numbers, help)
}

/// Returns the most lines to write, `FEWEST_LINES` to `MOST_LINES`: as `--lines` says, or else `USUAL_LINES`.
pub(crate) fn lines_of(matches: &ArgMatches<'_>) -> usize
    ensures value { result ≡ lines_option (options_of matches.now) }
    ensures some { 1 ≤ result }
    ensures few { result ≤ 1_000_000 }
{
    count_option(matches, "lines", FEWEST_LINES, MOST_LINES).unwrap_or(USUAL_LINES as u64) as usize
}

/// Returns the number of moves of `-n`, which the parser requires.
pub(crate) fn moves_of(matches: &ArgMatches<'_>) -> MoveCount
    ensures { result.value ≡ moves_within (options_of matches.now) }
{
    moves_option(matches, "n").unwrap_or(MoveCount::FEWEST)
}

/// Makes the flag `--json`.
pub(crate) fn json<'a>(alloc: Global, help: &'a str) -> Arg<'a> {
    flag(alloc, "json", help)
}

/// Makes the flag `--progress`.
fn progress<'a>(alloc: Global) -> Arg<'a> {
    flag(
        alloc,
        "progress",
        "Show progress on standard error even without a terminal",
    )
}
