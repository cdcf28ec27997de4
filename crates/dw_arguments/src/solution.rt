//! The arguments of the command `solution`.
ghost use Rattle.std.specs.Prelude.{◌≤◌};

use crate::desk_options::{JSON_HELP, json, lines, lines_of, searcher};
use crate::options::{CommandTexts, flag_option, memo, most, moves_option, within};
use crate::portion::problem;
use clap::{ArgMatches, Command};
use dw_stipulation::MoveCount;
use std::alloc::{AllocError, Global};

/// The request of the command `solution`.
#[derive(Clone, Copy)]
pub struct SolutionArgs {
    /// The number of moves within which a win is looked for.
    pub moves: MoveCount,
    /// Whether `moves` is only the most, and the least number of moves with a win is looked for.
    pub is_least: bool,
    /// The most lines to write of each solution, 1 to 1,000,000.
    pub lines: usize,
    /// Whether a line of JSON is written for each problem.
    pub json: bool,
    pub ghost some_lines: { 1 ≤ lines },
    pub ghost few_lines: { lines ≤ 1_000_000 },
}

const WITHIN_HELP: &str = "Show the win in N moves of the side to move, 1 to 20";

const MOST_HELP: &str = "Show the win in the least number of moves up to N, 1 to 20";

const ABOUT: &str = "Writes each problem as a game of a PDN file, with its solution.";

const EXAMPLES: &str = "\
The solution is the tree of the first lines of `dw list -n N`: the first move is the main play, and
the others follow in parentheses. The verdict comes first, as {dual in 2}, and {more} comes last if
there are other lines. With --pdn a game keeps its tags. -n or --most is required. `dw-desk check`
can read the game.

Examples:
  echo W:W27,32:B18 | dw-desk solution -n 2
  dw-desk solution -n 2 --lines 2 --problem 1-3 examples/problems.fen
  dw-desk solution --most 6 --pdn examples/solutions.pdn";

/// Returns the command with its arguments.
pub(crate) fn solution_command<'a>(alloc: Global) -> Result<Command<'a>, AllocError> {
    let within = within(alloc, WITHIN_HELP)
        .required_unless_present("most")?
        .conflicts_with("most")?;
    let own = vec![in alloc;
        within,
        most(alloc, MOST_HELP),
        lines(alloc),
        json(alloc, JSON_HELP),
        memo(alloc, "deep"),
    ]?;
    let texts = CommandTexts::new("solution", ABOUT, EXAMPLES);
    searcher(alloc, texts, problem(alloc), own)
}

impl SolutionArgs {
    ghost use Rattle.dw_arguments.specs.DeskCommands.{AsksSolution};
    ghost use Rattle.dw_arguments.specs.Options.{options_of};

    /// Returns the request of the options.
    pub(crate) fn new(matches: &ArgMatches<'_>) -> Self
        ensures { AsksSolution (options_of matches.now) result }
    {
        let most = moves_option(matches, "most");
        SolutionArgs {
            moves: moves_option(matches, "n")
                .or(most)
                .unwrap_or(MoveCount::FEWEST),
            is_least: most.is_some(),
            lines: lines_of(matches),
            json: flag_option(matches, "json"),
        }
    }
}
