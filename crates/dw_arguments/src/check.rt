//! The arguments of the command `check`.
use crate::desk_options::{JSON_HELP, json, searcher};
use crate::options::{CommandTexts, flag, flag_option, memo, most, moves_option, within};
use crate::portion::problem;
use clap::{ArgMatches, Command};
use dw_stipulation::MoveCount;
use std::alloc::{AllocError, Global};

/// The request of the command `check`.
#[derive(Clone, Copy)]
pub struct CheckArgs {
    /// The number of moves within which a win is looked for; `None` stands for as many as the solution has.
    pub moves: Option<MoveCount>,
    /// Whether `moves` is only the most, and the least number of moves with a win is looked for.
    pub is_least: bool,
    /// Whether problems without remarks are left out.
    pub faults: bool,
    /// Whether a line of JSON is written for each problem.
    pub json: bool,
}

const WITHIN_HELP: &str =
    "Look for a win in N moves of the side to move, 1 to 20 [default: as in the solution]";

const MOST_HELP: &str = "Check within the least number of moves with a win, up to N, 1 to 20";

const FAULTS_HELP: &str = "Leave out problems without remarks and refusals";

const ABOUT: &str =
    "Compares the solution in each game of a PDN file with all wins: wrong moves, missing moves.";

const EXAMPLES: &str = "\
A solution is the moves after the tags of a game, with variations and replies in parentheses. Each
remark is a line:
  fails  a move of the attacker that does not win, with the reply that refutes it
  also   winning moves that the solution lacks
  open   replies that the solution lacks
  ends   the solution ends here, but the game is not over: the attacker wins in K more moves
The last line says whether the solution holds in N moves, and counts the remarks of each kind. A
solution holds if nothing fails and nothing ends. A try in parentheses counts as a move that fails.
With --most, N is the least number of moves with a win, or that of --most if there is none. Without
-n and --most, it is the number of the attacker's moves in the longest line of the solution.
--faults shows only problems with a remark or a refusal.

Examples:
  dw-desk check examples/solutions.pdn
  dw-desk check -n 3 --problem 2 examples/solutions.pdn
  dw-desk check --most 6 examples/solutions.pdn
  dw-desk check --faults examples/solutions.pdn";

/// Returns the command with its arguments.
pub(crate) fn check_command<'a>(alloc: Global) -> Result<Command<'a>, AllocError> {
    let within = within(alloc, WITHIN_HELP).conflicts_with("most")?;
    let own = vec![in alloc;
        within,
        most(alloc, MOST_HELP),
        flag(alloc, "faults", FAULTS_HELP),
        json(alloc, JSON_HELP),
        memo(alloc, "deep"),
    ]?;
    let texts = CommandTexts::new("check", ABOUT, EXAMPLES);
    searcher(alloc, texts, problem(alloc), own)
}

impl CheckArgs {
    ghost use Rattle.dw_arguments.specs.DeskCommands.{AsksCheck};
    ghost use Rattle.dw_arguments.specs.Options.{options_of};

    /// Returns the request of the options.
    pub(crate) fn new(matches: &ArgMatches<'_>) -> Self
        ensures { AsksCheck (options_of matches.now) result }
    {
        let most = moves_option(matches, "most");
        CheckArgs {
            moves: moves_option(matches, "n").or(most),
            is_least: most.is_some(),
            faults: flag_option(matches, "faults"),
            json: flag_option(matches, "json"),
        }
    }
}
