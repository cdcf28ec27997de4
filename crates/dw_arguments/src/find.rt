//! The arguments of the command `find`.
ghost use Rattle.std.specs.Prelude.{◌≡◌, ◌≤◌, IfSome, codes};
ghost use Rattle.std.proofs.Props.{props};
ghost use Rattle.dw_arguments.specs.Options.{number_option, options_of};

use crate::desk_options::{JSON_HELP, json, searcher};
use crate::options::{
    CommandTexts, flag, flag_option, memo, most, moves_option, option, positions, positions_option,
    within,
};
use crate::portion::problem;
use clap::{Arg, ArgMatches, Command, value_parser};
use dw_stipulation::MoveCount;
use std::alloc::{AllocError, Global};

/// The request of the command `find`.
#[derive(Clone, Copy)]
pub struct FindArgs {
    /// The number of moves within which a win is looked for.
    pub moves: MoveCount,
    /// Whether `moves` is only the most, and each problem is judged at the least number of moves with a win.
    pub is_least: bool,
    /// The most positions to expand for each problem until it is known whether there is a win, `FEWEST_POSITIONS` to
    /// `MOST_POSITIONS`; `None` sets no bound.
    pub each: Option<u64>,
    /// Whether a line of JSON is written for each problem.
    pub json: bool,
    /// Whether this line has the moves of the solution, too.
    pub solution: bool,
    /// How many moves more a first move may take that wins later, 1 to 19; `None` asks for none of these moves.
    pub later: Option<u8>,
    pub ghost some_positions: { IfSome each (λ positions. 1 ≤ positions) } by { Prim.hlevel props },
    pub ghost few_positions: { IfSome each (λ positions. positions ≤ 1_000_000_000_000) } by { Prim.hlevel props },
}

/// The fewest moves that a later win may take more than the keys.
const FEWEST_LATER: u8 = 1;

/// The most moves that a later win may take more than the keys.
const MOST_LATER: u8 = 19;

const WITHIN_HELP: &str = "Judge each problem at N moves of the side to move, 1 to 20";

const MOST_HELP: &str =
    "Look for a win in at most N moves of the side to move, 1 to 20 [default: 20]";

const EACH_HELP: &str =
    "Go to the next problem after L positions, 1 to 1000000000000 [default: never]";

const SOLUTION_HELP: &str = "With --json, also write the moves of the solution, at most 1000 lines";

const LATER_HELP: &str = "Also list the first moves that win in up to K moves more, 1 to 19";

const ABOUT: &str = "Finds the number of moves in which each problem is won, and judges it.";

const EXAMPLES: &str = "\
The output is that of `dw judge -n N` for the least N with a win, or for --most if there is none.
With -n it is that for exactly this N. With --each a problem that takes too long stays undecided.
The answer is then the greatest number of moves that is known to be too few. The cache starts empty
for each problem. With --later a second winning move shows that a sound problem only hides:
`later 27-22 in 5` for a first move that is no key and wins in 5 moves.

Examples:
  echo W:W10,16,48:B13 | dw-desk find
  dw-desk find --most 6 --each 1000000 examples/problems.fen
  dw-desk find --later 2 --problem 1-3 examples/problems.fen
  dw-desk find --json --problem 1-3 examples/problems.fen";

/// Returns the command with its arguments.
pub(crate) fn find_command<'a>(alloc: Global) -> Result<Command<'a>, AllocError> {
    let within = within(alloc, WITHIN_HELP).conflicts_with("most")?;
    let solution = flag(alloc, "solution", SOLUTION_HELP).requires_arg("json")?;
    let own = vec![in alloc;
        within,
        most(alloc, MOST_HELP),
        positions(alloc, "each", EACH_HELP),
        later(alloc),
        json(alloc, JSON_HELP),
        solution,
        memo(alloc, "deep"),
    ]?;
    let texts = CommandTexts::new("find", ABOUT, EXAMPLES);
    searcher(alloc, texts, problem(alloc), own)
}

/// Makes `--later`, `FEWEST_LATER` to `MOST_LATER`.
fn later<'a>(alloc: Global) -> Arg<'a> {
    let numbers = value_parser!(u8).range(i64::from(FEWEST_LATER)..=i64::from(MOST_LATER));
    option(alloc, "later", "K", numbers, LATER_HELP)
}

/// Returns how many moves more a later win may take, `FEWEST_LATER` to `MOST_LATER`, if `--later` is given.
fn later_option(matches: &ArgMatches<'_>) -> Option<u8>
    ensures { result ≡ number_option 1 19 (options_of matches.now) (codes "later") }
{
    let more = matches.get_one::<u8>("later")?;
    (FEWEST_LATER..=MOST_LATER).contains(&more).then_some(more)
}

impl FindArgs {
    ghost use Rattle.dw_arguments.specs.DeskCommands.{AsksFind};

    /// Returns the request of the options.
    pub(crate) fn new(matches: &ArgMatches<'_>) -> Self
        ensures { AsksFind (options_of matches.now) result }
    {
        let exactly = moves_option(matches, "n");
        FindArgs {
            moves: exactly
                .or(moves_option(matches, "most"))
                .unwrap_or(MoveCount::MOST),
            is_least: exactly.is_none(),
            each: positions_option(matches, "each"),
            json: flag_option(matches, "json"),
            solution: flag_option(matches, "solution"),
            later: later_option(matches),
        }
    }
}
