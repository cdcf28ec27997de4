//! The arguments of the command `moves`.
ghost use Rattle.std.specs.Prelude.{◌≡◌, ◌≤◌, IfSome, None, codes};
ghost use Rattle.dw_arguments.specs.Numbers.{part_named};

use crate::desk_options::{json, moves_of, searcher};
use crate::options::{CommandTexts, flag_option, memo, one_problem, within};
use crate::part::{part, part_option};
use clap::{ArgMatches, Command};
use dw_stipulation::MoveCount;
use std::alloc::{AllocError, Global};

/// The request of the command `moves`.
#[derive(Clone, Copy)]
pub struct MovesArgs {
    /// The number of moves within which a win is looked for.
    pub n: MoveCount,
    /// Which part of the moves is looked at, from 1 to `parts`.
    pub part: u32,
    /// How many parts there are, at most 1,000,000.
    pub parts: u32,
    /// Whether a line of JSON is written.
    pub json: bool,
    pub ghost some_part: { 1 ≤ part },
    pub ghost among_parts: { part ≤ parts },
    pub ghost few_parts: { parts ≤ 1_000_000 },
}

const ABOUT: &str =
    "Shows what each first move of a problem does: how soon it wins, or which replies refute it.";

const EXAMPLES: &str = "\
Each legal move is a line with the least number of moves, up to N, in which it wins, or with all
replies that refute it. The last line counts the winning moves. With --part several runs share a
problem that takes long.

Examples:
  echo W:W27,32:B18 | dw-desk moves -n 2
  dw-desk moves -n 2 --problem 3 --part 1/4 examples/problems.fen";

/// Returns the command with its arguments.
pub(crate) fn moves_command<'a>(alloc: Global) -> Result<Command<'a>, AllocError> {
    let help = "Look for a win in N moves of the side to move, 1 to 20";
    let own = vec![in alloc;
        within(alloc, help).required(true),
        part(alloc),
        json(alloc, "Write one line of JSON"),
        memo(alloc, "deep"),
    ]?;
    let texts = CommandTexts::new("moves", ABOUT, EXAMPLES);
    let problem = one_problem(alloc, "Look at problem I, 1 to 1000000 [default: 1]");
    searcher(alloc, texts, problem, own)
}

impl MovesArgs {
    ghost use Rattle.dw_arguments.specs.DeskCommands.{AsksMoves};
    ghost use Rattle.dw_arguments.specs.Options.{options_of, text_option};

    /// Returns the request of the options, or `None` if the part is not valid.
    pub(crate) fn new(matches: &ArgMatches<'_>) -> Option<Self>
        ensures asks { IfSome result (λ query. AsksMoves (options_of matches.now) query) }
        ensures none { result ≡ None → part_named (text_option (options_of matches.now) (codes "part")) ≡ None }
    {
        let (part, parts) = part_option(matches)?;
        Some(MovesArgs {
            n: moves_of(matches),
            part,
            parts,
            json: flag_option(matches, "json"),
        })
    }
}
