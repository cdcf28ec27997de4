//! The arguments of the command `mend`.
ghost use Rattle.std.specs.Prelude.{◌≡◌, ◌≤◌, IfSome, None, codes};
ghost use Rattle.std.proofs.Props.{props};
ghost use Rattle.dw_arguments.specs.Numbers.{part_named};

use crate::desk_options::{json, moves_of, searcher};
use crate::options::{
    CommandTexts, flag_option, memo, one_problem, positions, positions_option, within,
};
use crate::part::{part, part_option};
use clap::{ArgMatches, Command};
use dw_stipulation::MoveCount;
use std::alloc::{AllocError, Global};

/// The request of the command `mend`.
#[derive(Clone, Copy)]
pub struct MendArgs {
    /// The number of moves within which a neighbour must be sound.
    pub n: MoveCount,
    /// The most positions to expand for each neighbour, `FEWEST_POSITIONS` to `MOST_POSITIONS`; `None` sets no bound.
    pub each: Option<u64>,
    /// Which part of the neighbours is looked at, from 1 to `parts`.
    pub part: u32,
    /// How many parts there are, at most 1,000,000.
    pub parts: u32,
    /// Whether lines of JSON are written.
    pub json: bool,
    pub ghost some_positions: { IfSome each (λ positions. 1 ≤ positions) } by { Prim.hlevel props },
    pub ghost few_positions: { IfSome each (λ positions. positions ≤ 1_000_000_000_000) } by { Prim.hlevel props },
    pub ghost some_part: { 1 ≤ part },
    pub ghost among_parts: { part ≤ parts },
    pub ghost few_parts: { parts ≤ 1_000_000 },
}

const ABOUT: &str = "Finds sound problems that are one change away from a problem.";

const EXAMPLES: &str = "\
A change removes a piece, adds one, moves one to an empty square, or turns a man into a king or a
king into a man. Each sound problem is a line with its change and its first move. With --each a
position that takes too long stays undecided. With --part several runs share the work.

Examples:
  echo W:W27,32:B18 | dw-desk mend -n 2
  dw-desk mend -n 2 --problem 3 --part 1/4 examples/problems.fen";

/// Returns the command with its arguments.
pub(crate) fn mend_command<'a>(alloc: Global) -> Result<Command<'a>, AllocError> {
    let help = "Look for sound problems in N moves of the side to move, 1 to 20";
    let undecided =
        "Leave a position undecided after L positions, 1 to 1000000000000 [default: never]";
    let own = vec![in alloc;
        within(alloc, help).required(true),
        positions(alloc, "each", undecided),
        part(alloc),
        json(
            alloc,
            "Write a line of JSON for each sound position, and one at the end"
        ),
        memo(alloc, "deep"),
    ]?;
    let texts = CommandTexts::new("mend", ABOUT, EXAMPLES);
    let problem = one_problem(alloc, "Change problem I, 1 to 1000000 [default: 1]");
    searcher(alloc, texts, problem, own)
}

impl MendArgs {
    ghost use Rattle.dw_arguments.specs.DeskCommands.{AsksMend};
    ghost use Rattle.dw_arguments.specs.Options.{options_of, text_option};

    /// Returns the request of the options, or `None` if the part is not valid.
    pub(crate) fn new(matches: &ArgMatches<'_>) -> Option<Self>
        ensures asks { IfSome result (λ query. AsksMend (options_of matches.now) query) }
        ensures none { result ≡ None → part_named (text_option (options_of matches.now) (codes "part")) ≡ None }
    {
        let (part, parts) = part_option(matches)?;
        Some(MendArgs {
            n: moves_of(matches),
            each: positions_option(matches, "each"),
            part,
            parts,
            json: flag_option(matches, "json"),
        })
    }
}
