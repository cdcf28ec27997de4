//! The arguments of the command `certify`.
use crate::desk_options::{moves_of, searcher};
use crate::options::{CommandTexts, memo, one_problem, within};
use clap::{ArgMatches, Command};
use dw_stipulation::MoveCount;
use std::alloc::{AllocError, Global};

/// The request of the command `certify`.
#[derive(Clone, Copy)]
pub struct CertifyArgs {
    /// The number of moves within which there is a win or none.
    pub n: MoveCount,
}

const ABOUT: &str =
    "Writes a certificate that a problem is won or not, for anyone to check without a search.";

const EXAMPLES: &str = "\
For a win, each line has a position and the number of moves in which it is won. After one move
there, no reply is left, or every reply leads to the position of another line, won in fewer moves.
For no win, each line has a position and a number of moves in which it is not won. After each move
there, a reply is left. If the number is above 1, one such reply leads to the position of another
line, not won in the moves left. The cache must hold everything that the search finds: --memo lru
does, up to --cache positions. checks/certificate.py (installed as dw-certificate) checks it.

Examples:
  echo W:W27,45:B16 | dw-desk certify -n 2
  dw-desk certify -n 3 --problem 4 examples/problems.fen >certificate.txt";

/// Returns the command with its arguments.
pub(crate) fn certify_command<'a>(alloc: Global) -> Result<Command<'a>, AllocError> {
    let help = "Certify a win in N moves of the side to move, 1 to 20, or that there is none";
    let own = vec![in alloc; within(alloc, help).required(true), memo(alloc, "lru")]?;
    let texts = CommandTexts::new("certify", ABOUT, EXAMPLES);
    let problem = one_problem(alloc, "Certify problem I, 1 to 1000000 [default: 1]");
    searcher(alloc, texts, problem, own)
}

impl CertifyArgs {
    ghost use Rattle.dw_arguments.specs.DeskCommands.{AsksCertify};
    ghost use Rattle.dw_arguments.specs.Options.{options_of};

    /// Returns the request of the options.
    pub(crate) fn new(matches: &ArgMatches<'_>) -> Self
        ensures { AsksCertify (options_of matches.now) result }
    {
        CertifyArgs {
            n: moves_of(matches),
        }
    }
}
