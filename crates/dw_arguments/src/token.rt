//! The arguments of the command `token`.
use crate::options::{CommandTexts, one_problem, option, reader};
use clap::builder::ValueParser;
use clap::{Arg, Command};
use std::alloc::{AllocError, Global};

const ABOUT: &str = "Writes the token of a line, so that `dw list --after` can continue after it.";

const EXAMPLES: &str = "\
This continues an interrupted list after its last whole line.

Examples:
  echo W:W27,32,38:B18 | dw-desk token --line '1. 32-28 18-22 2. 27x18'
  dw-desk token --problem 3 --line '1. 32-28 18-22 2. 27x18' examples/problems.fen";

/// Returns the command with its arguments.
pub(crate) fn token_command<'a>(alloc: Global) -> Result<Command<'a>, AllocError> {
    let own = line(alloc);
    let problem = one_problem(
        alloc,
        "The line is one of problem I, 1 to 1000000 [default: 1]",
    );
    let texts = CommandTexts::new("token", ABOUT, EXAMPLES);
    reader(alloc, texts, problem)?.arg(own)
}

fn line<'a>(alloc: Global) -> Arg<'a> {
    let help = "The line: moves without variations, the last one the attacker's";
    option(alloc, "line", "TEXT", ValueParser::string(), help).required(true)
}
