//! The commands of `dw-desk`, and the requests that they parse to.
ghost use Rattle.std.specs.Prelude.{◌≡◌};
ghost use Rattle.clap.specs.Words.{subcommand_rows_of};
ghost use Rattle.dw_arguments.specs.DeskCommands.{ForPart, ForPortion, IsParsed, IsParsedFrom, IsMend, IsMoves};
ghost use Rattle.dw_arguments.specs.DeskCommands.{ForReading, IsOneProblem, IsSame, IsToken, Reads, Searches};
ghost use Rattle.dw_arguments.specs.Options.{options_of};

use crate::certify::{CertifyArgs, certify_command};
use crate::check::{CheckArgs, check_command};
use crate::choices::{BoardSize, MemoKind};
use crate::desk::{DeskArgs, Task};
use crate::error::CliError;
use crate::find::{FindArgs, find_command};
use crate::mend::{MendArgs, mend_command};
use crate::moves::{MovesArgs, moves_command};
use crate::options::{
    DEFAULT_CAPACITY, MIN_CAPACITY, VERSION, capacity_option, flag_option, form_option, text_option,
};
use crate::page::{PageArgs, page_command};
use crate::part::NO_PART;
use crate::portion::{NO_PORTION, Portion};
use crate::same::{SameArgs, same_command};
use crate::solution::{SolutionArgs, solution_command};
use crate::token::token_command;
use clap::{ArgMatches, Command};
use std::alloc::{AllocError, Global};

/// The message for arguments without a command.
const NO_COMMAND: &str = "dw-desk: no command\n";

const ABOUT: &str =
    "Finds, checks, improves and prints problems of draughts, for composers, editors and judges.";

const EXAMPLES: &str = "\
Problems come from FILE or standard input: one FEN text a line, such as W:W27,45:B16, or with
--pdn the tags of a PDN file, such as [FEN \"W:W27,45:B16\"]. At a terminal, end them with Ctrl-D.
`dw-desk COMMAND --help` explains a command, with examples.

Examples:
  dw-desk find --most 6 examples/problems.fen
  dw-desk check examples/solutions.pdn

Exit status: 0 done; 1 a problem, solution or line was refused, a solution does not hold, or a
problem is repeated, undecided or missing; 2 wrong arguments; 3 the program was stopped, or a file
could not be read or written.";

/// The commands of `dw-desk`.
#[derive(Clone, Copy)]
enum DeskCommand {
    Find,
    Check,
    Solution,
    Moves,
    Page,
    Same,
    Certify,
    Mend,
    Token,
}

/// Returns the commands that `dw-desk` knows, with their options and their help.
///
/// # Errors
///
/// Memory was refused.
pub fn command<'a>(alloc: Global) -> Result<Command<'a>, AllocError> {
    let commands = subcommands(alloc)?;
    Command::new(alloc, "dw-desk")
        .bin_name("dw-desk")?
        .version(VERSION)
        .about(ABOUT)
        .after_help(EXAMPLES)
        .subcommand_required(true)
        .arg_required_else_help(true)
        .subcommands(commands)
}

fn subcommands<'a>(alloc: Global) -> Result<Vec<Command<'a>>, AllocError> {
    let mut commands = Vec::new(alloc);
    for command in [
        DeskCommand::Find,
        DeskCommand::Check,
        DeskCommand::Solution,
        DeskCommand::Moves,
        DeskCommand::Page,
        DeskCommand::Same,
        DeskCommand::Certify,
        DeskCommand::Mend,
        DeskCommand::Token,
    ] {
        commands.push(subcommand(alloc, command)?)?;
    }
    Ok(commands)
}

/// Returns a command with its arguments.
fn subcommand<'a>(alloc: Global, command: DeskCommand) -> Result<Command<'a>, AllocError> {
    match command {
        DeskCommand::Find => find_command(alloc),
        DeskCommand::Check => check_command(alloc),
        DeskCommand::Solution => solution_command(alloc),
        DeskCommand::Moves => moves_command(alloc),
        DeskCommand::Page => page_command(alloc),
        DeskCommand::Same => same_command(alloc),
        DeskCommand::Certify => certify_command(alloc),
        DeskCommand::Mend => mend_command(alloc),
        DeskCommand::Token => token_command(alloc),
    }
}

impl<'a> DeskArgs<'a> {
    ghost use Rattle.clap.specs.declared.parser.matches.ArgMatches.{ArgMatches};
    ghost use Rattle.std.specs.Prelude.{IfOk, Ok};

    /// Parses the words of a command line, the program's name first.
    ///
    /// # Errors
    ///
    /// The arguments are wrong or ask for help, or memory was refused.
    pub fn parse(alloc: Global, words: &'a [String]) -> Result<Self, CliError>
        ensures { IfOk result (λ args. (matches : ArgMatches) × IsParsed (subcommand_rows_of matches) (Ok args)) }
    {
        match command(alloc)?.try_get_matches_from(words) {
            Ok(matches) => match DeskArgs::requested(&matches) {
                Ok(args) => Ok(args),
                Err(text) => Err(CliError::Refused(text)),
            },
            Err(error) => Err(CliError::of(alloc, &error)),
        }
    }

    /// Returns the request of parsed arguments.
    ///
    /// # Errors
    ///
    /// The message for arguments that are no command, as a text that ends a line.
    pub fn requested(matches: &ArgMatches<'a>) -> Result<Self, &'static str>
        ensures { IsParsed (subcommand_rows_of matches.now) result }
    {
        match matches.subcommand() {
            Some((name, matches)) => from_matches(name, matches),
            None => Err(NO_COMMAND),
        }
    }
}

/// Returns the request of the command of this name.
fn from_matches<'a>(name: &str, matches: &ArgMatches<'a>) -> Result<DeskArgs<'a>, &'static str>
    ensures { IsParsedFrom name.now (options_of matches.now) result }
{
    match name {
        "find" => for_portion(matches, Task::Find(FindArgs::new(matches))),
        "check" => for_portion(matches, Task::Check(CheckArgs::new(matches))),
        "solution" => for_portion(matches, Task::Solution(SolutionArgs::new(matches))),
        "moves" => for_moves(matches),
        "page" => for_portion(matches, Task::Page(PageArgs::new(matches))),
        "same" => for_same(matches),
        "certify" => Ok(for_one(matches, Task::Certify(CertifyArgs::new(matches)))),
        "mend" => for_mend(matches),
        "token" => Ok(for_line(matches)),
        _ => Err(NO_COMMAND),
    }
}

/// Returns the request of a command that searches a portion of the problems.
fn for_portion<'a>(matches: &ArgMatches<'a>, task: Task<'a>) -> Result<DeskArgs<'a>, &'static str>
    ensures { ForPortion (options_of matches.now) (λ options query. query ≡ task.entry) result }
{
    match Portion::named(text_option(matches, "problem")) {
        Some(portion) => Ok(searched(matches, task, portion)),
        None => Err(NO_PORTION),
    }
}

/// Returns the request of a command that searches one problem, the first if no other is named.
fn for_one<'a>(matches: &ArgMatches<'a>, task: Task<'a>) -> DeskArgs<'a>
    ensures searches { Searches (options_of matches.now) result }
    ensures one { IsOneProblem (options_of matches.now) result.portion }
    ensures task { result.task ≡ task.entry }
{
    searched(matches, task, Portion::of_one(matches))
}

/// Returns the request of the command `moves`.
fn for_moves<'a>(matches: &ArgMatches<'a>) -> Result<DeskArgs<'a>, &'static str>
    ensures { ForPart (options_of matches.now) IsMoves result }
{
    match MovesArgs::new(matches) {
        Some(query) => Ok(for_one(matches, Task::Moves(query))),
        None => Err(NO_PART),
    }
}

/// Returns the request of the command `mend`.
fn for_mend<'a>(matches: &ArgMatches<'a>) -> Result<DeskArgs<'a>, &'static str>
    ensures { ForPart (options_of matches.now) IsMend result }
{
    match MendArgs::new(matches) {
        Some(query) => Ok(for_one(matches, Task::Mend(query))),
        None => Err(NO_PART),
    }
}

/// Returns the request of the command `same`, which does not search.
fn for_same<'a>(matches: &ArgMatches<'a>) -> Result<DeskArgs<'a>, &'static str>
    ensures { ForReading (options_of matches.now) IsSame result }
{
    match Portion::named(text_option(matches, "problem")) {
        Some(portion) => Ok(read(matches, Task::Same(SameArgs::new(matches)), portion)),
        None => Err(NO_PORTION),
    }
}

/// Returns the request of the command `token`, which does not search.
fn for_line<'a>(matches: &ArgMatches<'a>) -> DeskArgs<'a>
    ensures reads { Reads (options_of matches.now) result }
    ensures one { IsOneProblem (options_of matches.now) result.portion }
    ensures line { IsToken (options_of matches.now) result.task }
{
    let line = text_option(matches, "line").unwrap_or("");
    read(matches, Task::Token { line }, Portion::of_one(matches))
}

/// Returns the request of a command that searches.
fn searched<'a>(matches: &ArgMatches<'a>, task: Task<'a>, portion: Portion) -> DeskArgs<'a>
    ensures searches { Searches (options_of matches.now) result }
    ensures portion { result.portion ≡ portion }
    ensures task { result.task ≡ task.entry }
{
    let mut args = read(matches, task, portion);
    args.memo = MemoKind::named(text_option(matches, "memo"));
    args.cache = capacity_option(matches).unwrap_or(DEFAULT_CAPACITY);
    args.progress = flag_option(matches, "progress");
    args
}

/// Returns the request of a command that only reads.
fn read<'a>(matches: &ArgMatches<'a>, task: Task<'a>, portion: Portion) -> DeskArgs<'a>
    ensures reads { Reads (options_of matches.now) result }
    ensures portion { result.portion ≡ portion }
    ensures task { result.task ≡ task.entry }
{
    DeskArgs {
        task,
        board: BoardSize::named(text_option(matches, "board")),
        form: form_option(matches),
        portion,
        memo: MemoKind::None,
        cache: MIN_CAPACITY,
        progress: false,
        file: text_option(matches, "FILE"),
    }
}
