//! The command line of `dw`: its commands, their options, and their requests.
ghost use Rattle.std.specs.Prelude.{◌≡◌, ◌≤◌, IfSome, codes, option_map};
ghost use Rattle.std.specs.Option.{option_or};
ghost use Rattle.std.proofs.Props.{props};
ghost use Rattle.dw_arguments.specs.Options.{flag_option, number_option, options_of, text_option};

use crate::choices::{BoardSize, MemoKind};
use crate::error::CliError;
use crate::options::{
    CommandTexts, DEFAULT_CAPACITY, FIRST_PROBLEM, MIN_CAPACITY, MOST_POSITIONS, VERSION, cache,
    capacity_option, count_option, flag, flag_option, form_option, memo, moves_option, one_problem,
    option, positions, positions_option, problem_option, reader, text_option, within,
};
use clap::builder::ValueParser;
use clap::{Arg, ArgMatches, Command, value_parser};
use dw_notation::Form;
use dw_stipulation::MoveCount;
use std::alloc::{AllocError, Global};

/// The commands of `dw`.
#[derive(Clone, Copy, Debug, PartialEq, Eq)]
pub enum ReportCommand {
    /// The position is shown, as a diagram.
    Show,
    /// The legal moves are listed.
    Moves,
    /// The verdict is given.
    Judge,
    /// The lines of the forced win are listed.
    List,
}

/// The request that the arguments of `dw` make.
#[derive(Clone, Copy)]
pub struct ReportArgs<'a> {
    pub command: ReportCommand,
    pub form: Form,
    /// Whether `show` and `moves` write rows of JSON.
    pub json: bool,
    /// The number of the one problem to report, `FIRST_PROBLEM` to `MAX_PROBLEMS`; `None` stands for all.
    pub only: Option<u32>,
    pub board: BoardSize,
    /// The number of moves within which a win is looked for.
    pub n: MoveCount,
    /// The most positions to expand, `FEWEST_POSITIONS` to `MOST_POSITIONS`.
    pub positions: u64,
    pub memo: MemoKind,
    /// The most positions that the memo keeps, `MIN_CAPACITY` to `MAX_CAPACITY`.
    pub cache: usize,
    /// The most lines to list, `FEWEST_LINES` to `MOST_LINES`.
    pub lines: u64,
    /// The token of the line after which the list begins, if it does not begin at the first line.
    pub after: Option<&'a str>,
    /// The file to read; `None` stands for standard input.
    pub file: Option<&'a str>,
    pub ghost some_number: { IfSome only (λ number. 1 ≤ number) } by { Prim.hlevel props },
    pub ghost few_number: { IfSome only (λ number. number ≤ 1_000_000) } by { Prim.hlevel props },
    pub ghost some_positions: { 1 ≤ positions },
    pub ghost few_positions: { positions ≤ 1_000_000_000_000 },
    pub ghost some_kept: { 1 ≤ cache },
    pub ghost few_kept: { cache ≤ 4_000_000 },
    pub ghost some_lines: { 1 ≤ lines },
    pub ghost few_lines: { lines ≤ 1_000_000_000 },
}

/// The fewest lines that a run may list.
const FEWEST_LINES: u64 = 1;

/// The greatest number of lines to list, which is also the default.
const MOST_LINES: u64 = 1_000_000_000;

/// The message for arguments without a command.
const NO_COMMAND: &str = "dw: no command\n";

const PROBLEM_HELP: &str = "Report on problem I only, 1 to 1000000 [default: all]";

const WITHIN_HELP: &str = "Look for a win in N moves of the side to move, 1 to 20";

const POSITIONS_HELP: &str =
    "Stop the run after L expanded positions, 1 to 1000000000000 [default: 1000000000000]";

const JSON_HELP: &str = "Write one line of JSON for each problem";

const ABOUT: &str =
    "Solves problems of international draughts: verdicts, and every line of a forced win.";

const EXAMPLES: &str = "\
Problems come from FILE or standard input: one FEN text a line, such as W:W27,45:B16, or with
--pdn the tags of a PDN file, such as [FEN \"W:W27,45:B16\"]. At a terminal, end them with Ctrl-D.
`dw COMMAND --help` explains a command, with examples.

Examples:
  dw judge -n 2 examples/problems.fen
  dw list -n 2 --problem 1 examples/problems.fen

Exit status: 0 done; 1 a problem or a token was refused, or a problem is missing; 2 wrong
arguments; 3 the program was stopped, or a file could not be read or written.";

const SHOW_ABOUT: &str = "Shows each problem's position as a diagram.";

const SHOW_EXAMPLES: &str = "\
In a diagram w and b are men, W and B kings, and a point is an empty square.

Examples:
  echo W:W27,45:B16 | dw show
  dw show --json --pdn examples/games.pdn";

const MOVES_ABOUT: &str = "Lists each problem's legal moves, each with the position after it.";

const MOVES_EXAMPLES: &str = "\
A quiet move is written 32-28 and a capture 32x23, or with all its squares if two captures
have the same start and end. The last line counts the moves and the pieces that each takes.

Examples:
  echo W:WK46:B28 | dw moves
  dw moves --json --problem 2 examples/problems.fen";

const JUDGE_ABOUT: &str =
    "Judges each problem: can the side to move force a win, and is the problem sound?";

const JUDGE_EXAMPLES: &str = "\
The side to move wins if the other side has no legal move left. The verdict is one of these:
  unsolvable  no first move wins in N moves
  cooked      several first moves win in N moves, or fewer moves are enough
  dual        one first move wins, and later there is a choice, also of a king's last square;
              the first such place is named
  sound       one first move wins, and one move at each later turn
The tries follow: first moves that fail in N moves against exactly one reply.

N counts all moves to the end, when the other side has no legal move. `dw-desk find` finds it. If N
is too large, a sound problem is called cooked.

Examples:
  echo W:W27,45:B16 | dw judge -n 2
  dw judge -n 2 examples/problems.fen

The answer does not depend on --memo and --cache, only the time does. A run that reaches
--positions ends with status 3, and its output up to there is right.";

const LIST_ABOUT: &str = "Lists every line of each problem's forced win, in order.";

const LIST_EXAMPLES: &str = "\
A line is one winning continuation: the side to move makes only moves that keep the win in N
moves, and the other side makes any legal moves: 1. 45-40 16-21 2. 27x16.
The last line is `complete` with the number of lines, or `more after` with a token: with --after
the list continues after that line.

Examples:
  echo W:W27,32,38:B18 | dw list -n 2
  echo W:W27,32,38:B18 | dw list -n 2 --lines 2";

/// Returns the commands that `dw` knows, with their options and their help.
///
/// # Errors
///
/// Memory was refused.
pub fn command<'a>(alloc: Global) -> Result<Command<'a>, AllocError> {
    let commands = subcommands(alloc)?;
    Command::new(alloc, "dw")
        .version(VERSION)
        .about(ABOUT)
        .after_help(EXAMPLES)
        .subcommand_required(true)
        .arg_required_else_help(true)
        .subcommands(commands)
}

fn subcommands<'a>(alloc: Global) -> Result<Vec<Command<'a>>, AllocError> {
    let mut commands = Vec::new(alloc);
    for command in [
        ReportCommand::Show,
        ReportCommand::Moves,
        ReportCommand::Judge,
        ReportCommand::List,
    ] {
        commands.push(subcommand(alloc, command)?)?;
    }
    Ok(commands)
}

/// Returns a command with its arguments.
fn subcommand<'a>(alloc: Global, command: ReportCommand) -> Result<Command<'a>, AllocError> {
    match command {
        ReportCommand::Show | ReportCommand::Moves => rows_command(alloc, command),
        ReportCommand::Judge => searcher(alloc, command),
        ReportCommand::List => lister(alloc),
    }
}

/// Returns a command with the arguments that all commands of `dw` have.
fn base_command<'a>(alloc: Global, command: ReportCommand) -> Result<Command<'a>, AllocError> {
    reader(alloc, texts(command), one_problem(alloc, PROBLEM_HELP))
}

/// Returns a command that can write rows of JSON.
fn rows_command<'a>(alloc: Global, command: ReportCommand) -> Result<Command<'a>, AllocError> {
    let own = vec![in alloc; flag(alloc, "json", JSON_HELP)]?;
    base_command(alloc, command)?.args(own)
}

/// Returns a command that searches for wins too.
fn searcher<'a>(alloc: Global, command: ReportCommand) -> Result<Command<'a>, AllocError> {
    let arguments = searching(alloc)?;
    base_command(alloc, command)?.args(arguments)
}

/// Returns the command that lists lines as well.
fn lister<'a>(alloc: Global) -> Result<Command<'a>, AllocError> {
    let arguments = listing(alloc)?;
    searcher(alloc, ReportCommand::List)?.args(arguments)
}

/// Returns what a command says of itself.
fn texts<'a>(command: ReportCommand) -> CommandTexts<'a> {
    let (name, about, examples) = match command {
        ReportCommand::Show => ("show", SHOW_ABOUT, SHOW_EXAMPLES),
        ReportCommand::Moves => ("moves", MOVES_ABOUT, MOVES_EXAMPLES),
        ReportCommand::Judge => ("judge", JUDGE_ABOUT, JUDGE_EXAMPLES),
        ReportCommand::List => ("list", LIST_ABOUT, LIST_EXAMPLES),
    };
    CommandTexts::new(name, about, examples)
}

/// Returns the arguments of a command that searches for wins.
fn searching<'a>(alloc: Global) -> Result<Vec<Arg<'a>>, AllocError> {
    Ok(vec![in alloc;
        within(alloc, WITHIN_HELP).required(true),
        positions(alloc, "positions", POSITIONS_HELP),
        memo(alloc, "deep"),
        cache(alloc),
    ]?)
}

/// Returns the arguments of the command that lists lines.
fn listing<'a>(alloc: Global) -> Result<Vec<Arg<'a>>, AllocError> {
    Ok(vec![in alloc; lines(alloc), after(alloc)]?)
}

fn lines<'a>(alloc: Global) -> Arg<'a> {
    let numbers = value_parser!(u64).range(FEWEST_LINES as i64..=MOST_LINES as i64);
    let help = "List at most K lines, 1 to 1000000000 [default: 1000000000]";
    option(alloc, "lines", "K", numbers, help)
}

fn after<'a>(alloc: Global) -> Arg<'a> {
    let help = "Start after the line of this token, in problem 1 or that of --problem";
    option(alloc, "after", "TOKEN", ValueParser::string(), help)
}

impl<'a> ReportArgs<'a> {
    ghost use Rattle.clap.specs.Words.{subcommand_rows_of};
    ghost use Rattle.clap.specs.declared.parser.matches.ArgMatches.{ArgMatches};
    ghost use Rattle.std.specs.Prelude.{IfOk, Some};
    ghost use Rattle.dw_arguments.specs.Commands.{chosen_problem};
    ghost use Rattle.dw_arguments.specs.ReportCommands.{IsParsed, IsParsedFrom, Lists, Reads, Searches};

    /// Parses the words of a command line, the program's name first.
    ///
    /// # Errors
    ///
    /// The arguments are wrong or ask for help, or memory was refused.
    pub fn parse(alloc: Global, words: &'a [String]) -> Result<Self, CliError>
        ensures { IfOk result (λ args. (matches : ArgMatches) × IsParsed (subcommand_rows_of matches) (Some args)) }
    {
        match command(alloc)?.try_get_matches_from(words) {
            Ok(matches) => match ReportArgs::requested(&matches) {
                Some(args) => Ok(args),
                None => Err(CliError::Refused(NO_COMMAND)),
            },
            Err(error) => Err(CliError::of(alloc, &error)),
        }
    }

    /// Returns the request of parsed arguments, or `None` if they have no command.
    pub fn requested(matches: &ArgMatches<'a>) -> Option<Self>
        ensures { IsParsed (subcommand_rows_of matches.now) result }
    {
        match matches.subcommand() {
            Some((name, matches)) => ReportArgs::from_matches(name, matches),
            None => None,
        }
    }

    /// Returns the request of the command of this name.
    fn from_matches(name: &str, matches: &ArgMatches<'a>) -> Option<Self>
        ensures { IsParsedFrom name.now (options_of matches.now) result }
    {
        match name {
            "show" => Some(ReportArgs::written_by(matches, ReportCommand::Show)),
            "moves" => Some(ReportArgs::written_by(matches, ReportCommand::Moves)),
            "judge" => Some(ReportArgs::searched_by(matches, ReportCommand::Judge)),
            "list" => Some(ReportArgs::listed_by(matches)),
            _ => None,
        }
    }

    /// Returns the request of a command that can write rows of JSON.
    fn written_by(matches: &ArgMatches<'a>, command: ReportCommand) -> Self
        ensures command { result.command ≡ command }
        ensures json { result.json ≡ flag_option (options_of matches.now) (codes "json") }
        ensures only { result.only ≡ chosen_problem (options_of matches.now) }
        ensures reads { Reads (options_of matches.now) result }
    {
        let mut args = ReportArgs::read_by(matches, command);
        args.json = flag_option(matches, "json");
        args
    }

    /// Returns the request of a command that only reads problems.
    fn read_by(matches: &ArgMatches<'a>, command: ReportCommand) -> Self
        ensures command { result.command ≡ command }
        ensures only { result.only ≡ chosen_problem (options_of matches.now) }
        ensures reads { Reads (options_of matches.now) result }
    {
        ReportArgs {
            command,
            form: form_option(matches),
            json: false,
            only: problem_option(matches),
            board: BoardSize::named(text_option(matches, "board")),
            n: MoveCount::FEWEST,
            positions: MOST_POSITIONS,
            memo: MemoKind::None,
            cache: MIN_CAPACITY,
            lines: FEWEST_LINES,
            after: None,
            file: text_option(matches, "FILE"),
        }
    }

    /// Returns the request of a command that searches for wins.
    fn searched_by(matches: &ArgMatches<'a>, command: ReportCommand) -> Self
        ensures command { result.command ≡ command }
        ensures only { result.only ≡ chosen_problem (options_of matches.now) }
        ensures searches { Searches (options_of matches.now) result }
    {
        let mut args = ReportArgs::read_by(matches, command);
        args.n = moves_option(matches, "n").unwrap_or(MoveCount::FEWEST);
        args.positions = positions_option(matches, "positions").unwrap_or(MOST_POSITIONS);
        args.memo = MemoKind::named(text_option(matches, "memo"));
        args.cache = capacity_option(matches).unwrap_or(DEFAULT_CAPACITY);
        args
    }

    /// Returns the request of the command that lists lines.
    fn listed_by(matches: &ArgMatches<'a>) -> Self
        ensures command { result.command ≡ ReportCommand.List }
        ensures lists { Lists (options_of matches.now) result }
    {
        let mut args = ReportArgs::searched_by(matches, ReportCommand::List);
        args.only = problem_or_first(matches);
        args.lines = count_option(matches, "lines", FEWEST_LINES, MOST_LINES).unwrap_or(MOST_LINES);
        args.after = text_option(matches, "after");
        args
    }
}

/// Returns the number of the one problem to list, if any: as `--problem` says, or else the first if a token is given.
fn problem_or_first(matches: &ArgMatches<'_>) -> Option<u32>
    ensures value { result ≡ option_or (number_option 1 1_000_000 (options_of matches.now) (codes "problem"))
        (option_map (λ token. 1) (text_option (options_of matches.now) (codes "after"))) }
    ensures some { IfSome result (λ number. 1 ≤ number) }
    ensures few { IfSome result (λ number. number ≤ 1_000_000) }
{
    match (problem_option(matches), text_option(matches, "after")) {
        (None, Some(_)) => Some(FIRST_PROBLEM),
        (number, _) => number,
    }
}
