//! What the commands of both programs share: how a command is made, its options, and how they are read.
//!
//! A number outside the range of its option is refused.
ghost use Rattle.std.specs.Prelude.{◌≡◌, ◌≤◌, IfSome, codes, option_map};
ghost use Rattle.dw_arguments.specs.Options.{flag_option, form_option, number_option, number_within};
ghost use Rattle.dw_arguments.specs.Options.{options_of, text_option};

use clap::builder::ValueParser;
use clap::{Arg, ArgAction, ArgMatches, Command, value_parser};
use dw_notation::Form;
use dw_notation::problems::MAX_PROBLEMS;
use dw_stipulation::MoveCount;
use std::alloc::{AllocError, Global};

/// The least number of positions that an option may set as a bound.
pub const FEWEST_POSITIONS: u64 = 1;

/// The greatest number of positions that an option may set as a bound.
pub const MOST_POSITIONS: u64 = 1_000_000_000_000;

/// The number of the first problem.
pub const FIRST_PROBLEM: u32 = 1;

/// The fewest positions that a memo may keep.
pub const MIN_CAPACITY: usize = 1;

/// The most positions that a memo may keep.
pub const MAX_CAPACITY: usize = 4_000_000;

/// The default size of a memo, in positions.
pub const DEFAULT_CAPACITY: usize = 1_000_000;

/// The version of the programs.
pub const VERSION: &str = "1.0.0";

const MEMO_HELP: &str = "\
The kind of cache:
none, nothing: for very little memory
slots, a table in which many positions share one place: for many short problems
lru, the positions used last, none lost until it has C: for certificates
deep, a table that keeps the deeper results: for most problems";

/// What a command says of itself.
#[derive(Clone, Copy)]
pub(crate) struct CommandTexts<'a> {
    pub name: &'a str,
    /// What the command does, in one line.
    pub about: &'a str,
    /// The explanation that follows the options, with examples.
    pub examples: &'a str,
}

impl<'a> CommandTexts<'a> {
    /// Returns these texts together.
    pub fn new(name: &'a str, about: &'a str, examples: &'a str) -> Self {
        CommandTexts {
            name,
            about,
            examples,
        }
    }
}

/// Makes a command that reads problems, with `--board`, `--pdn`, `FILE`, and `problem` as its option `--problem`.
pub(crate) fn reader<'a>(
    alloc: Global,
    texts: CommandTexts<'a>,
    problem: Arg<'a>,
) -> Result<Command<'a>, AllocError> {
    let arguments = vec![in alloc; board(alloc), pdn(alloc), problem, file(alloc)]?;
    Command::new(alloc, texts.name)
        .about(texts.about)
        .after_help(texts.examples)
        .args(arguments)
}

/// Makes `--board`, whose default is ten rows.
fn board<'a>(alloc: Global) -> Arg<'a> {
    let help = "The board: 10 by 10 or 8 by 8";
    option(alloc, "board", "ROWS", ["10", "8"].as_slice().into(), help).default_value("10")
}

/// Makes the flag `--pdn`.
fn pdn<'a>(alloc: Global) -> Arg<'a> {
    flag(
        alloc,
        "pdn",
        "Read a PDN file: one problem for each section of tags",
    )
}

/// Returns the form of the problems in the file: tags with `--pdn`, else FEN texts.
pub fn form_option(matches: &ArgMatches<'_>) -> Form
    ensures { result ≡ form_option (options_of matches.now) }
{
    if flag_option(matches, "pdn") {
        Form::Pdn
    } else {
        Form::Fens
    }
}

/// Makes `--problem` for one problem, `FIRST_PROBLEM` to `MAX_PROBLEMS`, with its help.
pub fn one_problem<'a>(alloc: Global, help: &'a str) -> Arg<'a> {
    let numbers = value_parser!(u32).range(i64::from(FIRST_PROBLEM)..=i64::from(MAX_PROBLEMS));
    option(alloc, "problem", "I", numbers, help)
}

/// Returns the number of the problem that `--problem` names, `FIRST_PROBLEM` to `MAX_PROBLEMS`, if it is given.
pub fn problem_option(matches: &ArgMatches<'_>) -> Option<u32>
    ensures value { result ≡ number_option 1 1_000_000 (options_of matches.now) (codes "problem") }
    ensures some { IfSome result (λ number. 1 ≤ number) }
    ensures few { IfSome result (λ number. number ≤ 1_000_000) }
{
    let number = matches.get_one::<u32>("problem")?;
    (FIRST_PROBLEM..=MAX_PROBLEMS)
        .contains(&number)
        .then_some(number)
}

/// Makes `FILE`, the only argument without a name.
fn file<'a>(alloc: Global) -> Arg<'a> {
    Arg::new(alloc, "FILE").help("The problems [default: standard input]")
}

/// Makes `--memo` with its default.
pub fn memo<'a>(alloc: Global, usual: &'a str) -> Arg<'a> {
    let kinds = ["none", "lru", "slots", "deep"].as_slice().into();
    option(alloc, "memo", "KIND", kinds, MEMO_HELP).default_value(usual)
}

/// Makes `--cache`, `MIN_CAPACITY` to `MAX_CAPACITY`, whose default is `DEFAULT_CAPACITY`.
pub fn cache<'a>(alloc: Global) -> Arg<'a> {
    let numbers = value_parser!(u32).range(MIN_CAPACITY as i64..=MAX_CAPACITY as i64);
    let help = "Keep at most C positions, 1 to 4000000 [default: 1000000]";
    option(alloc, "cache", "C", numbers, help)
}

/// Returns the most positions that the memo keeps, `MIN_CAPACITY` to `MAX_CAPACITY`, if `--cache` is given.
pub fn capacity_option(matches: &ArgMatches<'_>) -> Option<usize>
    ensures value { result ≡ number_option 1 4_000_000 (options_of matches.now) (codes "cache") }
    ensures some { IfSome result (λ kept. 1 ≤ kept) }
    ensures few { IfSome result (λ kept. kept ≤ 4_000_000) }
{
    let kept = matches.get_one::<u32>("cache")? as usize;
    (MIN_CAPACITY..=MAX_CAPACITY)
        .contains(&kept)
        .then_some(kept)
}

/// Makes `-n`, the number of moves, with its help.
pub fn within<'a>(alloc: Global, help: &'a str) -> Arg<'a> {
    Arg::new(alloc, "n")
        .short('n')
        .value_name("N")
        .value_parser(moves())
        .help(help)
}

/// Makes `--most`, the greatest number of moves, with its help.
pub fn most<'a>(alloc: Global, help: &'a str) -> Arg<'a> {
    option(alloc, "most", "N", moves(), help)
}

fn moves<'a>() -> ValueParser<'a> {
    value_parser!(u8).range(i64::from(MoveCount::FEWEST.value)..=i64::from(MoveCount::MOST.value))
}

/// Returns the number of moves that the option of this name says, if it is given.
pub fn moves_option(matches: &ArgMatches<'_>, name: &str) -> Option<MoveCount>
    ensures { option_map (λ moves. moves.value) result ≡ number_option 1 20 (options_of matches.now) name.now }
{
    let moves = matches.get_one::<u8>(name)?;
    MoveCount::new(moves)
}

/// Makes an option with a number of positions, `FEWEST_POSITIONS` to `MOST_POSITIONS`.
pub fn positions<'a>(alloc: Global, name: &'a str, help: &'a str) -> Arg<'a> {
    let numbers = value_parser!(u64).range(FEWEST_POSITIONS as i64..=MOST_POSITIONS as i64);
    option(alloc, name, "L", numbers, help)
}

/// Returns the number of positions that the option of this name says, `FEWEST_POSITIONS` to `MOST_POSITIONS`, if it is
/// given.
pub fn positions_option(matches: &ArgMatches<'_>, name: &str) -> Option<u64>
    ensures value { result ≡ number_option 1 1_000_000_000_000 (options_of matches.now) name.now }
    ensures some { IfSome result (λ positions. 1 ≤ positions) }
    ensures few { IfSome result (λ positions. positions ≤ 1_000_000_000_000) }
{
    count_option(matches, name, FEWEST_POSITIONS, MOST_POSITIONS)
}

/// Returns the number that the option of this name says, if it is given and within these bounds.
pub fn count_option(matches: &ArgMatches<'_>, name: &str, least: u64, most: u64) -> Option<u64>
    ensures value { result ≡ number_option least most (options_of matches.now) name.now }
    ensures some { IfSome result (λ count. least ≤ count) }
    ensures few { IfSome result (λ count. count ≤ most) }
{
    let count = matches.get_one::<u64>(name)?;
    (least..=most).contains(&count).then_some(count)
}

/// Returns the number that a text writes in digits, if it is one and within these bounds.
pub fn number_within(text: &str, least: u32, most: u32) -> Option<u32>
    ensures value { result ≡ number_within least most text.now }
    ensures some { IfSome result (λ number. least ≤ number) }
    ensures few { IfSome result (λ number. number ≤ most) }
{
    let number = text.parse::<u32>().ok()?;
    (least..=most).contains(&number).then_some(number)
}

/// Returns the text that the option of this name says, if it is given.
pub fn text_option<'a>(matches: &ArgMatches<'a>, name: &str) -> Option<&'a str>
    ensures { option_map (λ text. text.now) result ≡ text_option (options_of matches.now) name.now }
{
    matches.get_str(name)
}

/// Returns whether the flag of this name is given.
pub fn flag_option(matches: &ArgMatches<'_>, name: &str) -> bool
    ensures { result ≡ flag_option (options_of matches.now) name.now }
{
    matches.get_one::<bool>(name).unwrap_or(false)
}

/// Makes an argument that is named `--name` and has a value.
pub fn option<'a>(
    alloc: Global,
    name: &'a str,
    value_name: &'a str,
    values: ValueParser<'a>,
    help: &'a str,
) -> Arg<'a> {
    Arg::new(alloc, name)
        .long(name)
        .value_name(value_name)
        .value_parser(values)
        .help(help)
}

/// Makes an argument that is named `--name` and has no value.
pub fn flag<'a>(alloc: Global, name: &'a str, help: &'a str) -> Arg<'a> {
    Arg::new(alloc, name)
        .long(name)
        .action(ArgAction::SetTrue)
        .help(help)
}
