//! The arguments of the command `page`.
ghost use Rattle.std.specs.Prelude.{◌≤◌};

use crate::choices::{PageLanguage, PageTries, Placing};
use crate::desk_options::{lines, lines_of, searcher};
use crate::options::{
    CommandTexts, flag, flag_option, memo, most, moves_option, option, text_option, within,
};
use crate::portion::problem;
use clap::builder::ValueParser;
use clap::{Arg, ArgMatches, Command};
use dw_stipulation::MoveCount;
use std::alloc::{AllocError, Global};

/// The request of the command `page`.
#[derive(Clone, Copy)]
pub struct PageArgs<'a> {
    /// The number of moves within which a win is looked for.
    pub moves: MoveCount,
    /// Whether `moves` is only the most, and the least number of moves with a win is looked for.
    pub is_least: bool,
    /// The most lines to write of each solution, 1 to 1,000,000.
    pub lines: usize,
    pub title: &'a str,
    pub language: PageLanguage,
    /// Whether drawings have the numbers of the squares.
    pub numbers: bool,
    pub solutions: Placing,
    /// Which tries are written.
    pub tries: PageTries,
    pub ghost some_lines: { 1 ≤ lines },
    pub ghost few_lines: { lines ≤ 1_000_000 },
}

const WITHIN_HELP: &str = "Ask for a win in N moves of the side to move, 1 to 20";

const MOST_HELP: &str = "Ask for the least number of moves with a win, up to N, 1 to 20";

const ABOUT: &str =
    "Writes a page of all problems with diagrams and solutions, for a browser or a printer.";

const EXAMPLES: &str = "\
The page is one HTML file that needs no other. A click on a move shows the position after it, and
so do the arrow keys. A printer puts up to six problems on a sheet. With --pdn each problem shows
its tags Event, White, Date and Site. -n or --most is required: a win in N moves, or in the least
number up to N.

Examples:
  dw-desk page -n 2 examples/problems.fen > problems.html
  dw-desk page --most 6 --lang fr --solutions end examples/problems.fen > problems.html
  dw-desk page -n 3 --title 'March' --numbers --pdn examples/solutions.pdn > march.html";

/// The default title of a page.
const USUAL_TITLE: &str = "dw-desk";

/// Returns the command with its arguments.
pub(crate) fn page_command<'a>(alloc: Global) -> Result<Command<'a>, AllocError> {
    let within = within(alloc, WITHIN_HELP)
        .required_unless_present("most")?
        .conflicts_with("most")?;
    let own = vec![in alloc;
        within,
        most(alloc, MOST_HELP),
        lines(alloc),
        title(alloc),
        language(alloc),
        solutions(alloc),
        tries(alloc),
        flag(
            alloc,
            "numbers",
            "Write the number of each square in the diagrams"
        ),
        memo(alloc, "deep"),
    ]?;
    let texts = CommandTexts::new("page", ABOUT, EXAMPLES);
    searcher(alloc, texts, problem(alloc), own)
}

fn title<'a>(alloc: Global) -> Arg<'a> {
    let help = "The title of the page [default: dw-desk]";
    option(alloc, "title", "T", ValueParser::string(), help)
}

fn language<'a>(alloc: Global) -> Arg<'a> {
    let names = ["en", "nl", "fr", "ru"].as_slice().into();
    let help = "The language: English, Dutch, French or Russian";
    option(alloc, "lang", "LANG", names, help).default_value("en")
}

fn solutions<'a>(alloc: Global) -> Arg<'a> {
    let places = ["after", "end", "none"].as_slice().into();
    let help = "Put the solutions after each problem, at the end, or nowhere";
    option(alloc, "solutions", "WHERE", places, help).default_value("after")
}

fn tries<'a>(alloc: Global) -> Arg<'a> {
    let which = ["none", "all"].as_slice().into();
    let help = "Write no tries, or all";
    option(alloc, "tries", "WHICH", which, help).default_value("all")
}

impl<'a> PageArgs<'a> {
    ghost use Rattle.dw_arguments.specs.DeskCommands.{AsksPage};
    ghost use Rattle.dw_arguments.specs.Options.{options_of};

    /// Returns the request of the options.
    pub(crate) fn new(matches: &ArgMatches<'a>) -> Self
        ensures { AsksPage (options_of matches.now) result }
    {
        let most = moves_option(matches, "most");
        PageArgs {
            moves: moves_option(matches, "n")
                .or(most)
                .unwrap_or(MoveCount::FEWEST),
            is_least: most.is_some(),
            lines: lines_of(matches),
            title: text_option(matches, "title").unwrap_or(USUAL_TITLE),
            language: PageLanguage::named(text_option(matches, "lang")),
            numbers: flag_option(matches, "numbers"),
            solutions: Placing::named(text_option(matches, "solutions")),
            tries: PageTries::named(text_option(matches, "tries")),
        }
    }
}
