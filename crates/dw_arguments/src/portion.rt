//! The problems that a command works on.
ghost use Rattle.std.specs.Prelude.{◌≡◌, ◌≤◌, IfSome, Some, is_some, option_map, true};
ghost use Rattle.dw_arguments.specs.Numbers.{problem_in};
ghost use Rattle.std.specs.Option.{option_copied};
ghost use Rattle.std.proofs.Props.{props};

use crate::options::{FIRST_PROBLEM, number_within, option, problem_option};
use clap::builder::ValueParser;
use clap::{Arg, ArgMatches};
use dw_notation::problems::MAX_PROBLEMS;
use std::alloc::Global;

/// The problems that are chosen.
#[derive(Clone, Copy, Debug, PartialEq, Eq)]
pub struct Portion {
    /// The number of the first, `FIRST_PROBLEM` to `MAX_PROBLEMS`.
    pub first: u32,
    /// The number of the last, `first` to `MAX_PROBLEMS`; `None` if all up to the end are chosen.
    pub last: Option<u32>,
    /// Whether it is an error if none of them is there: always for a command on one problem, else if `--problem` is
    /// given.
    pub must_exist: bool,
    pub ghost some: { 1 ≤ first },
    pub ghost few: { first ≤ 1_000_000 },
    pub ghost in_order: { IfSome last (λ last. first ≤ last) } by { Prim.hlevel props },
    pub ghost few_to_last: { IfSome last (λ last. last ≤ 1_000_000) } by { Prim.hlevel props },
}

/// The message for a choice of problems that is not valid.
pub(crate) const NO_PORTION: &str = "\
error: invalid value for '--problem <I|I-J>': I and J are 1 to 1000000, and I is at most J

For more information, try '--help'.
";

const PROBLEM_HELP: &str =
    "Report on problem I, or on problems I to J, 1 to 1000000 [default: all]";

/// Makes `--problem` for one problem or several.
pub(crate) fn problem<'a>(alloc: Global) -> Arg<'a> {
    option(
        alloc,
        "problem",
        "I|I-J",
        ValueParser::string(),
        PROBLEM_HELP,
    )
}

impl Portion {
    ghost use Rattle.dw_arguments.specs.DeskCommands.{IsOneProblem};
    ghost use Rattle.dw_arguments.specs.Numbers.{portion_named};
    ghost use Rattle.dw_arguments.specs.Options.{options_of};

    /// Returns the portion of the one problem that `--problem` names, or else of the first.
    pub(crate) fn of_one(matches: &ArgMatches<'_>) -> Self
        ensures { IsOneProblem (options_of matches.now) result }
    {
        let number = problem_option(matches).unwrap_or(FIRST_PROBLEM);
        Portion {
            first: number,
            last: Some(number),
            must_exist: true,
        }
    }

    /// Returns the problems that a text names: `I`, or `I-J` from I to J; all, if there is no text. It is `None` for
    /// any other text.
    pub(crate) fn named(text: Option<&str>) -> Option<Self>
        ensures numbers { option_map (λ portion. (portion.first, portion.last)) result
            ≡ portion_named (option_copied text.entry) }
        ensures must_exist { IfSome result (λ portion. portion.must_exist ≡ is_some text.entry) }
    {
        match text {
            Some(text) => Portion::in_text(text),
            None => Some(Portion {
                first: FIRST_PROBLEM,
                last: None,
                must_exist: false,
            }),
        }
    }

    /// Returns the problems that a text `I` or `I-J` names, or `None` if it is not valid.
    fn in_text(text: &str) -> Option<Self>
        ensures numbers { option_map (λ portion. (portion.first, portion.last)) result
            ≡ portion_named (Some text.now) }
        ensures must_exist { IfSome result (λ portion. portion.must_exist ≡ true) }
    {
        let (first, last) = text.split_once('-').unwrap_or((text, text));
        let first = number_in(first)?;
        let last = number_in(last)?;
        if first > last {
            return None;
        }
        Some(Portion {
            first,
            last: Some(last),
            must_exist: true,
        })
    }
}

/// Returns the problem's number that a text writes, `FIRST_PROBLEM` to `MAX_PROBLEMS`.
fn number_in(text: &str) -> Option<u32>
    ensures value { result ≡ problem_in text.now }
    ensures some { IfSome result (λ number. 1 ≤ number) }
    ensures few { IfSome result (λ number. number ≤ 1_000_000) }
{
    number_within(text, FIRST_PROBLEM, MAX_PROBLEMS)
}
