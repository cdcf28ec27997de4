//! The option `--part`: which part of the work is done, and of how many.
ghost use Rattle.std.specs.Prelude.{◌≡◌, ◌≤◌, IfSome, Some, None, codes};
ghost use Rattle.std.specs.Option.{option_copied};
ghost use Rattle.dw_arguments.specs.Numbers.{part_named};
ghost use Rattle.dw_arguments.specs.Options.{options_of};
ghost use Rattle.dw_arguments.specs.Options as of;

use crate::options::{number_within, option, text_option};
use clap::builder::ValueParser;
use clap::{Arg, ArgMatches};
use std::alloc::Global;

/// The number of the first part.
const FIRST_PART: u32 = 1;

/// The most parts.
const MOST_PARTS: u32 = 1_000_000;

/// The message for a part that is not valid.
pub(crate) const NO_PART: &str = "\
error: invalid value for '--part <I/M>': M is 1 to 1000000, and I is 1 to M

For more information, try '--help'.
";

/// Makes `--part`, whose default is the only part.
pub(crate) fn part<'a>(alloc: Global) -> Arg<'a> {
    let help =
        "Examine every M-th move or change from the I-th on, 1 <= I <= M <= 1000000 [default: 1/1]";
    option(alloc, "part", "I/M", ValueParser::string(), help)
}

/// Returns the part that `--part` names and the number of parts, or `None` if its text is not valid.
pub(crate) fn part_option(matches: &ArgMatches<'_>) -> Option<(u32, u32)>
    ensures value { result ≡ part_named (of.text_option (options_of matches.now) (codes "part")) }
    ensures some { IfSome result (λ named. 1 ≤ named.0) }
    ensures among { IfSome result (λ named. named.0 ≤ named.1) }
    ensures few { IfSome result (λ named. named.1 ≤ 1_000_000) }
{
    part_named(text_option(matches, "part"))
}

/// Returns the part and the number of parts that a text `I/M` names; the only part, if there is no text.
fn part_named(text: Option<&str>) -> Option<(u32, u32)>
    ensures value { result ≡ part_named (option_copied text.entry) }
    ensures some { IfSome result (λ named. 1 ≤ named.0) }
    ensures among { IfSome result (λ named. named.0 ≤ named.1) }
    ensures few { IfSome result (λ named. named.1 ≤ 1_000_000) }
{
    match text {
        Some(text) => part_in(text),
        None => Some((FIRST_PART, FIRST_PART)),
    }
}

/// Returns the part and the number of parts that a text `I/M` names, or `None` if it is not valid.
fn part_in(text: &str) -> Option<(u32, u32)>
    ensures value { result ≡ part_named (Some text.now) }
    ensures some { IfSome result (λ named. 1 ≤ named.0) }
    ensures among { IfSome result (λ named. named.0 ≤ named.1) }
    ensures few { IfSome result (λ named. named.1 ≤ 1_000_000) }
{
    let (part, parts) = text.split_once('/')?;
    let parts = number_within(parts, FIRST_PART, MOST_PARTS)?;
    let part = number_within(part, FIRST_PART, parts)?;
    Some((part, parts))
}
