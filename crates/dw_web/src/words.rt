//! The words of a command line that are separated by line feeds.
ghost use Rattle.std.specs.Prelude.{◌≡◌, ◌==◌};
ghost use Rattle.std.specs.List.{position};
ghost use Rattle.dw_web.specs.Arguments.{program_in};
ghost use Rattle.dw_web.specs.Arguments as of;

use dw_arguments::CliError;
use std::alloc::{AllocError, Global};
use std::io::ErrorKind;

/// The byte between two words.
const LINE_FEED: u8 = b'\n';

/// The program that a command line is for.
#[derive(Clone, Copy)]
pub enum Program {
    Report,
    Desk,
}

/// Returns the program that the first word names.
pub(crate) fn program_of(arguments: &[u8]) -> Option<Program>
    ensures { result ≡ program_in arguments.now }
{
    let name = first_word(arguments);
    if name == b"dw".as_slice() {
        Some(Program::Report)
    } else if name == b"dw-desk".as_slice() {
        Some(Program::Desk)
    } else {
        None
    }
}

/// Returns the name of the program for its messages; `dw`, if the first word names none.
pub(crate) fn name_of(arguments: &[u8]) -> &'static str {
    match program_of(arguments) {
        Some(Program::Desk) => "dw-desk",
        _ => "dw",
    }
}

/// Returns the bytes up to the first line feed.
fn first_word(arguments: &[u8]) -> &[u8]
    ensures { result.now ≡ of.first_word arguments.now }
{
    match line_feed_in(arguments) {
        Some(end) => &arguments[..end],
        None => arguments,
    }
}

/// Returns the place of the first line feed.
fn line_feed_in(bytes: &[u8]) -> Option<usize>
    ensures { result ≡ position (λ byte. byte == 10) bytes.now }
{
    bytes.iter().position(|byte| *byte == LINE_FEED)
}

/// Splits the words of the arguments. `program` names the program in the error for words that are not UTF-8.
pub(crate) fn arguments_of(
    alloc: Global,
    program: &str,
    arguments: &[u8],
) -> Result<Vec<String>, CliError> {
    match std::str::from_utf8(arguments) {
        Ok(text) => Ok(split(alloc, text)?),
        Err(_) => Err(CliError::unreadable(alloc, program, ErrorKind::InvalidData)),
    }
}

/// Returns the parts of a text between line feeds.
fn split(alloc: Global, text: &str) -> Result<Vec<String>, AllocError> {
    let mut words = Vec::new(alloc);
    for word in text.split('\n') {
        words.push(String::from_str(alloc, word)?)?;
    }
    Ok(words)
}
