//! The errors of a command line.
use clap::Error;
use clap::error::ErrorKind;
use std::alloc::{AllocError, Global};
use std::io;

/// The reason why a command line makes no request.
#[derive(Drop)]
pub enum CliError {
    /// Help was asked for; the text is for standard output.
    Help(String),
    /// The arguments are wrong; the text for standard error says why, with its own line ends.
    NoCommand(String),
    /// As `NoCommand`, with a fixed text: the parser accepts the words, but they make no request.
    Refused(&'static str),
    /// Memory was refused.
    Memory,
}

impl From<AllocError> for CliError {
    fn from(_refused: AllocError) -> CliError {
        CliError::Memory
    }
}

impl CliError {
    /// Returns the error for words that could not be fetched: one is not UTF-8, or memory was refused. `program` is the
    /// program's name.
    pub fn unreadable(alloc: Global, program: &str, kind: io::ErrorKind) -> CliError {
        match kind {
            io::ErrorKind::InvalidData => not_utf8(alloc, program),
            _ => CliError::Memory,
        }
    }

    /// Converts an error of the parser. Help that was asked for is one too.
    pub(crate) fn of(alloc: Global, error: &Error) -> CliError {
        if error.kind() == ErrorKind::OutOfMemory {
            return CliError::Memory;
        }
        let Ok(text) = format!(in alloc; "{error}") else {
            return CliError::Memory;
        };
        if error.use_stderr() {
            CliError::NoCommand(text)
        } else {
            CliError::Help(text)
        }
    }
}

/// Returns the error for arguments that are not UTF-8, in the form of the parser's messages.
fn not_utf8(alloc: Global, program: &str) -> CliError {
    match format!(in alloc;
        "error: invalid UTF-8 was detected in one or more arguments\n\nUsage: {program} \
        <COMMAND>\n\nFor more information, try '--help'.\n"
    ) {
        Ok(text) => CliError::NoCommand(text),
        Err(_) => CliError::Memory,
    }
}
