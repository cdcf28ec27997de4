//! How a program ends: its exit status, and the line on standard error.
ghost use Rattle.std.specs.Prelude.{◌≡◌, false};
ghost use Rattle.dw_commands.specs.Ending.{EndsUnread};
ghost use Rattle.dw_commands.specs.Ending as of;

use dw_arguments::CliError;
use dw_list::TokenFault;
use dw_notation::{ProblemFault, Sink, write_all};
use dw_report::{RunFault, Stop, Summary, refusal_text};
use std::fmt;
use std::fmt::{Display, Formatter};

/// The fault if memory was refused before the run.
const NO_MEMORY: RunFault = RunFault::Stopped {
    why: Stop::Memory,
    expanded: 0,
};

/// How a program ended. `T` is the type of the texts that its line names.
#[derive(Drop)]
pub enum Ending<T> {
    /// All was done, and nothing refused.
    Done,
    /// A problem or a solution was refused, a problem stayed undecided, or a solution does not hold. The output says
    /// so.
    Refused,
    /// The problem that was asked for is not there.
    NoProblem(u32),
    /// The token of the line to begin after cannot be read.
    TokenRefused(TokenFault),
    /// The problem that a line was given for is refused.
    ProblemRefused(ProblemFault),
    /// A line is refused for the fault of this number and name, found at this place.
    LineRefused {
        number: u8,
        name: &'static str,
        place: u32,
    },
    /// The memo could not hold all that a certificate needs.
    TooManyPositions,
    /// The arguments are no command; the text says why, with its own line ends.
    NoCommand(T),
    /// This FILE could not be opened.
    NotOpened(T),
    /// The program was stopped, or a stream failed.
    Failed(RunFault),
}

impl<T> Ending<T> {
    /// Returns the ending if memory was refused before the run.
    pub fn no_memory() -> Self
        ensures { result ≡ of.no_memory }
    {
        Ending::Failed(NO_MEMORY)
    }

    /// Returns the ending if standard output failed.
    pub fn write_failed() -> Self
        ensures { result ≡ of.write_failed }
    {
        Ending::Failed(RunFault::Write)
    }

    /// Returns the ending after a run; `only` is the number of the problem that was asked for.
    pub fn after(ran: Result<Summary, RunFault>, only: Option<u32>) -> Self
        ensures { result ≡ of.ending_of ran only }
    {
        match ran {
            Ok(summary) => Ending::after_all(summary, only),
            Err(fault) => Ending::Failed(fault),
        }
    }

    /// Returns the ending after a run that ended by itself.
    fn after_all(summary: Summary, only: Option<u32>) -> Self
        ensures { result ≡ of.done_of summary only }
    {
        if summary.refused > 0 {
            return Ending::Refused;
        }
        match only {
            Some(number) if summary.shown == 0 => Ending::NoProblem(number),
            _ => Ending::Done,
        }
    }
}

/// Writes help that was asked for to a sink, and returns the ending of a program whose command line makes no request.
/// The sink must not have failed.
pub fn end_unread<'a, K: Sink>(error: &'a CliError, sink: &mut K) -> Ending<&'a str>
    requires { K.is_failed sink.old ≡ false }
    ensures { EndsUnread (K.accepted sink.old) (K.accepted sink.new) (K.is_failed sink.new) error.now result }
{
    match error {
        CliError::Help(text) => match write_all(sink, text.as_str().as_bytes()) {
            Ok(()) => Ending::Done,
            Err(_) => Ending::write_failed(),
        },
        CliError::NoCommand(text) => Ending::NoCommand(text.as_str()),
        CliError::Refused(text) => Ending::NoCommand(*text),
        CliError::Memory => Ending::no_memory(),
    }
}

/// The text that a program writes to standard error at an ending. It is empty if the output says everything.
#[derive(Drop)]
pub struct Message<'a, T> {
    pub program: &'a str,
    pub ending: &'a Ending<T>,
}

impl<T: Display> Display for Message<'_, T> {
    fn fmt<W: fmt::Write>(&self, f: &mut Formatter<W>) -> fmt::Result {
        let program = self.program;
        match self.ending {
            Ending::Done | Ending::Refused => Ok(()),
            Ending::NoProblem(number) => write!(f, "{program}: no problem {number}\n"),
            Ending::TokenRefused(fault) => {
                let number = number_of(*fault);
                write!(f, "{program}: token refused: {number} {fault}\n")
            }
            Ending::ProblemRefused(fault) => {
                let text = refusal_text(*fault);
                write!(f, "{program}: problem refused: {}\n", text.as_str())
            }
            Ending::LineRefused {
                number,
                name,
                place,
            } => { write!(f, "{program}: line refused: {number} {name} at {place}\n") }
            Ending::TooManyPositions => {
                write!(
                    f,
                    "{program}: too many positions, ask with a larger --cache\n"
                )
            }
            Ending::NoCommand(text) => write!(f, "{text}"),
            Ending::NotOpened(file) => write!(f, "{program}: cannot open {file}\n"),
            Ending::Failed(fault) => write!(f, "{program}: {fault}\n"),
        }
    }
}

/// Returns the number of a fault of a token, as the report and the program name it.
fn number_of(fault: TokenFault) -> u8 {
    match fault {
        TokenFault::NotHex => 1,
        TokenFault::Version => 2,
        TokenFault::Length => 3,
        TokenFault::Square => 4,
        TokenFault::Taken => 5,
        TokenFault::Board => 6,
    }
}

/// The exit status, 0 to 3, and whether the line of the ending is written on standard error.
#[derive(Clone, Copy, Debug, PartialEq, Eq)]
pub struct Exit {
    pub status: u8,
    pub has_message: bool,
}

/// Returns the status of an ending, and whether its line is written.
///
/// Status 0 means that all was done, 1 that something was refused, is undecided or is not there, 2 that the arguments
/// are no command, and 3 that the program was stopped, the memo was too small, or a file could not be opened, read or
/// written.
pub fn outcome<T>(ending: &Ending<T>) -> Exit
    ensures { result ≡ of.outcome_of ending.now }
{
    match ending {
        Ending::Done => quiet(0),
        Ending::Refused => quiet(1),
        Ending::NoProblem(_)
        | Ending::TokenRefused(_)
        | Ending::ProblemRefused(_)
        | Ending::LineRefused { .. } => with_message(1),
        Ending::NoCommand(_) => with_message(2),
        Ending::TooManyPositions | Ending::NotOpened(_) | Ending::Failed(_) => with_message(3),
    }
}

/// Returns an exit without a line.
fn quiet(status: u8) -> Exit
    ensures { result ≡ of.quiet status }
{
    Exit {
        status,
        has_message: false,
    }
}

/// Returns an exit with the line of its ending.
fn with_message(status: u8) -> Exit
    ensures { result ≡ of.with_message status }
{
    Exit {
        status,
        has_message: true,
    }
}
