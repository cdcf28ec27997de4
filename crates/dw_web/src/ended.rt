//! The end of a program, for the page.
ghost use Rattle.std.specs.Prelude.{◌≡◌};
ghost use Rattle.dw_web.specs.Answers.{fault_reason, reason_number, reason_of as reason_for};

use dw_commands::Ending;
use dw_report::{RunFault, Stop};

/// How a program ended, and how much it wrote.
#[repr(C)]
#[derive(Clone, Copy)]
pub struct Ended {
    /// The exit status, 0 to 3.
    pub status: u8,
    /// The number of the `Reason`, 0 to 4.
    pub reason: u8,
    /// How many bytes of the report were written.
    pub report: usize,
    /// How many bytes of the message were written.
    pub message: usize,
}

/// Why a program ended.
#[derive(Clone, Copy, Debug, PartialEq, Eq)]
pub enum Reason {
    /// It ran to its end: the report is whole. A problem may be refused or missing. Also after help or a version.
    Finished,
    /// The arguments are no command.
    ArgumentsRefused,
    /// The report had no more room.
    ReportFull,
    /// Memory was refused.
    OutOfMemory,
    /// Anything else: a token or a line of the arguments cannot be read, a FILE cannot be opened, the run was stopped
    /// at its bound, or the memo was too small.
    Other,
}

impl Reason {
    /// Returns the number of the reason, 0 to 4.
    pub fn number(self) -> u8
        ensures { result ≡ reason_number self }
    {
        match self {
            Reason::Finished => 0,
            Reason::ArgumentsRefused => 1,
            Reason::ReportFull => 2,
            Reason::OutOfMemory => 3,
            Reason::Other => 4,
        }
    }
}

/// Returns the reason of an ending.
pub(crate) fn reason_of<T>(ending: &Ending<T>) -> Reason
    ensures { result ≡ reason_for ending.now }
{
    match ending {
        Ending::Done | Ending::Refused | Ending::NoProblem(_) | Ending::ProblemRefused(_) => {
            Reason::Finished
        }
        Ending::NoCommand(_) => Reason::ArgumentsRefused,
        Ending::Failed(fault) => reason_of_fault(*fault),
        Ending::TokenRefused(_)
        | Ending::LineRefused { .. }
        | Ending::TooManyPositions
        | Ending::NotOpened(_) => Reason::Other,
    }
}

/// Returns the reason of a run that failed.
fn reason_of_fault(fault: RunFault) -> Reason
    ensures { result ≡ fault_reason fault }
{
    match fault {
        RunFault::Write => Reason::ReportFull,
        RunFault::Read => Reason::Other,
        RunFault::Stopped { why, .. } => match why {
            Stop::Memory => Reason::OutOfMemory,
            Stop::Limit => Reason::Other,
        },
    }
}
