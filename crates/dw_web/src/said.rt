//! The message of a program on standard error, written into a slice.
ghost use Rattle.std.specs.Prelude.{◌≡◌, ◌≤◌, ℕ, List, false, length};
ghost use Rattle.std.specs.Borrow.{Bor};
ghost use Rattle.dw_commands.specs.declared.ending.Ending.{Ending as AnyEnding};
ghost use Rattle.dw_web.specs.Answers.{IsTold, Refuses, reason_number};

use crate::ended::{Ended, Reason, reason_of};
use crate::room::{Limit, Room};
use dw_arguments::CliError;
use dw_commands::{Ending, Message, end_unread, outcome};
use std::fmt;
use std::fmt::Write;

/// The exit status of a program, why it ended, and how many bytes of its message were written.
#[derive(Clone, Copy)]
pub(crate) struct Exited {
    pub(crate) status: u8,
    pub(crate) reason: Reason,
    pub(crate) message: usize,
}

impl Exited {
    /// Returns the same end with a report of `report` bytes.
    pub(crate) fn with(self, report: usize) -> Ended
        ensures { result ≡ record {
          status = self.status;
          reason = reason_number self.reason;
          report = report;
          message = self.message;
        } }
    {
        Ended {
            status: self.status,
            reason: self.reason.number(),
            report,
            message: self.message,
        }
    }
}

/// Ends a program whose arguments make no request: writes the help that was asked for as the report, or the reason as
/// the message.
pub(crate) fn refuse<L: Limit>(
    program: &str,
    error: &CliError,
    room: &mut Room<L>,
    message: &mut [u8],
) -> Exited
    requires { room.old.has_failed ≡ false }
    ensures refuses { (ending : AnyEnding (Bor (List ℕ)))
        × Refuses room.old.bytes.items room.new.bytes.items room.new.has_failed ending
        × IsTold ending result.status (reason_number result.reason) result.message }
    ensures fits { result.message ≤ length message.old }
{
    tell(program, &end_unread(error, room), message)
}

/// Writes the message of an ending, cut to the room for it, and returns the exit status and the reason.
pub(crate) fn tell(program: &str, ending: &Ending<&str>, message: &mut [u8]) -> Exited
    ensures told { IsTold ending.now result.status (reason_number result.reason) result.message }
    ensures fits { result.message ≤ length message.old }
{
    let exit = outcome(ending);
    let reason = reason_of(ending);
    if !exit.has_message {
        return Exited {
            status: exit.status,
            reason,
            message: 0,
        };
    }
    Exited {
        status: exit.status,
        reason,
        message: write_message(Message { program, ending }, message),
    }
}

/// Writes a message into a slice, cut to its size, and returns its size in bytes.
fn write_message(said: Message<'_, &str>, message: &mut [u8]) -> usize
    ensures { result ≤ length message.old }
{
    let room = message.len();
    let mut front = Front {
        bytes: message,
        used: 0,
    };
    let _ = write!(front, "{said}");
    front.used.min(room)
}

/// The front of a slice that is written.
#[derive(Drop)]
struct Front<'a> {
    bytes: &'a mut [u8],
    used: usize,
}

impl Write for Front<'_> {
    fn write_str(&mut self, text: &str) -> fmt::Result {
        for byte in text.as_bytes() {
            match self.bytes.get_mut(self.used) {
                None => return Err(fmt::Error),
                Some(cell) => {
                    *cell = *byte;
                    self.used += 1;
                }
            }
        }
        Ok(())
    }
}
