//! The program that the arguments are for.
ghost use Rattle.std.specs.Prelude.{◌≡◌, ◌≤◌, ℕ, Bool, true, false, List, [], length, take, drop};
ghost use Rattle.std.specs.Borrow.{Bor};
ghost use Rattle.dw_commands.specs.declared.ending.Ending.{Ending as AnyEnding};
ghost use Rattle.dw_web.specs.Answers.{Answers, IsTold, reason_number};
ghost use Rattle.dw_web.specs.Arguments.{program_in};

use crate::ended::Ended;
use crate::room::{Limit, Room};
use crate::said::{Exited, refuse, tell};
use crate::words::{Program, name_of, program_of};
use crate::{desk, report};
use dw_arguments::CliError;
use dw_commands::Ending;
use std::alloc::Global;

/// The message for arguments of which the first names no program.
const NO_PROGRAM: &str = "error: the first argument is neither dw nor dw-desk\n";

/// Runs a program whose report may have as many bytes as the slice for it, which must be of the size `L`.
pub(crate) fn run_within<L: Limit>(
    alloc: Global,
    arguments: &[u8],
    input: &[u8],
    report: &mut [u8],
    message: &mut [u8],
) -> Ended
    requires { length report.old ≡ L.limit }
    ensures answers { (full : Bool) × (ending : AnyEnding (Bor (List ℕ)))
        × Answers (program_in arguments.now) input.now [] (take result.report report.new) full ending
        × IsTold ending result.status result.reason result.message
        × (full ≡ true → result.report ≡ length report.old) }
    ensures report { result.report ≤ length report.old }
    ensures rest { drop result.report report.new ≡ drop result.report report.old }
    ensures message { result.message ≤ length message.old }
{
    let Ok(mut room) = Room::<L>::new(alloc, report.len()) else {
        return tell(name_of(arguments), &Ending::no_memory(), message).with(0);
    };
    let told = answer(alloc, arguments, input, &mut room, message);
    told.with(room.copy_to(report))
}

/// Runs the program that the first argument names, with a room for its report.
fn answer<L: Limit>(
    alloc: Global,
    arguments: &[u8],
    input: &[u8],
    room: &mut Room<L>,
    message: &mut [u8],
) -> Exited
    requires { room.old.has_failed ≡ false }
    ensures answers { (ending : AnyEnding (Bor (List ℕ)))
        × Answers (program_in arguments.now) input.now room.old.bytes.items room.new.bytes.items
        room.new.has_failed ending
        × IsTold ending result.status (reason_number result.reason) result.message }
    ensures message { result.message ≤ length message.old }
{
    match program_of(arguments) {
        Some(Program::Report) => report::run_arguments(alloc, arguments, input, room, message),
        Some(Program::Desk) => desk::run_arguments(alloc, arguments, input, room, message),
        None => {
            let error = CliError::Refused(NO_PROGRAM);
            refuse(name_of(arguments), &error, room, message)
        }
    }
}
