//! The dealings of both programs with the operating system: they fetch their arguments, and end with a line on standard
//! error and an exit status.
//!
//! Begin with `arguments`, and end with `end_with` or `end_refused`.
#![tactic(auto)]

ghost use Rattle.std.specs.Prelude.{◌≡◌, ℕ, Bool, List, Option};
ghost use Rattle.std.specs.Borrow.{Bor};
ghost use Rattle.std.specs.Process.{exit_status};
ghost use Rattle.dw_commands.specs.Ending.{EndsUnread, outcome_of};
ghost use Rattle.dw_commands.specs.declared.ending.Ending.{Ending as AnyEnding};

use dw_arguments::CliError;
use dw_commands::{Ending, Message, end_unread, outcome};
use dw_notation::Writing;
use std::process::ExitCode;
use std::{env, io};

/// Fetches the arguments of the command line, the program's name first.
///
/// # Errors
///
/// An argument is no UTF-8, or memory was refused.
pub fn arguments(rt: &HostRuntime, program: &str) -> Result<Vec<String>, CliError> {
    match arguments_of(rt) {
        Ok(words) => Ok(words),
        Err(error) => Err(CliError::unreadable(rt.alloc(), program, error.kind())),
    }
}

fn arguments_of(rt: &HostRuntime) -> io::Result<Vec<String>> {
    Ok(env::args(rt)?.collect::<Vec<String>>(rt.alloc())?)
}

/// Returns the exit status of a program whose arguments make no request. Writes the help to standard output if that was
/// asked for, and else the reason to standard error.
pub fn end_refused(rt: &HostRuntime, program: &str, error: &CliError) -> ExitCode
    ensures { (ending : AnyEnding (Bor (List ℕ))) × (before : List ℕ) × (after : List ℕ)
        × (is_failed : Bool) × EndsUnread before after is_failed error.now ending
        × (exit_status result ≡ (outcome_of ending).status) }
{
    let mut sink = Writing::new(rt.stdout());
    end_with(rt, program, &end_unread(error, &mut sink))
}

/// Writes to standard error how a program ended, and returns its exit status. An error of that write is ignored.
pub fn end_with(rt: &HostRuntime, program: &str, ending: &Ending<&str>) -> ExitCode
    ensures { exit_status result ≡ (outcome_of ending.now).status }
{
    let exit = outcome(ending);
    if exit.has_message {
        let message = Message { program, ending };
        let _ = eprint!(rt; "{message}");
    }
    ExitCode::from(exit.status)
}
