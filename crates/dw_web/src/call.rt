//! The call that runs a program over bytes.
ghost use Rattle.std.specs.Prelude.{◌≡◌, ◌≤◌, ℕ, Bool, true, List, [], length, take, drop};
ghost use Rattle.std.specs.Borrow.{Bor};
ghost use Rattle.dw_commands.specs.declared.ending.Ending.{Ending};
ghost use Rattle.dw_web.specs.Answers.{Answers, IsTold};
ghost use Rattle.dw_web.specs.Arguments.{program_in};

use crate::ended::Ended;
use crate::programs::run_within;
use std::alloc::Global;
use std::marker::Brand;

/// Runs a program.
///
/// The arguments are separated by line feeds; the first is `dw` or `dw-desk`. The input replaces standard input, the
/// report standard output and the message standard error. A message is cut to the room for it. A FILE cannot be opened.
/// If the report has no more room, the program ends as after a failed write, and its reason is `ReportFull`.
#[unsafe(no_mangle)]
pub extern "C" fn dw_web_run(
    alloc: Global,
    arguments: &[u8],
    input: &[u8],
    report: &mut [u8],
    message: &mut [u8],
    ended: &mut Ended,
)
    ensures answers { (full : Bool) × (ending : Ending (Bor (List ℕ)))
        × Answers (program_in arguments.now) input.now [] (take ended.new.report report.new) full ending
        × IsTold ending ended.new.status ended.new.reason ended.new.message
        × (full ≡ true → ended.new.report ≡ length report.old) }
    ensures report { ended.new.report ≤ length report.old }
    ensures rest { drop ended.new.report report.new ≡ drop ended.new.report report.old }
    ensures message { ended.new.message ≤ length message.old }
{
    *ended = run_within::<Brand>(alloc, arguments, input, report, message);
}
