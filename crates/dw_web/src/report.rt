//! `dw`, over bytes.
ghost use Rattle.std.specs.Prelude.{◌≡◌, ◌⊎◌, ◌≤◌, ℕ, List, false, length};
ghost use Rattle.std.specs.Borrow.{Bor};
ghost use Rattle.std.specs.Option.{option_copied};
ghost use Rattle.dw_commands.specs.Reports.{EndsBefore};
ghost use Rattle.dw_commands.specs.declared.ending.Ending.{Ending as AnyEnding};
ghost use Rattle.dw_web.specs.Answers.{DoesReport, IsTold, Refuses, Reports, Runs, RunsUnlessFile, reason_number};

use crate::room::{Limit, Room};
use crate::said::{Exited, refuse, tell};
use crate::words::arguments_of;
use dw_arguments::{BoardSize, ReportArgs};
use dw_board::{Board, Eight, Ten};
use dw_commands::{Ending, Job};
use dw_notation::Reading;
use std::alloc::Global;

/// The program's name in its messages.
const PROGRAM: &str = "dw";

/// Runs `dw` with the words of a command line.
pub(crate) fn run_arguments<L: Limit>(
    alloc: Global,
    arguments: &[u8],
    input: &[u8],
    room: &mut Room<L>,
    message: &mut [u8],
) -> Exited
    requires { room.old.has_failed ≡ false }
    ensures answers { (ending : AnyEnding (Bor (List ℕ)))
        × (Refuses room.old.bytes.items room.new.bytes.items room.new.has_failed ending
        ⊎ DoesReport input.now room.old.bytes.items room.new.bytes.items room.new.has_failed ending)
        × IsTold ending result.status (reason_number result.reason) result.message }
    ensures message { result.message ≤ length message.old }
{
    match arguments_of(alloc, PROGRAM, arguments) {
        Ok(words) => match ReportArgs::parse(alloc, words.as_slice()) {
            Ok(args) => tell(PROGRAM, &run(alloc, &args, input, room), message),
            Err(error) => refuse(PROGRAM, &error, room, message),
        },
        Err(error) => refuse(PROGRAM, &error, room, message),
    }
}

/// Runs the command that the arguments ask for, on the board that they name.
fn run<'a, L: Limit>(
    alloc: Global,
    args: &ReportArgs<'a>,
    input: &[u8],
    room: &mut Room<L>,
) -> Ending<&'a str>
    requires { room.old.has_failed ≡ false }
    ensures { Reports args.now input.now room.old.bytes.items room.new.bytes.items room.new.has_failed
        result }
{
    match args.board {
        BoardSize::Ten => run_on::<Ten, L>(alloc, args, input, room),
        BoardSize::Eight => run_on::<Eight, L>(alloc, args, input, room),
    }
}

/// Makes the report ready, and then writes it. There are no files here.
fn run_on<'a, B: Board, L: Limit>(
    alloc: Global,
    args: &ReportArgs<'a>,
    input: &[u8],
    room: &mut Room<L>,
) -> Ending<&'a str>
    requires { room.old.has_failed ≡ false }
    ensures { (EndsBefore B.geometry (option_copied args.now.after) result
        × (room.new.bytes.items ≡ room.old.bytes.items))
        ⊎ RunsUnlessFile (Runs B.geometry args.now input.now room.old.bytes.items room.new.bytes.items
        room.new.has_failed result) args.now.file room.old.bytes.items room.new.bytes.items result }
{
    let job = match Job::<B>::new(alloc, args) {
        Ok(job) => job,
        Err(ending) => return ending,
    };
    if let Some(path) = args.file {
        return Ending::NotOpened(path);
    }
    let mut source = Reading::new(input);
    job.run(alloc, &mut source, room)
}
