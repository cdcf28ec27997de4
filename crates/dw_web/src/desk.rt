//! `dw-desk`, over bytes.
ghost use Rattle.std.specs.Prelude.{◌≡◌, ◌⊎◌, ◌≤◌, ℕ, List, false, length};
ghost use Rattle.std.specs.Borrow.{Bor};
ghost use Rattle.dw_commands.specs.declared.ending.Ending.{Ending as AnyEnding};
ghost use Rattle.dw_web.specs.Answers.{Desks, DesksOn, DoesDesk, IsTold, Refuses, RunsUnlessFile, reason_number};

use crate::room::{Limit, Room};
use crate::said::{Exited, refuse, tell};
use crate::words::arguments_of;
use dw_arguments::{BoardSize, DeskArgs};
use dw_board::{Board, Eight, Ten};
use dw_commands::Ending;
use dw_desk_commands::run_on;
use dw_notation::Reading;
use dw_solve::ByTrial;
use std::alloc::Global;

/// The program's name in its messages.
const PROGRAM: &str = "dw-desk";

/// Runs `dw-desk` with the words of a command line.
pub(crate) fn run_arguments<L: Limit>(
    alloc: Global,
    arguments: &[u8],
    input: &[u8],
    room: &mut Room<L>,
    message: &mut [u8],
) -> Exited
    requires { room.old.has_failed ≡ false }
    ensures answers { (ending : AnyEnding (Bor (List ℕ)))
        × (Refuses room.old.bytes.items room.new.bytes.items room.new.has_failed ending
        ⊎ DoesDesk input.now room.old.bytes.items room.new.bytes.items room.new.has_failed ending)
        × IsTold ending result.status (reason_number result.reason) result.message }
    ensures message { result.message ≤ length message.old }
{
    match arguments_of(alloc, PROGRAM, arguments) {
        Ok(words) => match DeskArgs::parse(alloc, words.as_slice()) {
            Ok(args) => tell(PROGRAM, &run(alloc, &args, input, room), message),
            Err(error) => refuse(PROGRAM, &error, room, message),
        },
        Err(error) => refuse(PROGRAM, &error, room, message),
    }
}

/// Runs the command on its board.
fn run<'a, L: Limit>(
    alloc: Global,
    args: &DeskArgs<'a>,
    input: &[u8],
    room: &mut Room<L>,
) -> Ending<&'a str>
    requires { room.old.has_failed ≡ false }
    ensures { Desks args.now input.now room.old.bytes.items room.new.bytes.items room.new.has_failed
        result }
{
    match args.board {
        BoardSize::Ten => run_from::<Ten, L>(alloc, args, input, room),
        BoardSize::Eight => run_from::<Eight, L>(alloc, args, input, room),
    }
}

/// Runs the command with the problems of the input. There are no files here.
fn run_from<'a, B: Board, L: Limit>(
    alloc: Global,
    args: &DeskArgs<'a>,
    input: &[u8],
    room: &mut Room<L>,
) -> Ending<&'a str>
    requires rows { (B.geometry.rows ≡ 10) ⊎ (B.geometry.rows ≡ 8) }
    requires room { room.old.has_failed ≡ false }
    ensures { RunsUnlessFile (DesksOn B.geometry args.now input.now room.old.bytes.items room.new.bytes.items
        room.new.has_failed result) args.now.file room.old.bytes.items room.new.bytes.items result }
{
    if let Some(path) = args.file {
        return Ending::NotOpened(path);
    }
    let mut source = Reading::new(input);
    run_on::<B, _, _, _>(alloc, ByTrial, args, &mut source, room)
}
