//! `dw-desk`: a tool for composers, editors and judges of problems of international draughts.
#![tactic(auto)]

ghost use Rattle.std.specs.Prelude.{◌≡◌, ◌⊎◌, [], false};
ghost use Rattle.dw_desk_commands.specs.Commands.{Obeys};
ghost use Rattle.dw_desk_commands.specs.Ending.{FailsForCause};
ghost use Rattle.dw_notation.specs.Endpoints.{told_by, read_from, ends_met, has_read_failed};
ghost use Rattle.dw_notation.specs.Endpoints.{Holds, accepted_by, bytes_told, has_write_failed, written_to};

mod progress;

use dw_arguments::{BoardSize, DeskArgs};
use dw_board::{Board, Eight, Ten};
use dw_commands::Ending;
use dw_desk_commands::run_on;
use dw_notation::{Reading, Writing};
use dw_shell::{arguments, end_refused, end_with};
use dw_solve::{ByTrial, Watched, Watcher};
use progress::Progress;
use std::alloc::Global;
use std::fs::File;
use std::io::{IsTerminal, Read, Write};
use std::process::ExitCode;

/// The program's name in its messages.
const PROGRAM: &str = "dw-desk";

fn main(rt: HostRuntime) -> ExitCode {
    let words = match arguments(&rt, PROGRAM) {
        Ok(words) => words,
        Err(error) => return end_refused(&rt, PROGRAM, &error),
    };
    match DeskArgs::parse(rt.alloc(), words.as_slice()) {
        Ok(args) => end_with(&rt, PROGRAM, &run(&rt, &args)),
        Err(error) => end_refused(&rt, PROGRAM, &error),
    }
}

/// Runs the command on its board.
fn run<'a>(rt: &HostRuntime, args: &DeskArgs<'a>) -> Ending<&'a str> {
    match args.board {
        BoardSize::Ten => run_from::<Ten>(rt, args),
        BoardSize::Eight => run_from::<Eight>(rt, args),
    }
}

/// Runs the command with the problems of the file or of standard input.
fn run_from<'a, B: Board>(rt: &HostRuntime, args: &DeskArgs<'a>) -> Ending<&'a str>
    requires { (B.geometry.rows ≡ 10) ⊎ (B.geometry.rows ≡ 8) }
{
    match args.file {
        None => run_with::<B>(rt, args, &mut rt.stdin()),
        Some(path) => match File::open(rt, path) {
            Ok(mut file) => run_with::<B>(rt, args, &mut file),
            Err(_) => Ending::NotOpened(path),
        },
    }
}

/// Runs the command with the problems of the reader. A file and standard input share this code.
fn run_with<'a, B: Board>(
    rt: &HostRuntime,
    args: &DeskArgs<'a>,
    reader: &mut dyn Read,
) -> Ending<&'a str>
    requires { (B.geometry.rows ≡ 10) ⊎ (B.geometry.rows ≡ 8) }
{
    let is_shown = args.progress || rt.stderr().is_terminal();
    let progress = Progress::new(rt, is_shown);
    run_between::<B, _, _, _>(rt.alloc(), progress, args, reader, rt.stdout()).ending
}

/// How a command ended, with its streams.
#[derive(Drop)]
struct Ended<'a, R, W: Write> {
    source: Reading<R>,
    sink: Writing<W>,
    ending: Ending<&'a str>,
}

/// Runs the command with the problems that the reader gives, and writes to the writer.
fn run_between<'a, B: Board, P: Watcher + Drop, R: Read, W: Write>(
    alloc: Global,
    watcher: P,
    args: &DeskArgs<'a>,
    reader: R,
    writer: W,
) -> Ended<'a, R, W>
    requires { (B.geometry.rows ≡ 10) ⊎ (B.geometry.rows ≡ 8) }
    ensures obeys { Obeys B.geometry args.now
        (record { told = []; coming = R.remaining reader; ends = 0 })
        (record {
          told = told_by result.source;
          coming = R.remaining (read_from result.source);
          ends = ends_met result.source;
        }) (bytes_told (W.contents writer)) (accepted_by result.sink) result.ending }
    ensures fails { FailsForCause (has_read_failed result.source) (has_write_failed result.sink) result.ending }
    ensures holds { Holds W.contents (written_to result.sink) (accepted_by result.sink) }
{
    let mut source = Reading::new(reader);
    let mut sink = Writing::new(writer);
    let guide = Watched {
        guide: ByTrial,
        watcher,
    };
    let ending = run_on::<B, _, _, _>(alloc, guide, args, &mut source, &mut sink);
    sink.holds_what_it_accepted();
    Ended {
        source,
        sink,
        ending,
    }
}
