//! `dw`: problems of international draughts.
#![tactic(auto)]

ghost use Rattle.std.specs.Prelude.{◌≡◌, Result, Err, [], false, true};
ghost use Rattle.dw_commands.specs.Ending.{ending_of};
ghost use Rattle.dw_notation.specs.Endpoints.{told_by, read_from, ends_met, has_read_failed};
ghost use Rattle.dw_notation.specs.Endpoints.{Holds, accepted_by, bytes_told, has_write_failed, written_to};
ghost use Rattle.dw_report.specs.Request.{request_of};
ghost use Rattle.dw_report.specs.Running.{Runs, StopsRightly};
ghost use Rattle.dw_report.specs.declared.settings.RunFault.{RunFault as AnyFault};
ghost use Rattle.dw_report.specs.declared.settings.RunFault.TheVariants as faults;
ghost use Rattle.dw_report.specs.declared.settings.Summary.{Summary};

use dw_arguments::{BoardSize, ReportArgs};
use dw_board::{Board, Eight, Ten};
use dw_commands::{Ending, Job};
use dw_notation::{Reading, Writing};
use dw_shell::{arguments, end_refused, end_with};
use std::alloc::Global;
use std::fs::File;
use std::io::{Read, Write};
use std::process::ExitCode;

/// The program's name in its messages.
const PROGRAM: &str = "dw";

fn main(rt: HostRuntime) -> ExitCode {
    let words = match arguments(&rt, PROGRAM) {
        Ok(words) => words,
        Err(error) => return end_refused(&rt, PROGRAM, &error),
    };
    match ReportArgs::parse(rt.alloc(), words.as_slice()) {
        Ok(args) => end_with(&rt, PROGRAM, &run(&rt, &args)),
        Err(error) => end_refused(&rt, PROGRAM, &error),
    }
}

/// Runs the command that the arguments ask for, on the board that they name.
fn run<'a>(rt: &HostRuntime, args: &ReportArgs<'a>) -> Ending<&'a str> {
    match args.board {
        BoardSize::Ten => run_on::<Ten>(rt, args),
        BoardSize::Eight => run_on::<Eight>(rt, args),
    }
}

/// Makes the report ready, and then opens the file.
fn run_on<'a, B: Board>(rt: &HostRuntime, args: &ReportArgs<'a>) -> Ending<&'a str> {
    let job = match Job::<B>::new(rt.alloc(), args) {
        Ok(job) => job,
        Err(ending) => return ending,
    };
    let ending = match args.file {
        None => report_on(rt, job, &mut rt.stdin()),
        Some(path) => match File::open(rt, path) {
            Ok(mut file) => report_on(rt, job, &mut file),
            Err(_) => return Ending::NotOpened(path),
        },
    };
    ending
}

/// Writes the report on the problems that the reader gives to standard output. A file and standard input are read
/// through the same code.
fn report_on<'a, B: Board>(
    rt: &HostRuntime,
    job: Job<B>,
    reader: &mut dyn Read,
) -> Ending<&'a str> {
    report_between(rt.alloc(), job, reader, rt.stdout()).ending
}

/// How a run ended, with its streams.
#[derive(Drop)]
struct Ended<'a, R, W: Write> {
    source: Reading<R>,
    sink: Writing<W>,
    ending: Ending<&'a str>,
}

/// Writes the report on the problems that the reader gives to the writer.
fn report_between<'a, B: Board, R: Read, W: Write>(
    alloc: Global,
    job: Job<B>,
    reader: R,
    writer: W,
) -> Ended<'a, R, W>
    ensures report { (ran : Result Summary AnyFault)
        × Runs B.geometry (request_of job.settings)
        (record { told = []; coming = R.remaining reader; ends = 0 })
        (record {
          told = told_by result.source;
          coming = R.remaining (read_from result.source);
          ends = ends_met result.source;
        }) (bytes_told (W.contents writer)) (accepted_by result.sink) ran
        × (ran ≡ Err faults.Read → has_read_failed result.source ≡ true)
        × (ran ≡ Err faults.Write → has_write_failed result.sink ≡ true)
        × StopsRightly job.settings.command 0 job.settings.limit ran
        × (result.ending ≡ ending_of ran job.settings.only) }
    ensures holds { Holds W.contents (written_to result.sink) (accepted_by result.sink) }
{
    let mut source = Reading::new(reader);
    let mut sink = Writing::new(writer);
    let ending = job.run(alloc, &mut source, &mut sink);
    sink.holds_what_it_accepted();
    Ended {
        source,
        sink,
        ending,
    }
}
