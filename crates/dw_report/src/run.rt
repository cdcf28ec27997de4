//! A run: bytes in, the report out.
ghost use Rattle.std.specs.Prelude.{◌≡◌, ◌+◌, ◌<◌, ◌≤◌, true, false, Err, [], ◌∷◌, IfOk, if◌then◌else◌};
ghost use Rattle.dw_notation.specs.Problems.{numbered};
ghost use Rattle.dw_solve.specs.Facts.{AreTrue};
ghost use Rattle.dw_solve.specs.Questions.{moment_of};
ghost use Rattle.dw_solve.specs.Searching.{IsCounted};
ghost use Rattle.dw_solve.specs.Work.{cut_off};
ghost use Rattle.dw_report.specs.Request.{number_is_chosen, request_of};
ghost use Rattle.dw_report.specs.Work.{SearchedAfresh, Works};
ghost use Rattle.dw_report.specs.Report.{chosen, IsReportOn};
ghost use Rattle.dw_report.specs.Running.{Runs, StopsRightly, TellsExpanded, IsPartOn};
ghost use Rattle.dw_report.specs.inner.Running.{TextEnds, SinkEnds, SearchesFor, CountsOne, IsSound, HasRoom};
ghost use Rattle.dw_report.specs.inner.Running.{ended_by};

use crate::problem::{TextFault, write_problem};
use crate::settings::{Command, RunFault, Settings, Summary};
use dw_board::Board;
use dw_memo::Memo;
use dw_notation::{Problem, Problems, Sink, Source};
use dw_solve::{Guide, Solver};
use std::alloc::Global;

/// Writes the report on the problems of the source: the whole text of each chosen problem, in order. One solver serves
/// the whole run, with the memo, whose bounds must be right. The settings must be within their ranges, and neither
/// stream may have failed before. The report depends neither on the memo nor on the guide. A list that is cut names the
/// token of its last line on boards of 10 and 8 rows; other boards have no tokens.
///
/// Reading ends at the end of the source, or after the requested problem. `Read` and `Write` come only if that stream
/// failed. After `Read` the sink has the whole texts of the chosen problems that ended before, and the requested
/// problem is none of these. After `Write` it has some beginning of the report. After `Stopped` it has the whole texts
/// of some chosen problems, the first line of the next, and whole lines of the rest of its text. `show` is never
/// stopped, and `moves` only for lack of memory. `Limit` comes only after as many expansions as the settings allow.
pub fn run<B: Board, S: Source, K: Sink, M: Memo<B> + Drop, G: Guide<B> + Drop>(
    alloc: Global,
    source: &mut S,
    sink: &mut K,
    settings: &Settings<B>,
    memo: M,
    guide: G,
) -> Result<Summary, RunFault>
    requires source { S.is_failed source.old ≡ false }
    requires sink { K.is_failed sink.old ≡ false }
    requires right { AreTrue B.geometry (M.content memo) }
    requires some { 1 ≤ settings.now.n }
    requires few { settings.now.n ≤ 20 }
    requires lines { 1 ≤ settings.now.lines }
    requires limit { 1 ≤ settings.now.limit }
    ensures report { Runs B.geometry (request_of settings.now) (S.supply source.old) (S.supply source.new)
        (K.accepted sink.old) (K.accepted sink.new) result }
    ensures read { result ≡ Err RunFault.Read → S.is_failed source.new ≡ true }
    ensures write { result ≡ Err RunFault.Write → K.is_failed sink.new ≡ true }
    ensures stopped { StopsRightly settings.now.command 0 settings.now.limit result }
{
    let mut solver = Solver::new(memo, guide, settings.limit);
    run_with(alloc, source, sink, settings, &mut solver)
}

/// Writes the report as `run` does, with a solver of the caller's. The solver's limit holds, and not that of the
/// settings. A stop tells how many positions the solver has expanded, so a run cannot end at a limit that its solver
/// has not reached.
pub fn run_with<B: Board, S: Source, K: Sink, M: Memo<B>, G: Guide<B>>(
    alloc: Global,
    source: &mut S,
    sink: &mut K,
    settings: &Settings<B>,
    solver: &mut Solver<B, M, G>,
) -> Result<Summary, RunFault>
    requires source { S.is_failed source.old ≡ false }
    requires sink { K.is_failed sink.old ≡ false }
    requires some { 1 ≤ settings.now.n }
    requires few { settings.now.n ≤ 20 }
    requires lines { 1 ≤ settings.now.lines }
    ensures report { Runs B.geometry (request_of settings.now) (S.supply source.old) (S.supply source.new)
        (K.accepted sink.old) (K.accepted sink.new) result }
    ensures read { result ≡ Err RunFault.Read → S.is_failed source.new ≡ true }
    ensures write { result ≡ Err RunFault.Write → K.is_failed sink.new ≡ true }
    ensures stopped { StopsRightly settings.now.command solver.old.expanded solver.old.limit result }
    ensures expanded { TellsExpanded solver.new.expanded result }
    ensures count { IsCounted solver.old.expanded solver.old.limit solver.new.expanded solver.new.limit }
    ensures works { settings.now.command ≡ Command.Judge → Works B.geometry M.keeps settings.now.only settings.now.n
        (cut_off result settings.now.n) (moment_of M.content M.dropped solver.old)
        (moment_of M.content M.dropped solver.new) }
{
    crate::laws::one_report();
    dw_solve::laws::searches_add_up();
    solver.keeps_its_limit();
    let mut problems = Problems::<B, S>::new(source, settings.form);
    let mut summary = Summary::default();
    'problems: loop {
        match problems.next() {
            Err(_) => return Err(RunFault::Read),
            Ok(None) => return Ok(summary),
            Ok(Some(problem)) => {
                match report_problem(alloc, sink, solver, settings, &problem, summary) {
                    Err(fault) => return Err(ended(fault, solver.expanded())),
                    Ok(counted) => summary = counted,
                }
                if settings.asks_for(problem.number) {
                    return Ok(summary);
                }
            }
        }
    }
}

/// Returns the fault of a run that did not write a text to its end, after `expanded` expansions.
fn ended(fault: TextFault, expanded: u64) -> RunFault
    ensures { result ≡ ended_by fault expanded }
{
    match fault {
        TextFault::Stopped(why) => RunFault::Stopped { why, expanded },
        TextFault::Sink => RunFault::Write,
    }
}

/// Writes the text of a problem if it is chosen, and returns the summary with the problem counted.
fn report_problem<B: Board, K: Sink, M: Memo<B>, G: Guide<B>>(
    alloc: Global,
    sink: &mut K,
    solver: &mut Solver<B, M, G>,
    settings: &Settings<B>,
    problem: &Problem<B>,
    summary: Summary,
) -> Result<Summary, TextFault>
    requires works { K.is_failed sink.old ≡ false }
    requires sound { IsSound B.geometry (request_of settings.now) }
    requires room { HasRoom summary }
    ensures text { TextEnds (IsReportOn B.geometry (request_of settings.now) (numbered problem.now ∷ []))
        (IsPartOn B.geometry (request_of settings.now) problem.now.number (numbered problem.now ∷ []))
        (K.accepted sink.old) (K.accepted sink.new) result }
    ensures sink { SinkEnds (K.is_failed sink.old) (K.is_failed sink.new) result }
    ensures searches { SearchesFor settings.now.command solver.old solver.new result }
    ensures works { settings.now.command ≡ Command.Judge → SearchedAfresh B.geometry M.keeps settings.now.n
        (cut_off result settings.now.n) (moment_of M.content M.dropped solver.old)
        (moment_of M.content M.dropped solver.new) }
    ensures other { number_is_chosen settings.now.only problem.now.number ≡ false → solver.new ≡ solver.old }
    ensures counts { IfOk result (λ counted.
        CountsOne B.geometry (request_of settings.now) summary counted (numbered problem.now)) }
{
    dw_solve::laws::searches_add_up();
    solver.keeps_its_limit();
    let read = Summary {
        problems: summary.problems + 1,
        ..summary
    };
    if !settings.chooses(problem.number) {
        return Ok(read);
    }
    let refused = write_problem(alloc, sink, solver, settings, problem)?;
    Ok(with_shown(read, refused))
}

/// Returns the summary with one more problem reported.
fn with_shown(summary: Summary, is_refused: bool) -> Summary
    requires room { summary.problems < 4000001 }
    requires shown { summary.shown < summary.problems }
    requires refused { summary.refused ≤ summary.shown }
    ensures { result ≡ record summary {
      shown = summary.shown + 1;
      refused = if is_refused then summary.refused + 1 else summary.refused;
    } }
{
    let refused = if is_refused {
        summary.refused + 1
    } else {
        summary.refused
    };
    Summary {
        shown: summary.shown + 1,
        refused,
        ..summary
    }
}
