//! The text of a problem, written line by line.
ghost use Rattle.std.specs.Prelude.{◌≡◌, ◌↔◌, false, Ok, Err, IfOk, IsTrue};
ghost use Rattle.dw_notation.specs.Problems.{numbered};
ghost use Rattle.dw_report.specs.Request.{request_of};
ghost use Rattle.dw_report.specs.Report.{IsProblemText, IsMovesText};
ghost use Rattle.dw_report.specs.declared.problem.TextFault.TheVariants as because;
ghost use Rattle.dw_solve.specs.declared.stop.Stop.TheVariants as stops;
ghost use Rattle.dw_report.specs.inner.Running.{IsProblemPart};
ghost use Rattle.dw_report.specs.Running.{AreLinesOf, IsRefused};
ghost use Rattle.dw_report.specs.inner.Running.{TextEnds, SinkEnds, SearchesFor, IsRest, IsSound};
ghost use Rattle.dw_report.specs.Running.{IsNoLine};
ghost use Rattle.dw_report.specs.Work.{SearchedAfresh};
ghost use Rattle.dw_solve.specs.Questions.{moment_of};
ghost use Rattle.dw_solve.specs.Work.{cut_off};

use crate::json_rows::{moves_row, refused_line, shown_row, write_row};
use crate::judged::write_judged;
use crate::listing::write_lines;
use crate::settings::{Command, Settings};
use crate::text::{count_line, known_text, move_line};
use dw_board::{Board, Position};
use dw_memo::Memo;
use dw_moves::best::best;
use dw_moves::listed::listed;
use dw_notation::{Problem, Sink, WriteFault, write_all};
use dw_solve::{Guide, Solver, Stop};
use std::alloc::{AllocError, Global};
use thiserror::Error;

/// Why a text was not written to its end.
#[derive(Clone, Copy, Debug, PartialEq, Eq, Error)]
pub(crate) enum TextFault {
    /// Memory was refused, or the search was stopped.
    #[error("stopped: {0}")]
    Stopped(Stop),
    /// The sink failed.
    #[error("write failed")]
    Sink,
}

impl From<AllocError> for TextFault {
    ghost from_gives = { λ _ fault. fault ≡ because.Stopped stops.Memory };

    fn from(_refused: AllocError) -> TextFault {
        TextFault::Stopped(Stop::Memory)
    }
}

impl From<Stop> for TextFault {
    ghost from_gives = { λ stop fault. fault ≡ because.Stopped stop };

    fn from(stop: Stop) -> TextFault {
        TextFault::Stopped(stop)
    }
}

impl From<WriteFault> for TextFault {
    ghost from_gives = { λ _ fault. fault ≡ because.Sink };

    fn from(_failed: WriteFault) -> TextFault {
        TextFault::Sink
    }
}

/// Writes the text of a problem. The first write has everything known at once: the first line, and the diagram of a
/// position that is shown. The command adds the rest, each line as soon as it is known; a line of a list may wait for
/// those that come soon after it. A row is made whole, and then written. Returns whether the problem was refused, or
/// the line after which its lines are listed.
///
/// After a stop the sink has its first line, if it has one, and whole lines of the rest.
pub(crate) fn write_problem<B: Board, K: Sink, M: Memo<B>, G: Guide<B>>(
    alloc: Global,
    sink: &mut K,
    solver: &mut Solver<B, M, G>,
    settings: &Settings<B>,
    problem: &Problem<B>,
) -> Result<bool, TextFault>
    requires works { K.is_failed sink.old ≡ false }
    requires sound { IsSound B.geometry (request_of settings.now) }
    ensures text { TextEnds (IsProblemText B.geometry (request_of settings.now) (numbered problem.now))
        (IsProblemPart B.geometry (request_of settings.now) (numbered problem.now)) (K.accepted sink.old)
        (K.accepted sink.new) result }
    ensures sink { SinkEnds (K.is_failed sink.old) (K.is_failed sink.new) result }
    ensures searches { SearchesFor settings.now.command solver.old solver.new result }
    ensures works { settings.now.command ≡ Command.Judge → SearchedAfresh B.geometry M.keeps settings.now.n
        (cut_off result settings.now.n) (moment_of M.content M.dropped solver.old)
        (moment_of M.content M.dropped solver.new) }
    ensures refused { IfOk result (λ refused. IsTrue refused
        ↔ IsRefused B.geometry (request_of settings.now) (numbered problem.now).found) }
{
    crate::laws::one_report();
    dw_solve::laws::searches_add_up();
    solver.keeps_its_limit();
    let known = known_text(problem, settings.command);
    write_all(sink, known.as_str().as_bytes())?;
    match &problem.found {
        Ok(position) => write_rest(alloc, sink, solver, settings, problem.number, position),
        Err(fault) => {
            if settings.command.writes_rows() {
                write_row(sink, refused_line(alloc, problem.number, *fault), true)
            } else {
                Ok(true)
            }
        }
    }
}

/// Writes the text of the command except a diagram. Returns whether the line after which lines are listed was refused.
/// Before a search the solver is told that another problem begins.
fn write_rest<B: Board, K: Sink, M: Memo<B>, G: Guide<B>>(
    alloc: Global,
    sink: &mut K,
    solver: &mut Solver<B, M, G>,
    settings: &Settings<B>,
    number: u32,
    position: &Position<B>,
) -> Result<bool, TextFault>
    requires works { K.is_failed sink.old ≡ false }
    requires sound { IsSound B.geometry (request_of settings.now) }
    ensures text { TextEnds (IsRest B.geometry (request_of settings.now) number position.now)
        (AreLinesOf (IsRest B.geometry (request_of settings.now) number position.now)) (K.accepted sink.old)
        (K.accepted sink.new) result }
    ensures sink { SinkEnds (K.is_failed sink.old) (K.is_failed sink.new) result }
    ensures searches { SearchesFor settings.now.command solver.old solver.new result }
    ensures works { settings.now.command ≡ Command.Judge → SearchedAfresh B.geometry M.keeps settings.now.n
        (cut_off result settings.now.n) (moment_of M.content M.dropped solver.old)
        (moment_of M.content M.dropped solver.new) }
    ensures refused { IfOk result (λ refused. IsTrue refused
        ↔ (settings.now.command ≡ Command.List)
        × IsNoLine B.geometry position.now settings.now.n (request_of settings.now).after) }
{
    crate::laws::one_report();
    dw_solve::laws::searches_add_up();
    solver.keeps_its_limit();
    match settings.command {
        Command::Show => Ok(false),
        Command::ShowRow => write_row(sink, shown_row(alloc, number, position), false),
        Command::Moves => {
            write_moves(alloc, sink, position)?;
            Ok(false)
        }
        Command::MovesRow => write_row(sink, moves_row(alloc, number, position), false),
        Command::Judge => {
            solver.forget();
            write_judged(alloc, sink, solver, position, settings.n)?;
            Ok(false)
        }
        Command::List => {
            solver.forget();
            write_lines(alloc, sink, solver, settings, position)
        }
    }
}

/// Writes the lines of all legal moves in order, and their count. It stops only if out of memory.
fn write_moves<B: Board, K: Sink>(
    alloc: Global,
    sink: &mut K,
    position: &Position<B>,
) -> Result<(), TextFault>
    ensures text { TextEnds (IsMovesText B.geometry position.now) (AreLinesOf (IsMovesText B.geometry position.now))
        (K.accepted sink.old) (K.accepted sink.new) result }
    ensures sink { SinkEnds (K.is_failed sink.old) (K.is_failed sink.new) result }
    ensures memory { (why : Stop) → result ≡ Err (because.Stopped why) → why ≡ stops.Memory }
{
    dw_moves::laws::moves_in_order();
    let taken = best(position);
    let list = listed(alloc, position)?;
    let moves = list.as_slice();
    'moves: for place in 0..moves.len() {
        write_all(sink, move_line(position, moves, place).as_str().as_bytes())?;
    }
    write_all(sink, count_line(moves.len(), taken).as_str().as_bytes())?;
    Ok(())
}
