//! The command `moves`: the effect of each first move of a problem.
ghost use Rattle.std.specs.Prelude.{◌≡◌, ◌≤◌, ◌++◌, ⊤, if◌then◌else◌, not, IfOk, IsErrOf};
ghost use Rattle.std.specs.String.{string_bytes};
ghost use Rattle.dw_desk_commands.specs.Moves.{IsFirstMovesLine, IsMovesOf, SaysFirstMoves};
ghost use Rattle.dw_desk_commands.specs.ProblemText.{IsProblemText};
ghost use Rattle.dw_desk_commands.specs.inner.Faults.{FailsForMemory};
ghost use Rattle.dw_first_moves.specs.FirstMoves.{AreFirstMoves};
ghost use Rattle.dw_games.specs.Games.{problem_of};
ghost use Rattle.dw_commands.specs.declared.ending.Ending.TheVariants.{Done, Refused};
ghost use Rattle.dw_notation.specs.Problems.{numbered};
ghost use Rattle.dw_report.specs.Report.{first_line};
ghost use Rattle.dw_solve.specs.declared.stop.Stop.TheVariants.{Limit};

use crate::desk::Desk;
use crate::reporting::MakesText;
use dw_arguments::MovesArgs;
use dw_board::{Board, Position};
use dw_commands::Ending;
use dw_first_moves::first_moves::first_moves;
use dw_first_moves::{FirstMoves, first_moves_text};
use dw_games::Game;
use dw_notation::Problem;
use dw_parts::Part;
use dw_report::{Stop, refused_line};
use dw_rows::first_moves_row;
use dw_solve::Guide;

impl<B: Board, E> MakesText<B, Ending<E>> for MovesArgs {
    ghost says = { λ query expanded game.
        IsMovesOf B.geometry query (problem_of game) };

    ghost is_headed = { λ query. not query.json };

    ghost may_answer = { FailsForMemory };

    ghost counts_on = { ⊤ };

    fn has_heading(&self) -> bool {
        !self.json
    }

    /// Makes the effects of the first moves of a problem, and returns how the program ends.
    fn text_of<G: Guide<B>>(
        &self,
        desk: &mut Desk<B, G>,
        game: &Game<B>,
    ) -> Result<(Vec<u8>, Ending<E>), Stop> {
        if self.json {
            let (row, is_refused) = row_of(desk, self, &game.problem)?;
            Ok((row.into_bytes(), ending_if(is_refused)))
        } else {
            let (words, is_refused) = words_of(desk, self, &game.problem)?;
            Ok((words.into_bytes(), ending_if(is_refused)))
        }
    }
}

/// Returns how the program ends after a problem.
fn ending_if<E>(is_refused: bool) -> Ending<E>
    ensures { result ≡ (if is_refused then Refused else Done) }
{
    if is_refused {
        Ending::Refused
    } else {
        Ending::Done
    }
}

/// Makes the text after the first line of a problem: the effects of its first moves. Returns whether it is refused.
fn words_of<B: Board, G: Guide<B>>(
    desk: &mut Desk<B, G>,
    query: &MovesArgs,
    problem: &Problem<B>,
) -> Result<(String, bool), Stop>
    ensures text { IfOk result (λ told. IsProblemText B.geometry
        (SaysFirstMoves B.geometry query.now.n.value query.now.part query.now.parts) (numbered problem.now) told.1
        (first_line B.geometry (numbered problem.now) ++ string_bytes told.0)) }
    ensures counts { desk.old.solver.expanded ≤ desk.new.solver.expanded }
    ensures stop { IsErrOf result Limit → desk.new.solver.expanded ≡ u64.MAX }
{
    let Ok(position) = &problem.found else {
        return Ok((String::new(desk.alloc), true));
    };
    let found = searched(desk, query, problem.number, position)?;
    Ok((first_moves_text(desk.alloc, &found)?, false))
}

/// Makes the row of a problem, and returns whether it is refused.
fn row_of<B: Board, G: Guide<B>>(
    desk: &mut Desk<B, G>,
    query: &MovesArgs,
    problem: &Problem<B>,
) -> Result<(String, bool), Stop>
    ensures row { IfOk result (λ told. IsFirstMovesLine B.geometry query.now.n.value query.now.part query.now.parts
        problem.now.number problem.now.found told.1 (string_bytes told.0)) }
    ensures counts { desk.old.solver.expanded ≤ desk.new.solver.expanded }
    ensures stop { IsErrOf result Limit → desk.new.solver.expanded ≡ u64.MAX }
{
    let number = problem.number;
    match &problem.found {
        Ok(position) => {
            let found = searched(desk, query, number, position)?;
            let line = first_moves_row(desk.alloc, number, query.n.value, &found)?;
            Ok((line, false))
        }
        Err(fault) => Ok((refused_line(desk.alloc, number, *fault)?, true)),
    }
}

/// Searches for the effects of the first moves of a position.
fn searched<B: Board, G: Guide<B>>(
    desk: &mut Desk<B, G>,
    query: &MovesArgs,
    number: u32,
    position: &Position<B>,
) -> Result<FirstMoves<B>, Stop>
    ensures start { IfOk result (λ found. found.start ≡ position.now) }
    ensures effects { IfOk result (λ found. AreFirstMoves B.geometry position.now query.now.n.value query.now.part
        query.now.parts found.effects) }
    ensures counts { desk.old.solver.expanded ≤ desk.new.solver.expanded }
    ensures stop { IsErrOf result Limit → desk.new.solver.expanded ≡ u64.MAX }
{
    let part = Part {
        number: query.part,
        parts: query.parts,
    };
    desk.begin(number);
    first_moves(desk.alloc, &mut desk.solver, position, query.n, part)
}
