//! The verdict on a position at the least number of moves within which it is won, or at a given number.
ghost use Rattle.std.specs.Prelude.{◌≤◌, IfOk, IfSome};
ghost use Rattle.dw_memo.specs.Content.{IsMap};
ghost use Rattle.dw_solve.specs.Facts.{AreTrue};
ghost use Rattle.dw_study.specs.Finding.{IsFinding};
ghost use Rattle.dw_study.specs.Telling.{told_by, IsKnownInTime, Sought, StaysOpen};

use crate::finding::{FindBounds, Finding};
use crate::least::number_within;
use dw_board::{Board, Position};
use dw_memo::Memo;
use dw_solve::{Guide, Solver, Stop};
use dw_verdict::judge::judge;
use std::alloc::Global;

/// Finds whether the side to move wins within `bounds.moves` moves, and judges the position. If `bounds.is_least`, it
/// judges at the least number of moves within which there is a win. Without a win, and if not `bounds.is_least`, it
/// judges at `bounds.moves`. The answer is `Undecided` if it is not known after `bounds.each` expansions, at least 1,
/// whether there is a win, also if the solver's limit is met with the last of them. The verdict and the tries have no
/// limit but the solver's own, which stays the same. After a stop all bounds in the memo are right, and the call can be
/// repeated.
pub fn find<B: Board, M: Memo<B>, G: Guide<B>>(
    alloc: Global,
    solver: &mut Solver<B, M, G>,
    position: &Position<B>,
    bounds: FindBounds,
) -> Result<Finding<B>, Stop>
    requires room { IfSome bounds.each (λ bound. 1 ≤ bound) }
    ensures finding { IfOk result (λ finding. IsFinding B.geometry position.now bounds.is_least
        bounds.moves.value (told_by finding)) }
    ensures stays { StaysOpen M.content position.now bounds.each solver.old solver.new result }
    ensures known { IfOk result (IsKnownInTime B.geometry M.content M.dropped position.now bounds.moves.value
        bounds.each solver.old solver.new) }
    ensures sought { Sought B.geometry M.content M.dropped bounds.moves.value solver.old solver.new result }
    ensures right { AreTrue B.geometry (M.content solver.new.memo) }
    ensures map { IsMap (M.content solver.new.memo) }
{
    dw_solve::laws::searches_add_up();
    let start = solver.expanded();
    match number_within(alloc, solver, position, bounds) {
        Ok(reached) => {
            let moves = bounds.judged_at(reached);
            let judged = judge(alloc, solver, position, moves.value)?;
            Ok(Finding::Judged { moves, judged })
        }
        Err(cut) if cut.stop == Stop::Limit && bounds.each == Some(solver.expanded() - start) => {
            Ok(Finding::Undecided {
                no_win_in: cut.no_win_in,
            })
        }
        Err(cut) => Err(cut.stop),
    }
}
