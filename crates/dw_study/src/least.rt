//! The least number of moves within which a position is won.
ghost use Rattle.std.specs.Prelude.{◌≡◌, ℕ, ◌≤◌, ◌<◌, ◌^◌, IfErr, IfOk, IfSome, min};
ghost use Rattle.dw_memo.specs.Content.{IsMap};
ghost use Rattle.dw_solve.specs.Certificates.{SaysLeast};
ghost use Rattle.dw_solve.specs.Facts.{AreTrue};
ghost use Rattle.dw_solve.specs.Questions.{LostNothing};
ghost use Rattle.dw_study.specs.inner.Looking.{IsLooked, LooksFor, lowered};

use crate::finding::FindBounds;
use crate::limits::{lower, raise};
use dw_board::{Board, Position};
use dw_memo::Memo;
use dw_solve::{Guide, Solver, Stop};
use dw_stipulation::MoveCount;
use std::alloc::Global;

/// The result of a search that was stopped.
#[derive(Clone, Copy)]
pub(crate) struct Cut {
    /// The greatest number of moves known to have no win.
    pub(crate) no_win_in: u8,
    /// Why the search for one more move was stopped.
    pub(crate) stop: Stop,
}

/// Returns the least number of moves up to `bounds.moves` within which there is a win, or that number if there is none,
/// if the expansions that `bounds` allow suffice to find it.
pub(crate) fn number_within<B: Board, M: Memo<B>, G: Guide<B>>(
    alloc: Global,
    solver: &mut Solver<B, M, G>,
    position: &Position<B>,
    bounds: FindBounds,
) -> Result<u8, Cut>
    requires room { IfSome bounds.each (λ bound. 1 ≤ bound) }
    ensures number { IsLooked B.geometry position.now bounds.moves.value result }
    ensures says { IfOk result (λ moves. LostNothing M.content M.dropped solver.old solver.new
        → SaysLeast (M.content solver.new.memo) position.now moves) }
    ensures known { IfErr result (λ cut. (j : ℕ) → SaysLeast (M.content solver.old.memo) position.now j
        → j ≤ cut.no_win_in) }
    ensures looks { LooksFor B.geometry M.content M.dropped (lowered bounds.each solver.old.limit solver.old.expanded)
        solver.old solver.new result }
    ensures right { AreTrue B.geometry (M.content solver.new.memo) }
    ensures map { IsMap (M.content solver.new.memo) }
{
    let until = count_after(solver.expanded(), bounds.each);
    let limit = lower(solver, until);
    let number = number(alloc, solver, position, bounds.moves);
    raise(solver, limit);
    solver.keeps_its_facts();
    number
}

/// Returns the count of expansions at which no more are allowed, or the greatest `u64` if any number is.
fn count_after(expanded: u64, each: Option<u64>) -> u64
    requires { IfSome each (λ bound. 1 ≤ bound) }
    ensures some { 1 ≤ result }
    ensures enough { expanded ≤ result }
    ensures limit { (limit : ℕ) → limit < 2 ^ 64 → min limit result ≡ lowered each limit expanded }
{
    match each {
        Some(bound) => expanded.saturating_add(bound),
        None => u64::MAX,
    }
}

/// Returns the least number of moves within which there is a win, or `most` if there is none, or how far a stopped
/// search came.
fn number<B: Board, M: Memo<B>, G: Guide<B>>(
    alloc: Global,
    solver: &mut Solver<B, M, G>,
    position: &Position<B>,
    most: MoveCount,
) -> Result<u8, Cut>
    ensures number { IsLooked B.geometry position.now most.value result }
    ensures says { IfOk result (λ moves. LostNothing M.content M.dropped solver.old solver.new
        → SaysLeast (M.content solver.new.memo) position.now moves) }
    ensures known { IfErr result (λ cut. (j : ℕ) → SaysLeast (M.content solver.old.memo) position.now j
        → j ≤ cut.no_win_in) }
    ensures looks { LooksFor B.geometry M.content M.dropped solver.old.limit solver.old solver.new result }
{
    dw_solve::laws::searches_add_up();
    solver.keeps_its_limit();
    'moves: for moves in 1..most.value + 1 {
        match solver.wins(alloc, position, moves) {
            Ok(true) => return Ok(moves),
            Ok(false) => {}
            Err(stop) => {
                return Err(Cut {
                    no_win_in: moves - 1,
                    stop,
                });
            }
        }
    }
    Ok(most.value)
}
