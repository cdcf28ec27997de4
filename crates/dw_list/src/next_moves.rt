//! The moves with which lines go on.
ghost use Rattle.std.specs.Prelude.{◌≡◌, ◌≤◌, ◌↔◌, IfOk, IsTrue};
ghost use Rattle.dw_list.specs.inner.Ways.{Keeps, left_after};
ghost use Rattle.dw_solve.specs.Questions.{Asked};

use dw_board::{Board, Position};
use dw_memo::Memo;
use dw_moves::has_move;
use dw_solve::{Guide, Solver, Stop};
use std::alloc::Global;

/// Returns whether lines go on with a legal move that leads to this position: with each of the defender's, and with
/// each of the attacker's that keeps a win within the `left` moves that he has left, which must be at most 20.
pub(crate) fn keeps<B: Board, M: Memo<B>, G: Guide<B>>(
    alloc: Global,
    solver: &mut Solver<B, M, G>,
    after: &Position<B>,
    attacks: bool,
    left: u8,
) -> Result<bool, Stop>
    requires { left ≤ 20 }
    ensures answer { IfOk result (λ yes. IsTrue yes ↔ Keeps B.geometry attacks after.now left) }
    ensures asked { Asked B.geometry M.content M.dropped left solver.old solver.new result }
{
    solver.keeps_its_limit();
    if !attacks {
        return Ok(true);
    }
    if left == 0 {
        return Ok(!has_move(after));
    }
    if left == 1 && solver.dropped() > 0 {
        return solver.loses_last(alloc, after);
    }
    solver.loses(alloc, after, left)
}

/// Returns the number of moves that the attacker has left after a move of his or of the defender.
pub(crate) fn left_behind(attacks: bool, moves: u8) -> u8
    ensures { result ≡ left_after attacks moves }
{
    if attacks {
        moves.saturating_sub(1)
    } else {
        moves
    }
}

/// Returns whether a side can have a move in a line: the attacker has none if he has no moves left.
pub(crate) fn may_move(attacks: bool, moves: u8) -> bool
    ensures { IsTrue result ↔ (IsTrue attacks → 1 ≤ moves) }
{
    !attacks || moves > 0
}
