//! A guess at how good a move is.
ghost use Rattle.std.specs.Prelude.{◌≤◌};
ghost use Rattle.dw_moves.specs.Moves.{Legal, play};
ghost use Rattle.dw_solve.specs.Trial.{IsTrial};

use dw_board::{Board, Position};
use dw_moves::play::play as played;
use dw_moves::{Move, count_if_quiet};

/// Returns how free the other side is after a legal move: the number of its quiet moves, at most 400, or 0 if it must
/// capture. A move that leaves less freedom is worth trying first.
pub fn trial<B: Board>(position: &Position<B>, mv: &Move<B>) -> u32
    requires { Legal B.geometry position.now mv.now }
    ensures value { IsTrial B.geometry (play B.geometry position.now mv.now) result }
    ensures small { result ≤ 400 }
{
    freedom(&played(position, mv))
}

/// Returns how free the side to move is: the number of its quiet moves, at most 400, or 0 if it must capture.
#[inline]
pub(crate) fn freedom<B: Board>(position: &Position<B>) -> u32
    ensures value { IsTrial B.geometry position.now result }
    ensures small { result ≤ 400 }
{
    count_if_quiet(position).unwrap_or(0)
}
