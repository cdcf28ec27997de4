//! The positions after all moves.
ghost use Rattle.std.specs.Prelude.{IfOk};
ghost use Rattle.dw_certificate.specs.inner.Rows.{AreAfter};

use dw_board::{Board, Position};
use dw_moves::legal::legal;
use dw_moves::play::play;
use std::alloc::{AllocError, Global};

/// Returns the positions after all moves, in the order of the moves.
pub(crate) fn positions_after<B: Board>(
    alloc: Global,
    position: &Position<B>,
) -> Result<Vec<Position<B>>, AllocError>
    ensures { IfOk result (λ list. AreAfter B.geometry position.now list.items) }
{
    let moves = legal(alloc, position)?;
    let mut list = Vec::new(alloc);
    'moves: for mv in moves.as_slice() {
        list.push(play(position, mv))?;
    }
    Ok(list)
}
