//! Playing a move.
ghost use Rattle.std.specs.Prelude.{◌≡◌};
ghost use Rattle.dw_moves.specs.Moves.{Legal};
ghost use Rattle.dw_moves.specs.Moves as of;

use crate::moves::Move;
use dw_board::{Board, Position};

/// Returns the position after a move, which must be legal. The piece leaves its square, and all pieces that it took
/// leave the board at once. On its last square it stands as a king, if it was a man and that is its last row. A man
/// that only passes its last row during a capture stays a man.
#[inline]
pub fn play<B: Board>(position: &Position<B>, mv: &Move<B>) -> Position<B>
    requires { Legal B.geometry position.now mv.now }
    ensures { result ≡ of.play B.geometry position.now mv.now }
{
    let mut after = position.carried(mv.from, mv.to, mv.taken);
    after.set_turn(position.turn().other());
    after
}
