//! The capture with a given path.
ghost use Rattle.std.specs.Prelude.{◌≡◌, ◌↔◌, Some, IfSome, IsTrue};
ghost use Rattle.dw_moves.specs.Moves as of;
ghost use Rattle.dw_moves.specs.Moves.{Legal};
ghost use Rattle.dw_moves.specs.Order.{IsPathFor};
ghost use Rattle.dw_moves.specs.inner.Walks.{Along};

use crate::moves::Move;
use crate::seeker::{Aim, Seeker};
use crate::walk::walk_captures;
use dw_board::{Board, Position, Square};

/// Returns the legal capture that can be made along this path, start first, or `None` if there is none. The path need
/// not be the least one of the capture.
pub fn follow<B: Board>(position: &Position<B>, squares: &[Square<B>]) -> Option<Move<B>>
    ensures path { (m : of.Move) → (result ≡ Some m) ↔ IsPathFor B.geometry position.now m squares.now }
    ensures legal { IfSome result (Legal B.geometry position.now) }
{
    let route = Route { squares };
    let mut seeker = Seeker::of(&route);
    match walk_captures(position, &mut seeker) {
        Ok(()) => seeker.found,
    }
}

/// The path that a capture must be made along.
#[derive(Drop)]
struct Route<'a, B: Board> {
    squares: &'a [Square<B>],
}

impl<'a, B: Board> Aim<B> for Route<'a, B> {
    ghost is_met_by = { λ route. Along route.squares.now };

    fn is_met(&self, mv: &Move<B>, path: &[Square<B>]) -> bool {
        is_same(path, self.squares)
    }
}

/// Returns whether two lists of squares are equal.
fn is_same<'a, B: Board>(a: &'a [Square<B>], b: &'a [Square<B>]) -> bool
    ensures { IsTrue result ↔ (a.now ≡ b.now) }
{
    a == b
}
