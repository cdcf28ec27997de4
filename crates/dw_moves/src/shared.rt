//! Captures that begin and end on the same squares.
ghost use Rattle.std.specs.Prelude.{◌≡◌, ◌↔◌, IsTrue};
ghost use Rattle.dw_moves.specs.Moves.{SharesEnds};
ghost use Rattle.dw_moves.specs.inner.Walks.{IsTwin};

use crate::moves::Move;
use crate::seeker::{Aim, Seeker};
use crate::walk::walk_captures;
use dw_board::{Board, Position, Square};

/// Returns whether another legal capture has the start and the end of a move. Allocates nothing.
pub fn shares_ends<B: Board>(position: &Position<B>, mv: &Move<B>) -> bool
    ensures { IsTrue result ↔ SharesEnds B.geometry position.now mv.now }
{
    let twin = Twin { mv };
    let mut seeker = Seeker::of(&twin);
    match walk_captures(position, &mut seeker) {
        Ok(()) => seeker.found.is_some(),
    }
}

/// A test for other captures with the start and the end of a move.
#[derive(Drop)]
struct Twin<'a, B: Board> {
    mv: &'a Move<B>,
}

impl<'a, B: Board> Aim<B> for Twin<'a, B> {
    ghost is_met_by = { λ twin. IsTwin twin.mv.now };

    fn is_met(&self, mv: &Move<B>, path: &[Square<B>]) -> bool {
        has_ends_of(mv, self.mv) && *mv != *self.mv
    }
}

/// Returns whether a move begins and ends where another does.
fn has_ends_of<B: Board>(mv: &Move<B>, other: &Move<B>) -> bool
    ensures { IsTrue result ↔ (mv.now.from ≡ other.now.from) × (mv.now.to ≡ other.now.to) }
{
    mv.from == other.from && mv.to == other.to
}
