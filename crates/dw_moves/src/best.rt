//! The greatest number of pieces that can be taken, and the end squares of those captures.
ghost use Rattle.std.specs.Prelude.{◌≡◌, ◌≤◌};
ghost use Rattle.dw_moves.specs.Moves.{AreEnds, IsBest};
ghost use Rattle.dw_moves.specs.inner.Walks.{EndsKept, Held, These};

use crate::keeper::Keeper;
use crate::moves::Move;
use crate::walk::walk_captures;
use dw_board::{Board, Position, Square, Squares};
use std::convert::Infallible;

/// Returns the greatest number of pieces that the side to move can take in one move, 0 to 20. A king counts as one
/// piece.
///
/// A man captures an adjacent enemy, forward or backward, if the next square is empty, and lands there. A king captures
/// the one enemy on a diagonal with only empty squares before it and an empty square after it, and lands on any empty
/// square up to the next piece. The capture goes on with the same piece. The square that it left counts as empty.
/// Jumped pieces stay until the end and are not jumped twice.
pub fn best<B: Board>(position: &Position<B>) -> u8
    ensures value { IsBest B.geometry position.now result }
    ensures small { result ≤ 20 }
{
    best_captures(position).pieces
}

/// The number of pieces that the legal captures take, and the squares on which they end.
#[derive(Drop)]
pub struct BestCaptures<B: Board> {
    /// The number of pieces that each takes, at most 20; 0 if nothing can be taken.
    pub pieces: u8,
    /// The squares on which they end.
    pub ends: Squares<B>,
}

/// Returns the number of pieces that the legal captures take, and the squares on which they end. Allocates nothing.
pub fn best_captures<B: Board>(position: &Position<B>) -> BestCaptures<B>
    ensures pieces { IsBest B.geometry position.now result.pieces }
    ensures small { result.pieces ≤ 20 }
    ensures ends { AreEnds B.geometry position.now result.ends }
{
    let mut best = BestCaptures {
        pieces: 0,
        ends: Squares::none(),
    };
    match walk_captures(position, &mut best) {
        Ok(()) => best,
    }
}

impl<B: Board> Keeper<B> for BestCaptures<B> {
    type Fault = Infallible;

    ghost holds = { λ first xs k. Held (These xs) k.pieces (EndsKept (These xs) k.pieces k.ends) };

    ghost is_on = { λ k path. Unit {0} };

    fn begin(&mut self, from: &Square<B>) {}

    fn enter(&mut self, landing: &Square<B>) {}

    fn leave(&mut self) {}

    fn offer(&mut self, mv: &Move<B>, count: u8) -> Result<(), Infallible> {
        if count < self.pieces {
            return Ok(());
        }
        if self.pieces < count {
            self.pieces = count;
            self.ends = Squares::none();
        }
        self.ends = self.ends.with(mv.to);
        Ok(())
    }
}
