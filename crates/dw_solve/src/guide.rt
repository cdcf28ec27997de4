//! The order in which a search goes through moves.
ghost use Rattle.std.specs.Prelude.{◌≡◌};
ghost use Rattle.dw_moves.specs.Moves.{Legal, play};
ghost use Rattle.dw_solve.specs.Trial.{IsCaptureRank, IsRankByTrial, IsTrial};

use crate::trial::{freedom, trial};
use crate::watcher::Watcher;
use dw_board::{Board, Position};
use dw_moves::Move;
use dw_moves::best::best_captures;
use dw_moves::play::play as played;

/// Ranks moves: those of a lower rank are tried first, if they leave the attacker two further moves or more. With
/// fewer, a search goes by orders of its own, which cost less than ranks. No answer depends on it. A guide is a watcher
/// too.
pub trait Guide<B: Board>: Watcher {
    /// Returns the rank of a legal move.
    fn rank(&self, position: &Position<B>, mv: &Move<B>) -> u32
        requires { Legal B.geometry position.now mv.now };

    /// Returns a cheaper rank, for moves of the attacker, and for replies if he has two moves left. By default it is
    /// the rank.
    fn quick_rank(&self, position: &Position<B>, mv: &Move<B>) -> u32
        requires { Legal B.geometry position.now mv.now }
    {
        self.rank(position, mv)
    }

    /// Returns the rank of a legal move, after which the position must be `_after`. A guide that ranks by that position
    /// need not play the move again.
    fn rank_reached(&self, position: &Position<B>, mv: &Move<B>, _after: &Position<B>) -> u32
        requires legal { Legal B.geometry position.now mv.now }
        requires reached { _after.now ≡ play B.geometry position.now mv.now }
    {
        self.rank(position, mv)
    }

    /// Returns the quick rank of a legal move, after which the position must be `_after`.
    fn quick_rank_reached(&self, position: &Position<B>, mv: &Move<B>, _after: &Position<B>) -> u32
        requires legal { Legal B.geometry position.now mv.now }
        requires reached { _after.now ≡ play B.geometry position.now mv.now }
    {
        self.quick_rank(position, mv)
    }
}

/// Moves come in any order.
#[derive(Clone, Copy, Debug, Default)]
pub struct AnyOrder;

impl Watcher for AnyOrder {}

impl<B: Board> Guide<B> for AnyOrder {
    fn rank(&self, _position: &Position<B>, _mv: &Move<B>) -> u32
        ensures { result ≡ 0 }
    {
        0
    }
}

/// The weight in a rank of a quiet move, or of a square on which a capture ends.
const PER_CHOICE: u32 = 2;

/// The weight in a rank of each taken piece after the first. With this a search expands the fewest positions of all
/// that were tried.
const PER_PIECE: u32 = 3;

/// Moves that leave the other side less choice come first. The rank is twice the `trial` of the move. If that is 0, and
/// so the other side must capture or has no move, the rank is twice the number of squares on which a capture ends, and
/// 3 more for each piece after the first that it takes.
#[derive(Clone, Copy, Debug, Default)]
pub struct ByTrial;

impl Watcher for ByTrial {}

impl<B: Board> Guide<B> for ByTrial {
    fn rank(&self, position: &Position<B>, mv: &Move<B>) -> u32
        requires { Legal B.geometry position.now mv.now }
        ensures { IsRankByTrial B.geometry (play B.geometry position.now mv.now) result }
    {
        rank_by_trial(&played(position, mv))
    }

    fn rank_reached(&self, _position: &Position<B>, _mv: &Move<B>, after: &Position<B>) -> u32
        ensures { IsRankByTrial B.geometry after.now result }
    {
        rank_by_trial(after)
    }

    fn quick_rank(&self, position: &Position<B>, mv: &Move<B>) -> u32
        requires { Legal B.geometry position.now mv.now }
        ensures { IsTrial B.geometry (play B.geometry position.now mv.now) result }
    {
        trial(position, mv)
    }

    fn quick_rank_reached(&self, _position: &Position<B>, _mv: &Move<B>, after: &Position<B>) -> u32
        ensures { IsTrial B.geometry after.now result }
    {
        freedom(after)
    }
}

/// Returns the rank of a move that leads to this position.
fn rank_by_trial<B: Board>(after: &Position<B>) -> u32
    ensures { IsRankByTrial B.geometry after.now result }
{
    let counted = freedom(after);
    if counted == 0 {
        capture_rank(after)
    } else {
        PER_CHOICE * counted
    }
}

/// Returns the rank by the captures of the side to move.
fn capture_rank<B: Board>(position: &Position<B>) -> u32
    ensures { IsCaptureRank B.geometry position.now result }
{
    let best = best_captures(position);
    let more = best.pieces.saturating_sub(1);
    PER_CHOICE * u32::from(best.ends.count()) + PER_PIECE * u32::from(more)
}
