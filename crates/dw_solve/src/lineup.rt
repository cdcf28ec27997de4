//! Moves for a caller, in the order of a solver's guide.
ghost use Rattle.std.specs.Prelude.{◌≡◌, []};

use crate::ply::Ply;
use dw_board::Board;
use dw_moves::Move;
use std::alloc::Global;
use std::marker::Model;

/// The legal moves of one position with their ranks, the lowest rank first. `Solver::line_up` fills it, and reuses its
/// memory.
#[derive(Drop)]
pub struct Lineup<B: Board> {
    pub(crate) ply: Ply<B>,
}

impl<B: Board> Model for Lineup<B> {
    ghost use Rattle.std.specs.Prelude.{ℕ, List};
    ghost use Rattle.std.specs.Coded.{coded×, coded_list, coded_ℕ};
    ghost use Rattle.dw_moves.specs.Moves.{Move, move_code};

    ghost Value = { List (ℕ × Move) };

    ghost coded = { coded_list (coded× coded_ℕ move_code) };

    ghost view = { λ l. l.ply.ranked.items };
}

impl<B: Board> Lineup<B> {
    /// Returns an empty list. Allocates nothing.
    pub fn new(alloc: Global) -> Self
        ensures { result ≡ [] }
    {
        Lineup {
            ply: Ply::new(alloc),
        }
    }

    /// Returns the moves with their ranks, the lowest rank first.
    pub fn moves(&self) -> &[(u32, Move<B>)]
        ensures { result.now ≡ self.now }
    {
        self.ply.ranked.as_slice()
    }
}
