//! The number of moves at which a position is judged, and the bounds for its search.
ghost use Rattle.std.specs.Prelude.{◌≡◌, ◌≤◌, if◌then◌else◌};

use dw_board::Board;
use dw_stipulation::MoveCount;
use dw_verdict::Judged;

/// The bounds of a search for a win and its verdict.
#[derive(Clone, Copy, Debug, PartialEq, Eq)]
pub struct FindBounds {
    /// The number of moves within which a win is searched for.
    pub moves: MoveCount,
    /// Whether a position is judged at the least number of moves up to `moves` within which there is a win, and not at
    /// `moves` itself.
    pub is_least: bool,
    /// The most positions to expand until it is known whether there is a win, at least 1. `None` sets no bound.
    pub each: Option<u64>,
}

impl FindBounds {
    /// Returns the number of moves at which a position is judged whose search came to an end at `reached` moves.
    pub(crate) fn judged_at(self, reached: u8) -> MoveCount
        requires some { 1 ≤ reached }
        requires few { reached ≤ self.moves.value }
        ensures value { result.value ≡ if self.is_least then reached else self.moves.value }
        ensures more { reached ≤ result.value }
        ensures within { result.value ≤ self.moves.value }
    {
        if self.is_least {
            MoveCount { value: reached }
        } else {
            self.moves
        }
    }
}

/// The answer of `find`.
#[derive(Drop)]
pub enum Finding<B: Board> {
    /// It is known whether there is a win, and the position is judged.
    Judged {
        /// The number of moves at which it is judged.
        moves: MoveCount,
        /// The verdict and the tries at this number.
        judged: Judged<B>,
    },
    /// The allowed positions were expanded before it was known.
    Undecided {
        /// The greatest number of moves that the search found to have no win; 0 if it found none.
        no_win_in: u8,
    },
}
