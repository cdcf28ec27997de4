//! The moves of the attacker that won before.
ghost use Rattle.std.specs.Prelude.{◌≤◌, ◌<◌};

use crate::guide::Guide;
use crate::watcher::Watcher;
use dw_board::{Board, Position};
use dw_moves::Move;

/// The number of square numbers, with 0, which no square has.
const NUMBERS: usize = 51;

/// With fewer moves left a search puts no moves of the attacker in order, and no win is counted.
pub(crate) const FEWEST_LEFT: u8 = 2;

/// A win with more moves left counts as one with this number.
const MOST_DOUBLINGS: u8 = 12;

/// A step of a quick rank counts as this number of doublings in the history.
const PER_RANK: u32 = 4;

/// How much the attacker's moves between each two squares won in the present question. It orders moves, and no answer
/// depends on it.
#[derive(Drop)]
pub(crate) struct History {
    rows: [Row; NUMBERS],
    is_empty: bool,
}

/// How much the moves from one square to each other one won.
#[derive(Clone, Copy)]
struct Row {
    won: [u32; NUMBERS],
    is_empty: bool,
}

impl Row {
    /// No move has won yet.
    const EMPTY: Row = Row {
        won: [0; NUMBERS],
        is_empty: true,
    };
}

impl History {
    /// Returns an empty history.
    pub(crate) fn new() -> Self {
        History {
            rows: [Row::EMPTY; NUMBERS],
            is_empty: true,
        }
    }

    /// Forgets all wins. This costs nothing if there are none, as after most questions for few moves, and little if
    /// they began on few squares.
    pub(crate) fn forget(&mut self) {
        if self.is_empty {
            return;
        }
        self.is_empty = true;
        'rows: for row in &mut self.rows {
            if !row.is_empty {
                *row = Row::EMPTY;
            }
        }
    }

    /// Records a winning move with a number of moves left, each of which doubles its weight. With fewer than
    /// `FEWEST_LEFT` it records nothing.
    pub(crate) fn add<B: Board>(&mut self, mv: &Move<B>, moves: u8) {
        if moves < FEWEST_LEFT {
            return;
        }
        let row = &mut self.rows[usize::from(mv.from.number())];
        let to = usize::from(mv.to.number());
        let win = 1 << moves.min(MOST_DOUBLINGS);
        row.won[to] = row.won[to].saturating_add(win);
        row.is_empty = false;
        self.is_empty = false;
    }

    /// Returns the rank of a move: the more it won, the lower.
    fn rank<B: Board>(&self, mv: &Move<B>) -> u32
        ensures { result ≤ 32 }
    {
        let row = &self.rows[usize::from(mv.from.number())];
        row.won[usize::from(mv.to.number())].leading_zeros()
    }
}

/// The quick order of a guide, in which moves that won before come earlier.
#[derive(Drop)]
pub(crate) struct ByHistory<'a, G> {
    pub(crate) guide: &'a G,
    pub(crate) history: &'a History,
}

impl<'a, G> Watcher for ByHistory<'a, G> {}

impl<'a, B: Board, G: Guide<B>> Guide<B> for ByHistory<'a, G> {
    fn rank(&self, position: &Position<B>, mv: &Move<B>) -> u32 {
        let rank = self.guide.quick_rank(position, mv).saturating_mul(PER_RANK);
        rank.saturating_add(self.history.rank(mv))
    }
}
