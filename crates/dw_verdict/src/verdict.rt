//! Verdicts on problems.
use arrayvec::ArrayVec;
use dw_board::Board;
use dw_moves::Move;

/// The most moves before a choice: all of the longest line but the last.
pub const MAX_BEFORE: usize = 2 * 19;

/// Whether the side to move wins within a number of its moves, and how well.
#[derive(Drop)]
pub enum Verdict<B: Board> {
    /// The side to move does not win.
    Unsolvable,
    /// Several first moves win, or there is a win in fewer moves.
    Cooked {
        /// The least number of moves within which there is a win.
        shortest: u8,
        /// All first moves that win, in order.
        keys: Vec<Move<B>>,
    },
    /// One first move wins, and later there is a choice.
    Dual {
        /// The least beginning of a line after which several moves win. It has an even number of moves, 2 to 38.
        at: ArrayVec<Move<B>, MAX_BEFORE>,
        /// All moves that win there, in order.
        choices: Vec<Move<B>>,
    },
    /// One move wins at the start, and one at each later turn.
    Sound {
        /// The first move that wins.
        key: Move<B>,
    },
}

/// A verdict, with the tries.
#[derive(Drop)]
pub struct Judged<B: Board> {
    pub verdict: Verdict<B>,
    /// Each move that fails to one reply only, and that reply, in the order of the moves.
    pub tries: Vec<(Move<B>, Move<B>)>,
}
