//! Remarks on an author's solution.
use dw_board::Board;
use dw_games::Node;
use dw_moves::Move;

/// A remark on an author's solution. Its place is a node of the tree, `None` before the first move.
#[derive(Drop)]
pub enum Remark<B: Board> {
    /// A move of the attacker does not win within the moves that he has left.
    Fails {
        /// The beginning before it.
        at: Option<Node>,
        /// The move.
        mv: Move<B>,
        /// The first reply after which the attacker has no win within the moves that he has left.
        reply: Move<B>,
    },
    /// The attacker has keys that the solution lacks, though it has other moves.
    Also {
        /// The beginning before them.
        at: Option<Node>,
        /// All of them, in order.
        keys: Vec<Move<B>>,
    },
    /// The defender has replies that the solution lacks, though it has other moves.
    Open {
        /// The beginning before them.
        at: Option<Node>,
        /// All of them, in order.
        replies: Vec<Move<B>>,
    },
    /// The solution stops here, though the attacker is to move, or the defender is and can move.
    Ends {
        /// The beginning after which it has no move.
        at: Option<Node>,
        /// The least number of moves within which the attacker wins from here, whatever the defender plays. `None` if
        /// there is no win, in a tree without a move.
        wins_in: Option<u8>,
    },
}

/// The answer of `check`.
#[derive(Drop)]
pub struct Checked<B: Board> {
    /// Whether there is a win within the moves asked for.
    pub wins: bool,
    /// The remarks, depth first in the order of the tree. At each place come the failing moves and then the missing
    /// keys, or the missing replies, or an end.
    pub remarks: Vec<Remark<B>>,
}
