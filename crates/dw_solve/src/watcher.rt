//! How far searches are, for a display.
ghost use Rattle.dw_moves.specs.Moves.{Legal, play};

use crate::guide::Guide;
use dw_board::{Board, Position};
use dw_moves::Move;

/// Learns how far the searches of a solver are. No answer depends on it. By default it does nothing.
pub trait Watcher {
    /// Learns that the search for the problem of this number begins, and how many positions the solver has expanded.
    fn begin(&mut self, _problem: u32, _expanded: u64) {}

    /// Learns the number of moves within which a win is searched for, and how many positions the solver has expanded.
    /// It is told after every 4,096 expansions.
    fn watch(&mut self, _moves: u8, _expanded: u64) {}

    /// Clears its display, if it has one, before an answer is written.
    fn make_way(&mut self) {}
}

/// The order of a guide, with a watcher.
#[derive(Clone, Copy, Debug, Default, Drop)]
pub struct Watched<G, W> {
    pub guide: G,
    pub watcher: W,
}

impl<G, W: Watcher> Watcher for Watched<G, W> {
    fn begin(&mut self, problem: u32, expanded: u64) {
        self.watcher.begin(problem, expanded);
    }

    fn watch(&mut self, moves: u8, expanded: u64) {
        self.watcher.watch(moves, expanded);
    }

    fn make_way(&mut self) {
        self.watcher.make_way();
    }
}

impl<B: Board, G: Guide<B>, W: Watcher> Guide<B> for Watched<G, W> {
    fn rank(&self, position: &Position<B>, mv: &Move<B>) -> u32 {
        self.guide.rank(position, mv)
    }

    fn quick_rank(&self, position: &Position<B>, mv: &Move<B>) -> u32 {
        self.guide.quick_rank(position, mv)
    }

    fn rank_reached(&self, position: &Position<B>, mv: &Move<B>, after: &Position<B>) -> u32 {
        self.guide.rank_reached(position, mv, after)
    }

    fn quick_rank_reached(&self, position: &Position<B>, mv: &Move<B>, after: &Position<B>) -> u32 {
        self.guide.quick_rank_reached(position, mv, after)
    }
}
