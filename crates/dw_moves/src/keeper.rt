//! The interface of a walk through captures to its users.
ghost use Rattle.std.specs.Prelude.{◌≡◌, ◌<◌, ℕ, List, [], ◌∷◌, ◌++◌, length, OnOk};
ghost use Rattle.dw_moves.specs.Order.{Listed};
ghost use Rattle.dw_moves.specs.inner.Walks.{Gains, Stays, number};

use crate::moves::Move;
use dw_board::{Board, Square};

/// Receives every capture of a walk, and keeps some of them. The walk also reports where a path begins, and each jump
/// made and taken back, so that a keeper can follow the path.
pub(crate) trait Keeper<B: Board> {
    /// The error if it cannot keep a capture.
    type Fault: Drop;

    /// The relation between a keeper before a walk, the captures offered since, and the keeper now.
    ghost holds: { Self → List Listed → Self → Type 0 };

    /// The keeper is on this path. For a keeper that follows no path this holds of each.
    ghost is_on: { Self → List ℕ → Type 0 };

    /// Begins a path on this square.
    fn begin(&mut self, from: &Square<B>)
        ensures same { Stays holds self.old self.new }
        ensures on { is_on self.new (from.now ∷ []) };

    /// Enters this square by a jump. The path so far must have at most 20 squares.
    fn enter(&mut self, landing: &Square<B>)
        requires { (path : List ℕ) × (is_on self.old path × (length path < 21)) }
        ensures same { Stays holds self.old self.new }
        ensures on { (path : List ℕ) → is_on self.old path → is_on self.new (path ++ landing.now ∷ []) };

    /// Leaves the last square, one jump back.
    fn leave(&mut self)
        ensures same { Stays holds self.old self.new }
        ensures on { (path : List ℕ) (landing : ℕ) → is_on self.old (path ++ landing ∷ []) → is_on self.new path };

    /// Receives a capture along the path so far, which must take `count` pieces.
    fn offer(&mut self, mv: &Move<B>, count: u8) -> Result<(), Self::Fault>
        requires { count ≡ number (record { step = mv.now; path = [] }) }
        ensures kept { OnOk result ((path : List ℕ) → is_on self.old path
            → Gains holds (record { step = mv.now; path = path } ∷ []) self.old self.new) }
        ensures on { OnOk result ((path : List ℕ) → is_on self.old path → is_on self.new path) };
}
