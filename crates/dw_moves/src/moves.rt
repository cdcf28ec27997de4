//! Moves.
ghost use Rattle.std.specs.Prelude.{◌≡◌, ◌==◌, ◌↔◌, IsTrue, Ok};
ghost use Rattle.std.specs.FinSet as set;
ghost use Rattle.std.specs.Cmp.Rules.{comparing};
ghost use Rattle.std.specs.Cmp.Lexicographic.{pointwise};
ghost use Rattle.std.specs.Ordering.{on, eq_of_both};
ghost use Rattle.std.proofs.Common.{rules};
ghost use Rattle.dw_moves.specs.inner.MoveLemmas.{same_moves-is};
ghost use Rattle.dw_moves.specs.Moves.{move_bytes};
ghost use Rattle.dw_moves.specs.inner.Plain.{quiet_to};
ghost use Rattle.dw_moves.specs.inner.Walks.{quietly_listed};

use crate::quiet::FromQuiet;
use arrayvec::ArrayVec;
use dw_board::{Board, Square, Squares};
use std::alloc::AllocError;
use std::hash::{Hash, Hasher};
use std::marker::Model;

/// The most squares of a path: its start, and a landing for each of twenty taken pieces.
pub const LONGEST_PATH: usize = 1 + 20;

/// A move: its start, its end, and the set of squares of the pieces that it takes. Two ways to capture the same pieces
/// between the same two squares are one move.
pub struct Move<B: Board> {
    pub from: Square<B>,
    pub to: Square<B>,
    pub taken: Squares<B>,
}

impl<B: Board> Model for Move<B> {
    ghost use Rattle.dw_moves.specs.Moves.{Move, move_code};

    ghost Value = { Move };

    ghost coded = { move_code };

    ghost view = { λ m. record { from = m.from; to = m.to; taken = m.taken } };

    ghost inverse = { λ v. record { from = v.from; to = v.to; taken = v.taken } };
}

impl<B: Board> Move<B> {
    /// Returns a move that takes nothing.
    pub fn quiet(from: Square<B>, to: Square<B>) -> Self
        ensures { result ≡ record { from = from; to = to; taken = set.empty } }
    {
        Move {
            from,
            to,
            taken: Squares::none(),
        }
    }
}

impl<B: Board> FromQuiet<B> for Move<B> {
    ghost made = { quiet_to };

    fn from_quiet(from: &Square<B>, to: &Square<B>) -> Self {
        Move::quiet(*from, *to)
    }
}

impl<B: Board> Copy for Move<B> {}

impl<B: Board> Clone for Move<B> {
    fn clone(&self) -> Result<Self, AllocError>
        ensures { result ≡ Ok self.now }
    {
        Ok(*self)
    }
}

/// From square 1 to square 1, with nothing taken: no legal move, but a value to fill an array with.
impl<B: Board> Default for Move<B> {
    ghost is_default = { λ m. m ≡ record { from = 1; to = 1; taken = set.empty } };

    fn default() -> Self {
        Move::quiet(Square::default(), Square::default())
    }
}

impl<B: Board> PartialEq for Move<B> {
    ghost eq = { eq_of_both (on (λ m. m.from) ◌==◌)
        (eq_of_both (on (λ m. m.to) ◌==◌) (on (λ m. set.items m.taken) (pointwise ◌==◌))) };

    ghost laws = { Prim.search (comparing, rules) depth 9 };

    fn eq(&self, other: &Self) -> bool {
        self.from == other.from && self.to == other.to && self.taken == other.taken
    }
}

impl<B: Board> Eq for Move<B> {
    ghost laws = { Prim.search (comparing, rules) depth 9 };
}

impl<B: Board> Hash for Move<B> {
    ghost hash_input = { move_bytes B.geometry };

    ghost respects_eq = { λ x y h i. move_bytes B.geometry ((same_moves-is x y).0 h i) };

    fn hash<H: Hasher>(&self, state: &mut H) {
        self.from.hash(state);
        self.to.hash(state);
        self.taken.hash(state);
    }
}

/// Returns whether two moves are equal: same start, same end, same taken pieces. This is the meaning of `==`.
pub fn same_move<B: Board>(a: &Move<B>, b: &Move<B>) -> bool
    ensures { IsTrue result ↔ (a.now ≡ b.now) }
{
    a == b
}

/// A move with one of its paths, the start first.
#[derive(Drop)]
pub struct Listed<B: Board> {
    /// The move.
    pub step: Move<B>,
    pub path: ArrayVec<Square<B>, LONGEST_PATH>,
}

impl<B: Board> Model for Listed<B> {
    ghost use Rattle.dw_moves.specs.Order.{Listed, listed_code};

    ghost Value = { Listed };

    ghost coded = { listed_code };

    ghost view = { λ l. record { step = l.step; path = l.path.items } };
}

/// The path of a quiet move is its start and its end.
impl<B: Board> FromQuiet<B> for Listed<B> {
    ghost made = { quietly_listed };

    fn from_quiet(from: &Square<B>, to: &Square<B>) -> Self {
        let mut path = ArrayVec::new();
        path.push(*from);
        path.push(*to);
        Listed {
            step: Move::quiet(*from, *to),
            path,
        }
    }
}
