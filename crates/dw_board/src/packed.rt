//! The pieces on a board, in less memory than a position takes.
ghost use Rattle.std.specs.Prelude.{◌≡◌, ◌↔◌, IsTrue, ⊤};

use crate::board::Board;
use crate::squares::Squares;
use std::alloc::AllocError;
use std::marker::Model;

/// The pieces on a board, without the side to move: three sets of squares, 24 bytes. Large tables store positions in
/// this form. `Position::pack` makes one, and `Position::unpack` turns it back into a position.
#[derive(Copy)]
pub struct Packed<B: Board> {
    pub(crate) white: Squares<B>,
    pub(crate) black: Squares<B>,
    pub(crate) kings: Squares<B>,
}

impl<B: Board> Model for Packed<B> {
    ghost use Rattle.std.specs.Prelude.{List, Option};
    ghost use Rattle.dw_board.specs.declared.piece.Side.TheVariants.{White, Black};
    ghost use Rattle.dw_board.specs.declared.piece.Piece.{Piece};
    ghost use Rattle.dw_board.specs.Packing.{packed_cells, IsPacked, all_standing, kings_standing};

    ghost Value = { List (Option Piece) };

    ghost view = { λ p. packed_cells p.white p.black p.kings };

    ghost invariant = { λ p. IsPacked B.geometry (packed_cells p.white p.black p.kings) p.white p.black p.kings };

    ghost inverse = { λ v. record {
      white = all_standing v White;
      black = all_standing v Black;
      kings = kings_standing v;
    } };

    ghost inverse_ok = { λ a h i. record {
      white = h.white_is i;
      black = h.black_is i;
      kings = h.kings_are i;
    } };
}

/// Written by hand: a derived `clone` would state equal words, this one states equal sets.
impl<B: Board> Clone for Packed<B> {
    ghost is_clone = { λ packed clone. clone ≡ packed };

    ghost is_infallible = { λ _. ⊤ };

    #[inline]
    fn clone(&self) -> Result<Self, AllocError> {
        Ok(*self)
    }
}

impl<B: Board> Packed<B> {
    /// Returns whether both have the same pieces on the same squares.
    #[inline]
    pub fn is_same(&self, other: &Self) -> bool
        ensures { IsTrue result ↔ (self.now ≡ other.now) }
    {
        self.white == other.white && self.black == other.black && self.kings == other.kings
    }
}
