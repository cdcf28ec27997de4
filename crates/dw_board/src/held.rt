//! The squares of each side's men and of its kings.
ghost use Rattle.std.specs.Prelude.{◌≡◌, cond, ⊤};
ghost use Rattle.dw_board.specs.inner.PieceSetLemmas.{same_sets};
ghost use Rattle.std.specs.FinSet as set;
ghost use Rattle.dw_board.specs.PieceSets.{set_of, held_at};
ghost use Rattle.dw_board.specs.inner.Held.{arrives, entered};
ghost use Rattle.dw_board.specs.Packing.{parted};
ghost use Rattle.dw_board.specs.declared.piece.Side.TheVariants.{White, Black};
ghost use Rattle.dw_board.specs.declared.piece.Kind.TheVariants.{Man, King};

use crate::board::Board;
use crate::piece::{Kind, Piece, Side};
use crate::square::{Square, on_last_row};
use crate::squares::Squares;
use std::alloc::AllocError;

/// The squares of the pieces of a position: one set for each side and kind.
#[derive(Copy)]
pub(crate) struct Held<B: Board> {
    white_men: Squares<B>,
    white_kings: Squares<B>,
    black_men: Squares<B>,
    black_kings: Squares<B>,
}

impl<B: Board> Held<B> {
    /// Returns the sets of an empty board.
    #[inline]
    pub(crate) fn none() -> Self
        ensures { (side : Side) (kind : Kind) → set_of result side kind ≡ set.empty }
    {
        Held {
            white_men: Squares::none(),
            white_kings: Squares::none(),
            black_men: Squares::none(),
            black_kings: Squares::none(),
        }
    }

    /// Returns the sets of a board with white's pieces, black's pieces and all kings on these squares.
    #[inline]
    pub(crate) fn parted(white: Squares<B>, black: Squares<B>, kings: Squares<B>) -> Self
        ensures { (side : Side) (kind : Kind) → set_of result side kind ≡ parted white black kings side kind }
    {
        Held {
            white_men: white.minus(kings),
            white_kings: white.and(kings),
            black_men: black.minus(kings),
            black_kings: black.and(kings),
        }
    }

    /// Returns the squares of this side's pieces of this kind.
    #[inline]
    pub(crate) fn of(&self, side: Side, kind: Kind) -> Squares<B>
        ensures { result ≡ set_of self.now side kind }
    {
        match (side, kind) {
            (Side::White, Kind::Man) => self.white_men,
            (Side::White, Kind::King) => self.white_kings,
            (Side::Black, Kind::Man) => self.black_men,
            (Side::Black, Kind::King) => self.black_kings,
        }
    }

    /// Returns the squares of this side's pieces.
    #[inline]
    pub(crate) fn all_of(&self, side: Side) -> Squares<B>
        ensures { result ≡ set.union (set_of self.now side Man) (set_of self.now side King) }
    {
        self.of(side, Kind::Man).or(self.of(side, Kind::King))
    }

    /// Returns all squares on which a piece stands.
    #[inline]
    pub(crate) fn occupied(&self) -> Squares<B>
        ensures { result ≡ set.union (set.union (set_of self.now White Man) (set_of self.now White King))
            (set.union (set_of self.now Black Man) (set_of self.now Black King)) }
    {
        self.all_of(Side::White).or(self.all_of(Side::Black))
    }

    /// Returns the piece on a square, or `None` if it is empty.
    #[inline]
    pub(crate) fn at(&self, square: Square<B>) -> Option<Piece>
        ensures { result ≡ held_at (set_of self.now) square }
    {
        if !self.occupied().has(square) {
            return None;
        }
        let (side, kind) = if self.white_men.has(square) {
            (Side::White, Kind::Man)
        } else if self.black_men.has(square) {
            (Side::Black, Kind::Man)
        } else if self.white_kings.has(square) {
            (Side::White, Kind::King)
        } else {
            (Side::Black, Kind::King)
        };
        Some(Piece { side, kind })
    }

    /// Returns whether all four sets are equal.
    #[inline]
    pub(crate) fn is_same(&self, other: &Self) -> bool
        ensures { result ≡ same_sets self.now other.now }
    {
        self.white_men == other.white_men
            && self.white_kings == other.white_kings
            && self.black_men == other.black_men
            && self.black_kings == other.black_kings
    }

    /// Returns the sets with the piece added on the square.
    #[inline]
    pub(crate) fn with(self, square: Square<B>, piece: Piece) -> Self
        ensures { (side : Side) (kind : Kind)
            → set_of result side kind ≡ entered side kind (set_of self side kind) square piece }
    {
        let mut held = self;
        match (piece.side, piece.kind) {
            (Side::White, Kind::Man) => held.white_men = held.white_men.with(square),
            (Side::White, Kind::King) => held.white_kings = held.white_kings.with(square),
            (Side::Black, Kind::Man) => held.black_men = held.black_men.with(square),
            (Side::Black, Kind::King) => held.black_kings = held.black_kings.with(square),
        }
        held
    }

    /// Adds the square `to` to the set of the piece on `from` before, if there is one; a man on its last row is a king.
    /// Each set is asked whether it has `from`: to find out which one has it would take longer.
    #[inline]
    pub(crate) fn with_arrival(self, before: &Self, from: Square<B>, to: Square<B>) -> Self
        ensures { (side : Side) (kind : Kind) → set_of result side kind ≡ cond (arrives B.geometry (set_of before.now)
            from to side kind) (set.insert (set_of self side kind) to) (set_of self side kind) }
    {
        let white_crowned = on_last_row(to, Side::White);
        let black_crowned = on_last_row(to, Side::Black);
        let white_man = before.white_men.has(from);
        let black_man = before.black_men.has(from);
        let white_king = before.white_kings.has(from) || (white_man && white_crowned);
        let black_king = before.black_kings.has(from) || (black_man && black_crowned);
        Held {
            white_men: self.white_men.with_if(to, white_man && !white_crowned),
            white_kings: self.white_kings.with_if(to, white_king),
            black_men: self.black_men.with_if(to, black_man && !black_crowned),
            black_kings: self.black_kings.with_if(to, black_king),
        }
    }

    /// Returns the sets without the square. It is removed from all four, without a test which one has it.
    #[inline]
    pub(crate) fn without(self, square: Square<B>) -> Self
        ensures { (side : Side) (kind : Kind) → set_of result side kind ≡ set.remove (set_of self side kind) square }
    {
        Held {
            white_men: self.white_men.without(square),
            white_kings: self.white_kings.without(square),
            black_men: self.black_men.without(square),
            black_kings: self.black_kings.without(square),
        }
    }

    /// Returns the sets without these squares.
    #[inline]
    pub(crate) fn minus(self, squares: Squares<B>) -> Self
        ensures { (side : Side) (kind : Kind)
            → set_of result side kind ≡ set.difference (set_of self side kind) squares }
    {
        Held {
            white_men: self.white_men.minus(squares),
            white_kings: self.white_kings.minus(squares),
            black_men: self.black_men.minus(squares),
            black_kings: self.black_kings.minus(squares),
        }
    }
}

/// Written by hand: a derived `clone` would state equal words, this one states equal sets.
impl<B: Board> Clone for Held<B> {
    ghost is_clone = { λ held clone. clone ≡ held };

    ghost is_infallible = { λ _. ⊤ };

    #[inline]
    fn clone(&self) -> Result<Self, AllocError> {
        Ok(*self)
    }
}
