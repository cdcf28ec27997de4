//! Positions: the pieces on a board, and the side to move.
ghost use Rattle.std.specs.Prelude.{◌≡◌, ◌≤◌, ◌<◌, ◌↔◌, ℕ, Some, None, Ok, Err, IsTrue, is_ok, is_some, if◌then◌else◌};
ghost use Rattle.std.specs.Prelude.{MatchResult, Result};
ghost use Rattle.dw_board.specs.Placement.{Placement, IsPosition, placed, put_fault};
ghost use Rattle.dw_board.specs.Placement as of;
ghost use Rattle.dw_board.specs.Geometry as Geo;
ghost use Rattle.std.specs.FinSet as set;
ghost use Rattle.dw_board.specs.Placement.{side_code, cell_codes};
ghost use Rattle.std.specs.Prelude.{◌==◌, slice_index_or, ◌+◌, ◌*◌, ◌%◌, ◌^◌};
ghost use Rattle.std.proofs.Common.{rules};
ghost use Rattle.dw_board.specs.Hashing.{position_bytes};
ghost use Rattle.dw_board.specs.inner.Mixing.{mixed_word};
ghost use Rattle.dw_board.specs.inner.PlacementLemmas.{same-is};
ghost use Rattle.std.specs.Cmp.{partial_order_from_own_ties};
ghost use Rattle.std.specs.Cmp.Rules.{comparing};
ghost use Rattle.std.specs.Cmp.Lexicographic.{slice_cmp, pointwise};
ghost use Rattle.std.specs.Ordering.{nat_cmp, on, then_cmp, as_partial_cmp, eq_of_both};
ghost use Rattle.std.specs.Result.{result_err};

use crate::board::Board;
use crate::held::Held;
use crate::packed::Packed;
use crate::piece::{Kind, Piece, PutFault, Side};
use crate::square::{Square, on_last_row};
use crate::squares::Squares;
use std::cmp::Ordering;
use std::hash::{Hash, Hasher};
use std::marker::Model;

// The factors of `mixed_word`: odd numbers with mixed bits.
const TURN_FACTOR: u64 = 0xE703_7ED1_A0B4_28DB;

const WHITE_MEN_FACTOR: u64 = 0x9E37_79B9_7F4A_7C15;

const WHITE_KINGS_FACTOR: u64 = 0xD6E8_FEB8_6659_FD93;

const BLACK_MEN_FACTOR: u64 = 0xC2B2_AE3D_27D4_EB4F;

const BLACK_KINGS_FACTOR: u64 = 0xA076_1D64_78BD_642F;

/// Pieces on a board, and the side to move. Each side has at most `Board::SIDE` pieces, and no man on its last row.
///
/// It stores four sets of squares, one for each side and kind of piece, and the side to move.
#[derive(Clone, Copy)]
pub struct Position<B: Board> {
    held: Held<B>,
    turn: Side,
}

impl<B: Board> Model for Position<B> {
    ghost use Rattle.dw_board.specs.Placement.{Placement};
    ghost use Rattle.dw_board.specs.PieceSets.{standing, set_of, cells_of, IsKept};
    ghost use Rattle.dw_board.specs.declared.piece.Side.TheVariants.{White, Black};
    ghost use Rattle.dw_board.specs.declared.piece.Kind.TheVariants.{Man, King};

    ghost Value = { Placement };

    ghost view = { λ p. record { cells = cells_of (set_of p.held); turn = p.turn } };

    ghost invariant = { λ p. IsKept B.geometry (cells_of (set_of p.held)) (set_of p.held) };

    ghost inverse = { λ v. record {
      held =
          record {
            white_men = standing v.cells White Man;
            white_kings = standing v.cells White King;
            black_men = standing v.cells Black Man;
            black_kings = standing v.cells Black King;
          };
      turn = v.turn;
    } };

    ghost inverse_ok = { λ a h i. record {
      held =
          record {
            white_men = h.standing_is White Man i;
            white_kings = h.standing_is White King i;
            black_men = h.standing_is Black Man i;
            black_kings = h.standing_is Black King i;
          };
      turn = a.turn;
    } };
}

impl<B: Board> Position<B> {
    /// Returns the empty board with this side to move.
    #[inline]
    pub fn empty(turn: Side) -> Self
        ensures { result ≡ of.empty turn }
    {
        Position {
            held: Held::none(),
            turn,
        }
    }

    /// Puts a piece on an empty square. It is refused, and nothing changes, for the first of these reasons: the square
    /// is taken, it is a man's last row, the side already has `Board::SIDE` pieces.
    pub fn put(&mut self, square: Square<B>, piece: Piece) -> Result<(), PutFault>
        ensures fault { result_err result ≡ put_fault B.geometry self.old square piece }
        ensures after { self.new ≡ (if is_ok result then placed self.old square (Some piece) else self.old) }
    {
        if self.at(square).is_some() {
            return Err(PutFault::Taken);
        }
        if is_stuck(square, piece) {
            return Err(PutFault::LastRow);
        }
        if B::SIDE <= self.count(piece.side) {
            return Err(PutFault::TooMany);
        }
        self.held = self.held.with(square, piece);
        Ok(())
    }

    /// Empties a square, and returns the piece that stood there, if any.
    #[inline]
    pub fn clear(&mut self, square: Square<B>) -> Option<Piece>
        ensures stood { result ≡ of.at self.old square }
        ensures after { self.new ≡ placed self.old square None }
    {
        let stood = self.at(square);
        self.held = self.held.without(square);
        stood
    }

    /// Returns the position after the piece on `from` has gone to `to` and the squares `taken` were emptied. A man that
    /// reaches its last row becomes a king. A piece on `to` is replaced, and the side to move stays the same.
    #[inline]
    pub fn carried(&self, from: Square<B>, to: Square<B>, taken: Squares<B>) -> Self
        ensures { result ≡ of.carried B.geometry self.now from to taken }
    {
        from.keeps_to_its_board();
        to.keeps_to_its_board();
        let left = self.held.minus(taken.with(from)).without(to);
        Position {
            held: left.with_arrival(&self.held, from, to),
            turn: self.turn,
        }
    }

    /// Returns the pieces on the board in compact form, without the side to move.
    #[inline]
    pub fn pack(&self) -> Packed<B>
        ensures { result ≡ self.now.cells }
    {
        let held = &self.held;
        Packed {
            white: held.all_of(Side::White),
            black: held.all_of(Side::Black),
            kings: held
                .of(Side::White, Kind::King)
                .or(held.of(Side::Black, Kind::King)),
        }
    }

    /// Returns the position with these pieces on the board and this side to move.
    #[inline]
    pub fn unpack(packed: &Packed<B>, turn: Side) -> Self
        ensures { result ≡ record { cells = packed.now; turn = turn } }
    {
        let held = Held::parted(packed.white, packed.black, packed.kings);
        Position { held, turn }
    }

    /// Returns a word for hashes, mixed from the side to move and the four sets of pieces. It is their sum modulo 2^64,
    /// each word times its own factor.
    #[inline]
    pub fn mixed_word(&self) -> u64
        ensures { result ≡ mixed_word B.geometry self.now }
    {
        let held = &self.held;
        let turn = u64::from(side_number(self.turn));
        let turned = mixed(0, turn, TURN_FACTOR);
        let white_men = held.of(Side::White, Kind::Man).word();
        let men = mixed(turned, white_men, WHITE_MEN_FACTOR);
        let white_kings = held.of(Side::White, Kind::King).word();
        let white = mixed(men, white_kings, WHITE_KINGS_FACTOR);
        let black_men = held.of(Side::Black, Kind::Man).word();
        let others = mixed(white, black_men, BLACK_MEN_FACTOR);
        let black_kings = held.of(Side::Black, Kind::King).word();
        mixed(others, black_kings, BLACK_KINGS_FACTOR)
    }

    /// Returns the piece on a square, or `None` if it is empty.
    #[inline]
    pub fn at(&self, square: Square<B>) -> Option<Piece>
        ensures value { result ≡ of.at self.now square }
        ensures on_board { Geo.OnBoard B.geometry square }
    {
        square.keeps_to_its_board();
        self.held.at(square)
    }

    /// Returns the side to move.
    #[inline]
    pub fn turn(&self) -> Side
        ensures value { result ≡ self.now.turn }
        ensures position { IsPosition B.geometry self.now.cells }
    {
        self.turn
    }

    /// States that each side has at most `Board::SIDE` pieces and no man on its last row. A law, which does nothing.
    #[inline]
    pub fn keeps_its_rules(&self)
        ensures { IsPosition B.geometry self.now.cells }
    {
        let _ = &self.held;
    }

    /// Gives the move to a side.
    #[inline]
    pub fn set_turn(&mut self, side: Side)
        ensures { self.new ≡ record self.old { turn = side } }
    {
        self.turn = side;
    }

    /// Returns the number of a side's pieces, at most `Board::SIDE`.
    #[inline]
    pub fn count(&self, side: Side) -> u8
        ensures value { result ≡ of.count self.now side }
        ensures fits { result ≤ B.geometry.side }
        ensures small { result ≤ 20 }
    {
        self.held.of(side, Kind::Man).count() + self.held.of(side, Kind::King).count()
    }

    /// Returns the squares on which a piece of this side and kind stands.
    #[inline]
    pub fn squares(&self, side: Side, kind: Kind) -> Squares<B>
        ensures { (s : ℕ) → IsTrue (set.contains result s)
            ↔ (Geo.OnBoard B.geometry s × (of.at self.now s ≡ Some (record { side = side; kind = kind }))) }
    {
        self.held.of(side, kind)
    }

    /// Returns all squares on which a piece of this side stands.
    #[inline]
    pub fn all_of(&self, side: Side) -> Squares<B>
        ensures { (s : ℕ) → IsTrue (set.contains result s)
            ↔ (Geo.OnBoard B.geometry s × IsTrue (of.is_of side (of.at self.now s))) }
    {
        self.held.all_of(side)
    }

    /// Returns all squares on which a piece stands.
    #[inline]
    pub fn occupied(&self) -> Squares<B>
        ensures { (s : ℕ) → IsTrue (set.contains result s)
            ↔ (Geo.OnBoard B.geometry s × IsTrue (is_some (of.at self.now s))) }
    {
        self.held.occupied()
    }
}

/// Returns whether the piece would be a man on its last row.
fn is_stuck<B: Board>(square: Square<B>, piece: Piece) -> bool
    ensures { result ≡ of.is_stuck B.geometry square (Some piece) }
{
    matches!(piece.kind, Kind::Man) && on_last_row(square, piece.side)
}

/// Returns the number of a square's content, from 0 to 4.
fn cell_code(cell: Option<Piece>) -> u8
    ensures { result ≡ of.cell_code cell }
{
    match cell {
        None => 0,
        Some(piece) => {
            let kind = match piece.kind {
                Kind::Man => 0,
                Kind::King => 1,
            };
            1 + 2 * side_number(piece.side) + kind
        }
    }
}

#[inline]
fn side_number(side: Side) -> u8
    ensures { result ≡ side_code side }
{
    match side {
        Side::White => 0,
        Side::Black => 1,
    }
}

/// Mixes one more word into a number.
#[inline]
fn mixed(number: u64, word: u64, factor: u64) -> u64
    ensures { result ≡ (number + word * factor) % 2 ^ 64 }
{
    number.wrapping_add(word.wrapping_mul(factor))
}

/// Returns the piece on the square at an index, or `None` if it is empty or past the board.
fn cell_behind<B: Board>(position: &Position<B>, index: u8) -> Option<Piece>
    requires { index < 50 }
    ensures { result ≡ slice_index_or position.now.cells index None }
{
    let held = &position.held;
    held.at(Square::new(index + 1)?)
}

/// Returns the numbers of all cells.
fn codes_of<B: Board>(position: &Position<B>) -> [u8; 50]
    ensures { result ≡ cell_codes position.now }
{
    position.keeps_its_rules();
    let mut codes = [0; 50];
    for i in 0..50 {
        codes[i] = cell_code(cell_behind(position, i as u8));
    }
    codes
}

impl<B: Board> PartialEq for Position<B> {
    ghost eq = { eq_of_both (on (λ p. side_code p.turn) ◌==◌) (on cell_codes (pointwise ◌==◌)) };

    ghost laws = { Prim.search (comparing, rules) depth 9 };

    #[inline]
    fn eq(&self, other: &Self) -> bool {
        side_number(self.turn) == side_number(other.turn) && self.held.is_same(&other.held)
    }
}

impl<B: Board> Eq for Position<B> {
    ghost laws = { Prim.search (comparing, rules) depth 9 };
}

impl<B: Board> Ord for Position<B> {
    ghost cmp = { then_cmp (on (λ p. side_code p.turn) nat_cmp) (on cell_codes (slice_cmp nat_cmp)) };

    ghost total = { Prim.search (comparing, rules) depth 9 };

    ghost matches_partial_cmp = { Prim.search (comparing, rules) depth 9 };

    ghost matches_eq = { Prim.search (comparing, rules) depth 9 };

    fn cmp(&self, other: &Self) -> Ordering {
        side_number(self.turn)
            .cmp(&side_number(other.turn))
            .then(codes_of(self).cmp(&codes_of(other)))
    }
}

impl<B: Board> PartialOrd for Position<B> {
    ghost partial_cmp = { as_partial_cmp
        (then_cmp (on (λ p. side_code p.turn) nat_cmp) (on cell_codes (slice_cmp nat_cmp))) };

    ghost laws = { partial_order_from_own_ties (Prim.search (comparing, rules) depth 9) (Prim.search (
      comparing,
      rules,
    ) depth 9) };

    fn partial_cmp(&self, other: &Self) -> Option<Ordering> {
        Some(self.cmp(other))
    }
}

impl<B: Board> Hash for Position<B> {
    ghost hash_input = { position_bytes B.geometry };

    ghost respects_eq = { λ x y h i. position_bytes B.geometry ((same-is x y).0 h i) };

    #[inline]
    fn hash<H: Hasher>(&self, state: &mut H) {
        state.write_u64(self.mixed_word());
    }
}
