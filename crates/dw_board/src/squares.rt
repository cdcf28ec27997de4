//! Sets of squares, as padded words.
ghost use Rattle.std.specs.Prelude.{◌≡◌, ◌≤◌, ◌<◌, ◌↔◌, ℕ, Some, IsTrue, IsNone, IfSome, cond};
ghost use Rattle.std.specs.FinSet as set;
ghost use Rattle.dw_board.specs.Geometry as Geo;
ghost use Rattle.dw_board.specs.Slides.{SlidesTo};
ghost use Rattle.dw_board.specs.inner.Shifting.{shifted_word};
ghost use Rattle.std.specs.Prelude.{◌==◌};
ghost use Rattle.std.proofs.Common.{rules};
ghost use Rattle.std.specs.Hash as fed;
ghost use Rattle.std.specs.Ordering.{on};
ghost use Rattle.std.specs.Cmp.Rules.{comparing};
ghost use Rattle.std.specs.Cmp.Lexicographic.{pointwise};
ghost use Rattle.dw_board.specs.SquareSet.{word_of, is_set, OnlySquares};
ghost use Rattle.dw_board.specs.inner.SquareSetLemmas.{same_members-is};

use crate::board::{Board, Dir};
use crate::sliding::{near_word, slid_word};
use crate::square::Square;
use std::fmt;
use std::hash::{Hash, Hasher};
use std::marker::{Model, PhantomData};

/// A set of squares: square s is the bit `s - 1 + (s - 1) / ROWS`.
#[derive(Clone, Copy)]
pub struct Squares<B: Board> {
    word: u64,
    board: PhantomData<B>,
}

impl<B: Board> Model for Squares<B> {
    ghost use Rattle.std.specs.Ordering.{nat_cmp};
    ghost use Rattle.std.specs.Coded.{coded_ℕ};
    ghost use Rattle.std.specs.FinSet as set;
    ghost use Rattle.dw_board.specs.SquareSet.{squares_of, word_of, IsWord};
    ghost use Rattle.dw_board.specs.inner.SquareSetLemmas.{word_of-squares_of};

    ghost Value = { set.FinSet nat_cmp };

    ghost coded = { set.code coded_ℕ };

    ghost view = { λ s. squares_of B.geometry s.word };

    ghost invariant = { λ s. IsWord B.geometry s.word };

    ghost inverse = { λ v. record { word = word_of B.geometry v; board = record {} } };

    ghost inverse_ok = { λ a h i. record {
      word = word_of-squares_of B.geometry h.board a.word h.only i;
      board = a.board;
    } };
}

impl<B: Board> Squares<B> {
    /// Returns the empty set.
    #[inline]
    pub fn none() -> Self
        ensures { result ≡ set.empty }
    {
        Squares {
            word: 0,
            board: PhantomData,
        }
    }

    /// Returns the set of one square.
    #[inline]
    pub fn one(square: Square<B>) -> Self
        ensures { result ≡ set.insert set.empty square }
    {
        Squares::none().with(square)
    }

    /// Returns whether no square is in the set.
    #[inline]
    pub fn is_empty(self) -> bool
        ensures { IsTrue result ↔ (self ≡ set.empty) }
    {
        self.word == 0
    }

    /// Returns whether the square is in the set.
    #[inline]
    pub fn has(self, square: Square<B>) -> bool
        ensures { result ≡ set.contains self square }
    {
        (self.word >> square.place()) & 1 == 1
    }

    /// Returns this set and the square.
    #[inline]
    pub fn with(self, square: Square<B>) -> Self
        ensures { result ≡ set.insert self square }
    {
        Squares {
            word: self.word | (1 << square.place()),
            board: PhantomData,
        }
    }

    /// Returns this set, and the square if it is to be added.
    #[inline]
    pub(crate) fn with_if(self, square: Square<B>, is_added: bool) -> Self
        ensures { result ≡ cond is_added (set.insert self square) self }
    {
        if is_added { self.with(square) } else { self }
    }

    /// Returns the squares in either set.
    #[inline]
    pub fn or(self, other: Self) -> Self
        ensures { result ≡ set.union self other }
    {
        Squares {
            word: self.word | other.word,
            board: PhantomData,
        }
    }

    /// Returns this set without the square.
    #[inline]
    pub fn without(self, square: Square<B>) -> Self
        ensures { result ≡ set.remove self square }
    {
        Squares {
            word: self.word & !(1 << square.place()),
            board: PhantomData,
        }
    }

    /// Returns the squares in both sets.
    #[inline]
    pub fn and(self, other: Self) -> Self
        ensures { result ≡ set.intersection self other }
    {
        Squares {
            word: self.word & other.word,
            board: PhantomData,
        }
    }

    /// Returns the squares of this set that are not in the other.
    #[inline]
    pub fn minus(self, other: Self) -> Self
        ensures { result ≡ set.difference self other }
    {
        Squares {
            word: self.word & !other.word,
            board: PhantomData,
        }
    }

    /// Returns the number of squares, at most 50.
    #[inline]
    pub fn count(self) -> u8
        ensures value { result ≡ set.len self }
        ensures small { result ≤ 50 }
    {
        self.word.count_ones() as u8
    }

    /// Returns the square of the lowest number, or `None` in the empty set.
    #[inline]
    pub fn first(self) -> Option<Square<B>>
        ensures none { IsNone result ↔ (self ≡ set.empty) }
        ensures member { IfSome result (λ s. IsTrue (set.contains self s)) }
        ensures least { IfSome result (λ s. (t : ℕ) → IsTrue (set.contains self t) → s ≤ t) }
        ensures on_board { IfSome result (Geo.OnBoard B.geometry) }
    {
        let (square, _) = self.split()?;
        Some(square)
    }

    /// Returns the square of the lowest number and the others, or `None` in the empty set.
    #[inline]
    pub fn split(self) -> Option<(Square<B>, Self)>
        ensures none { IsNone result ↔ (self ≡ set.empty) }
        ensures member { IfSome result (λ parts. IsTrue (set.contains self parts.0)) }
        ensures least { IfSome result (λ parts. (t : ℕ) → IsTrue (set.contains self t) → parts.0 ≤ t) }
        ensures on_board { IfSome result (λ parts. Geo.OnBoard B.geometry parts.0) }
        ensures rest { IfSome result (λ parts. parts.1 ≡ set.remove self parts.0) }
    {
        if self.word == 0 {
            return None;
        }
        let square = Square::of_bit(self.word.trailing_zeros() as u8);
        let rest = Squares {
            word: self.word & (self.word - 1),
            board: PhantomData,
        };
        Some((square, rest))
    }

    /// Returns the padded word: the bit `s - 1 + (s - 1) / ROWS` for each square s of the set, and no other.
    #[tactic(auto, using(crate::proofs::SetLemmas::word_behind))]
    #[inline]
    pub fn word(self) -> u64
        ensures value { result ≡ word_of B.geometry self }
        ensures members { (s : ℕ) → IsTrue (set.contains self s)
            ↔ (Geo.OnBoard B.geometry s × IsTrue (is_set result (Geo.bit B.geometry s))) }
        ensures only { OnlySquares B.geometry result }
    {
        self.word
    }

    /// Returns the squares one step from these in a direction. Steps past the edge are dropped.
    #[inline]
    pub fn shifted(self, direction: Dir) -> Self
        ensures { (t : ℕ) → IsTrue (set.contains result t)
            ↔ ((s : ℕ) × (IsTrue (set.contains self s) × (Geo.step B.geometry s direction ≡ Some t))) }
    {
        Squares {
            word: shifted_word::<B>(self.word, direction) & B::WORD,
            board: PhantomData,
        }
    }

    /// Returns these squares, and those that they reach by any number of steps in a direction, none of them onto a
    /// barred square.
    #[inline]
    pub fn slid(self, barred: Self, direction: Dir) -> Self
        ensures { (t : ℕ) → IsTrue (set.contains result t)
            ↔ ((n : ℕ) × SlidesTo B.geometry self barred direction n t) }
    {
        Squares {
            word: slid_word::<B>(self.word, B::WORD & !barred.word, direction),
            board: PhantomData,
        }
    }

    /// Returns these squares, and those that they reach by at most seven steps, none of them onto a barred square.
    /// Farther along no diagonal leaves room to jump over a piece.
    #[inline]
    pub fn slid_near(self, barred: Self, direction: Dir) -> Self
        ensures reached { (t : ℕ) → IsTrue (set.contains result t)
            ↔ ((n : ℕ) × (n < 8) × SlidesTo B.geometry self barred direction n t) }
        ensures on_board { (s : ℕ) → IsTrue (set.contains self s) → Geo.OnBoard B.geometry s }
    {
        Squares {
            word: near_word::<B>(self.word, B::WORD & !barred.word, direction),
            board: PhantomData,
        }
    }
}

/// Returns the word with each bit moved as a step moves the bit of a square.
#[inline]
fn shifted_word<B: Board>(word: u64, direction: Dir) -> u64
    ensures { result ≡ shifted_word B.geometry direction word }
{
    match direction {
        Dir::UpLeft => word >> (B::PER_ROW + 1),
        Dir::UpRight => word >> B::PER_ROW,
        Dir::DownLeft => word << B::PER_ROW,
        Dir::DownRight => word << (B::PER_ROW + 1),
    }
}

/// The empty set.
impl<B: Board> Default for Squares<B> {
    ghost is_default = { λ v. v ≡ set.empty };

    #[inline]
    fn default() -> Self {
        Self::none()
    }
}

/// The padded word, in hexadecimal.
impl<B: Board> fmt::Debug for Squares<B> {
    fn fmt<W: fmt::Write>(&self, f: &mut fmt::Formatter<W>) -> fmt::Result {
        write!(f, "{:#x}", self.word)
    }
}

impl<B: Board> PartialEq for Squares<B> {
    ghost eq = { on set.items (pointwise ◌==◌) };

    ghost laws = { Prim.search (comparing, rules) depth 9 };

    #[tactic(auto, using(crate::proofs::SetLemmas::same_words))]
    #[inline]
    fn eq(&self, other: &Self) -> bool {
        self.word == other.word
    }
}

impl<B: Board> Eq for Squares<B> {
    ghost laws = { Prim.search (comparing, rules) depth 9 };
}

impl<B: Board> Hash for Squares<B> {
    ghost hash_input = { λ v. fed.u64 (word_of B.geometry v) };

    ghost respects_eq = { λ x y h i. fed.u64 (word_of B.geometry ((same_members-is x y).0 h i)) };

    #[tactic(auto, using(crate::proofs::SetLemmas::word_behind))]
    #[inline]
    fn hash<H: Hasher>(&self, state: &mut H) {
        state.write_u64(self.word);
    }
}
