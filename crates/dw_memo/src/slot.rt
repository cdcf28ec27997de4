//! One place for a position, a bucket by itself.
ghost use Rattle.std.specs.Prelude.{◌≡◌, Some, None, is_some, not, ⊤, ◌↔◌, IsTrue};
ghost use Rattle.dw_memo.specs.inner.Pairs.{worth};
ghost use Rattle.dw_memo.specs.inner.Slots.{standing};
ghost use Rattle.dw_memo.specs.declared.memo.Noted.TheVariants.{Kept};
ghost use Rattle.dw_memo.specs.inner.Keeping.{bounds_in, lost, kept_position};

use crate::bounds::Bounds;
use crate::bucket::{Bucket, Entered};
use crate::fact::{Fact, bounds_of};
use crate::memo::Noted;
use crate::table::bucket_of;
use dw_board::{Board, Packed, Position, Side};
use std::alloc::AllocError;
use std::marker::Model;

/// A table is crowded if less than one in this number of its places is free.
const PER_FREE: usize = 16;

/// A position with its fact, or nothing: then there is no fact, and the position is the empty board. It takes 32 bytes:
/// three sets, the side to move and the fact.
#[derive(Copy)]
pub(crate) struct Slot<B: Board> {
    pieces: Packed<B>,
    turn: Side,
    fact: Option<Fact>,
}

impl<B: Board> Model for Slot<B> {
    ghost use Rattle.std.specs.Prelude.{None, ◌≡◌};
    ghost use Rattle.dw_board.specs.Placement.{empty};
    ghost use Rattle.dw_board.specs.declared.piece.Side.TheVariants.{White};
    ghost use Rattle.dw_memo.specs.inner.Slots.{Place};
    ghost use Rattle.dw_memo.specs.inner.Keeping.{stands, at_turn, kept_position, kept_fact};
    ghost use Rattle.dw_memo.specs.inner.Keeping.{position_back, fact_back};

    ghost Value = { Place };

    ghost view = { λ s. stands (at_turn s.pieces s.turn) s.fact };

    ghost invariant = { λ s. s.fact ≡ None → at_turn s.pieces s.turn ≡ empty White };

    ghost inverse = { λ v. record {
      pieces = (kept_position v).cells;
      turn = (kept_position v).turn;
      fact = kept_fact v;
    } };

    ghost inverse_ok = { λ a h i. record {
      pieces = (position_back (at_turn a.pieces a.turn) a.fact h i).cells;
      turn = (position_back (at_turn a.pieces a.turn) a.fact h i).turn;
      fact = fact_back (at_turn a.pieces a.turn) a.fact i;
    } };
}

/// Written by hand: a derived `clone` would state equal fields, this one states the same content.
impl<B: Board> Clone for Slot<B> {
    ghost is_clone = { λ slot clone. clone ≡ slot };

    ghost is_infallible = { λ _. ⊤ };

    #[inline]
    fn clone(&self) -> Result<Self, AllocError> {
        Ok(*self)
    }
}

impl<B: Board> Slot<B> {
    /// Returns a slot in which nothing stands.
    pub(crate) fn vacant() -> Self
        ensures { result ≡ None }
    {
        Slot {
            pieces: Position::empty(Side::White).pack(),
            turn: Side::White,
            fact: None,
        }
    }

    /// Returns a slot with a position and its fact.
    #[inline]
    pub(crate) fn with(position: &Position<B>, fact: Fact) -> Self
        ensures { result ≡ Some (position.now, fact) }
    {
        Slot {
            pieces: position.pack(),
            turn: position.turn(),
            fact: Some(fact),
        }
    }

    /// Returns the position and the fact in the slot, or `None` if it is free.
    #[inline]
    pub(crate) fn entry(&self) -> Option<(Position<B>, Fact)>
        ensures { result ≡ self.now }
    {
        let fact = self.fact?;
        Some((Position::unpack(&self.pieces, self.turn), fact))
    }

    /// Returns whether nothing stands there.
    #[inline]
    pub(crate) fn is_free(&self) -> bool
        ensures { result ≡ not (is_some self.now) }
    {
        self.fact.is_none()
    }

    /// Returns the bounds of a position, or `None` if the slot does not hold it.
    #[inline]
    pub(crate) fn bounds_of(&self, position: &Position<B>) -> Option<Bounds>
        ensures { result ≡ bounds_in self.now position.now }
    {
        if self.keeps(position) {
            bounds_of(self.fact)
        } else {
            None
        }
    }

    /// Returns whether a position stands there.
    #[inline]
    pub(crate) fn holds(&self, position: &Position<B>) -> bool
        ensures { result ≡ is_some (bounds_in self.now position.now) }
    {
        self.bounds_of(position).is_some()
    }

    /// Returns its value: one more than the value of its fact, and 0 if it is free.
    #[inline]
    pub(crate) fn worth(&self) -> u16
        ensures { result ≡ worth self.now }
    {
        match self.fact {
            Some(fact) => 1 + u16::from(fact.worth()),
            None => 0,
        }
    }

    /// Returns the slot with its fact, if any, one step older.
    #[inline]
    pub(crate) fn older(&self) -> Self
        ensures { standing result ≡ standing self.now }
    {
        match self.entry() {
            Some((position, fact)) => Slot::with(&position, fact.older()),
            None => Slot::vacant(),
        }
    }

    /// Returns the number of entries lost when a position comes into the slot: 1 if it holds another one, and else 0.
    #[inline]
    pub(crate) fn lost(&self, position: &Position<B>) -> u64
        ensures { result ≡ lost self.now position.now }
    {
        u64::from(self.fact.is_some() && !self.keeps(position))
    }

    /// Returns whether the slot stores this position; a free slot stores the empty board with White to move.
    #[inline]
    fn keeps(&self, position: &Position<B>) -> bool
        ensures { IsTrue result ↔ (kept_position self.now ≡ position.now) }
    {
        self.pieces.is_same(&position.pack()) && self.turn == position.turn()
    }
}

impl<B: Board> Bucket<B> for Slot<B> {
    ghost entries = { standing };

    ghost may_answer = { λ answer. answer ≡ Kept };

    #[inline]
    fn empty() -> Self {
        Slot::vacant()
    }

    #[inline]
    fn look(&self, position: &Position<B>) -> Option<Bounds> {
        self.bounds_of(position)
    }

    #[inline]
    fn enter(&mut self, position: &Position<B>, bounds: Bounds) -> Entered {
        let lost = self.lost(position);
        let counts = self.is_free();
        *self = Slot::with(position, Fact::new(bounds));
        Entered {
            noted: Noted::Kept,
            lost,
            counts,
        }
    }

    fn split(&self, index: usize, buckets: usize) -> (Self, Self) {
        match self.entry() {
            Some((position, _)) if bucket_of(&position, buckets) != index => (
                Slot::vacant(),
                *self,
            ),
            _ => (*self, Slot::vacant()),
        }
    }

    /// Returns whether more than fifteen sixteenths of the slots are filled. A larger table would lose less but be
    /// slower, because most of its entries belong to finished problems.
    fn is_crowded(buckets: usize, counted: usize) -> bool {
        buckets - buckets / PER_FREE < counted
    }
}
