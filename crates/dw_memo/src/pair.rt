//! A bucket of two places that prefers deeper bounds.
ghost use Rattle.std.specs.Prelude.{◌≡◌, ◌<◌, ◌≤◌, None, ⊤};
ghost use Rattle.dw_memo.specs.Content.{IsMap};
ghost use Rattle.dw_memo.specs.Noting.{IsNote};
ghost use Rattle.dw_memo.specs.inner.Pairs.{pair_entries, depth, worth, IsChoice};
ghost use Rattle.dw_memo.specs.inner.Slots.{standing};
ghost use Rattle.dw_memo.specs.declared.memo.Noted.TheVariants.{Kept, NotKept};
ghost use Rattle.dw_memo.specs.inner.Keeping.{bounds_in};

use crate::bounds::Bounds;
use crate::bucket::{Bucket, Entered};
use crate::memo::Noted;
use crate::slot::Slot;
use dw_board::{Board, Position};

/// The value of a place with a fresh one-move result.
const LITTLE: u16 = 2;

/// A table doubles after this number of facts of two moves or more for each pair.
const PER_PAIR: usize = 4;

/// Two places for positions with their bounds. If both are taken, a new position replaces the one of less value; but a
/// one-move result never replaces a more valuable fact. A fact of two moves or more ages its neighbour. Otherwise a
/// table would keep the results of its first problem for ever.
#[derive(Clone, Copy)]
pub(crate) struct Pair<B: Board> {
    pub(crate) first: Slot<B>,
    pub(crate) second: Slot<B>,
}

impl<B: Board> Pair<B> {
    /// Stores the bounds of a position, in place of its earlier bounds or of the less valuable entry.
    #[inline]
    fn place(&mut self, position: &Position<B>, bounds: Bounds) -> Entered
        requires { IsMap (pair_entries self.old) }
        ensures note { IsNote (pair_entries self.old) position.now bounds result.noted (pair_entries self.new) 0
            result.lost }
        ensures choice { IsChoice self.old position.now bounds result.noted self.new }
    {
        if self.first.holds(position) {
            enter_again(&mut self.first, position, bounds)
        } else if self.second.holds(position) {
            enter_again(&mut self.second, position, bounds)
        } else if self.second.worth() < self.first.worth() {
            contend(&mut self.second, &mut self.first, position, bounds)
        } else {
            contend(&mut self.first, &mut self.second, position, bounds)
        }
    }
}

/// Puts the bounds of a position, which neither place may hold, into the place of less value, if they may go there.
/// Bounds of two moves or more age the other place.
#[inline]
fn contend<B: Board>(
    lesser: &mut Slot<B>,
    other: &mut Slot<B>,
    position: &Position<B>,
    bounds: Bounds,
) -> Entered
    requires { bounds_in lesser.old position.now ≡ None }
    ensures note { IsNote (standing lesser.old) position.now bounds result.noted (standing lesser.new) 0 result.lost }
    ensures other { standing other.new ≡ standing other.old }
    ensures given { result.noted ≡ NotKept → (depth bounds ≤ 1) × (2 < worth lesser.old) }
    ensures shallow { depth bounds ≤ 1 → 2 < worth lesser.old → standing lesser.new ≡ standing lesser.old }
{
    if bounds.depth() > 1 {
        *other = other.older();
    } else if lesser.worth() > LITTLE {
        return Entered {
            noted: Noted::NotKept,
            lost: 1,
            counts: false,
        };
    }
    Entered {
        counts: 1 < bounds.depth(),
        ..lesser.enter(position, bounds)
    }
}

/// Puts the bounds of a position into the place that it has already.
#[inline]
fn enter_again<B: Board>(place: &mut Slot<B>, position: &Position<B>, bounds: Bounds) -> Entered
    ensures kept { result.noted ≡ Kept }
    ensures note { IsNote (standing place.old) position.now bounds result.noted (standing place.new) 0 result.lost }
{
    Entered {
        counts: false,
        ..place.enter(position, bounds)
    }
}

impl<B: Board> Bucket<B> for Pair<B> {
    ghost entries = { pair_entries };

    ghost may_answer = { λ _. ⊤ };

    #[inline]
    fn empty() -> Self {
        Pair {
            first: Slot::vacant(),
            second: Slot::vacant(),
        }
    }

    #[inline]
    fn look(&self, position: &Position<B>) -> Option<Bounds> {
        match self.first.bounds_of(position) {
            Some(bounds) => Some(bounds),
            None => self.second.bounds_of(position),
        }
    }

    #[inline]
    fn enter(&mut self, position: &Position<B>, bounds: Bounds) -> Entered {
        self.place(position, bounds)
    }

    fn split(&self, index: usize, buckets: usize) -> (Self, Self) {
        let (first, first_away) = self.first.split(index, buckets);
        let (second, second_away) = self.second.split(index, buckets);
        let away = Pair {
            first: first_away,
            second: second_away,
        };
        (Pair { first, second }, away)
    }

    /// Returns whether facts of two moves or more came to new positions more than twice as often as the table has
    /// places. Facts of one move do not count: they are soon found again. A larger table would lose less, but be slower
    /// than one that the processor's caches hold.
    fn is_crowded(buckets: usize, counted: usize) -> bool {
        buckets < counted / PER_PAIR
    }
}
