//! A table in which each position has one bucket. All memory of the table is taken at the start.
ghost use Rattle.std.specs.Prelude.{◌≡◌, ◌≤◌, ◌<◌, [], IfOk, true, false};
ghost use Rattle.dw_memo.specs.inner.Buckets as of;
ghost use Rattle.dw_memo.specs.Content.{IsMap, IsFound, MayForget};
ghost use Rattle.dw_memo.specs.Noting.{IsNote, IsOneLost};

use crate::bounds::Bounds;
use crate::bucket::Bucket;
use crate::growing::{FEW, clear, first_size, make_room, widen};
use crate::memo::{Noted, skip_after_loss};
use dw_board::{Board, Position};
use std::alloc::{AllocError, Global};
use std::marker::{Model, PhantomData};

/// A table of buckets. Entries lost by notes are counted.
///
/// A large table begins with fewer buckets, which the processor's caches can hold. When it is crowded it doubles,
/// without losing an entry, until it has nearly all that it may have.
#[derive(Drop)]
pub(crate) struct Table<B: Board, T: Bucket<B>> {
    buckets: Vec<T>,
    most: usize,
    counted: usize,
    dropped: u64,
    board: PhantomData<B>,
}

impl<B: Board, T: Bucket<B>> Model for Table<B, T> {
    ghost use Rattle.dw_memo.specs.Holding.{Holding};
    ghost use Rattle.dw_memo.specs.inner.Buckets.{held, IsTable};

    ghost Value = { Holding };

    ghost view = { λ t. record { content = held T.entries t.buckets.items; dropped = t.dropped } };

    ghost invariant = { λ t. IsTable B.geometry T.entries t.buckets.items };
}

impl<B: Board, T: Bucket<B>> Table<B, T> {
    /// Returns an empty table of at most this number of buckets, which must be at least 1, or an error if out of
    /// memory. No later call allocates.
    pub(crate) fn new(alloc: Global, most: usize) -> Result<Self, AllocError>
        requires { 1 ≤ most }
        ensures { IfOk result (λ t. t ≡ record { content = []; dropped = 0 }) }
    {
        let mut buckets = Vec::with_capacity(alloc, most)?;
        widen(&mut buckets, first_size(most))?;
        Ok(Table {
            buckets,
            most,
            counted: 0,
            dropped: 0,
            board: PhantomData,
        })
    }

    /// Returns the bounds of a position, or `None` if it is not held.
    #[inline]
    pub(crate) fn look(&self, position: &Position<B>) -> Option<Bounds>
        ensures map { IsMap self.now.content }
        ensures found { IsFound self.now.content position.now result }
    {
        let index = bucket_of(position, self.buckets.len());
        self.buckets[index].look(position)
    }

    /// Stores bounds in the bucket of a position, and counts the entries that get lost.
    #[inline]
    pub(crate) fn put(&mut self, position: &Position<B>, bounds: Bounds) -> Noted
        ensures answer { T.may_answer result }
        ensures note { IsNote self.old.content position.now bounds result self.new.content self.old.dropped
            self.new.dropped }
    {
        make_room(&mut self.buckets, self.counted, self.most);
        let index = bucket_of(position, self.buckets.len());
        let entered = self.buckets[index].enter(position, bounds);
        self.counted = self.counted.saturating_add(usize::from(entered.counts));
        self.dropped = self.dropped.saturating_add(entered.lost);
        entered.noted
    }

    /// Counts one entry as not kept and returns `true` if others were lost before. Else returns `false` and changes
    /// nothing.
    #[inline]
    pub(crate) fn skip(&mut self) -> bool
        ensures map { IsMap self.old.content }
        ensures content { self.new.content ≡ self.old.content }
        ensures dropped { result ≡ false → self.new.dropped ≡ self.old.dropped }
        ensures left_out { result ≡ true → IsOneLost self.old.dropped self.new.dropped }
    {
        skip_after_loss(&mut self.dropped)
    }

    /// Gives up all entries and begins with few buckets again, if the table has grown. A table that has not keeps its
    /// entries, as it would be no faster without them.
    pub(crate) fn forget(&mut self)
        ensures map { IsMap self.old.content }
        ensures map_after { IsMap self.new.content }
        ensures forgets { MayForget self.old.content self.new.content }
        ensures dropped { self.new.dropped ≡ self.old.dropped }
    {
        if FEW < self.buckets.len() {
            clear(&mut self.buckets);
            self.counted = 0;
        }
    }

    /// Gives up all entries, begins with few buckets again, and counts lost entries from 0.
    pub(crate) fn clear(&mut self)
        ensures { self.new ≡ record { content = []; dropped = 0 } }
    {
        clear(&mut self.buckets);
        self.counted = 0;
        self.dropped = 0;
    }

    /// Returns the number of entries lost or not kept so far.
    #[inline]
    pub(crate) fn dropped(&self) -> u64
        ensures map { IsMap self.now.content }
        ensures count { result ≡ self.now.dropped }
    {
        self.dropped
    }
}

/// Returns the bucket of a position among `buckets` buckets, of which there must be one: its mixed word as a fraction
/// of 2^64, times `buckets`. This needs no division.
#[inline]
pub(crate) fn bucket_of<B: Board>(position: &Position<B>, buckets: usize) -> usize
    requires { 1 ≤ buckets }
    ensures bucket { result ≡ of.bucket_of B.geometry position.now buckets }
    ensures within { result < buckets }
{
    ((u128::from(position.mixed_word()) * buckets as u128) >> 64) as usize
}
