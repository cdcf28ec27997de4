//! A bucket of a table: the places in which a position can stand.
ghost use Rattle.std.specs.Prelude.{◌≡◌, ◌≤◌, []};
ghost use Rattle.dw_memo.specs.Content.{IsMap, IsFound};
ghost use Rattle.dw_memo.specs.Noting.{IsNote};
ghost use Rattle.dw_memo.specs.inner.Growing.{IsSplit};

use crate::bounds::Bounds;
use crate::memo::Noted;
use dw_board::{Board, Position};

/// The effect of bounds that came to a bucket.
#[derive(Clone, Copy)]
pub(crate) struct Entered {
    pub(crate) noted: Noted,
    /// The number of entries lost by it, the new one too.
    pub(crate) lost: u64,
    /// Whether it counts in `is_crowded`.
    pub(crate) counts: bool,
}

/// One or more places for positions with their bounds.
pub(crate) trait Bucket<B: Board>: Copy {
    ghost use Rattle.dw_memo.specs.Content.{Content};
    ghost use Rattle.dw_memo.specs.declared.memo.Noted.{Noted};

    ghost entries: { Self → Content };

    ghost may_answer: { Noted → Type 0 };

    /// Returns a bucket in which nothing stands.
    fn empty() -> Self
        ensures { entries result ≡ [] };

    /// Returns the bounds of a position, or `None` if it does not stand there.
    fn look(&self, position: &Position<B>) -> Option<Bounds>
        ensures { IsFound (entries self.now) position.now result };

    /// Stores the bounds of a position in place of its earlier ones, and returns the effect.
    fn enter(&mut self, position: &Position<B>, bounds: Bounds) -> Entered
        requires { IsMap (entries self.old) }
        ensures answer { may_answer result.noted }
        ensures note { IsNote (entries self.old) position.now bounds result.noted (entries self.new) 0 result.lost };

    /// Splits the bucket in two: the entries of the given bucket among `buckets` buckets, and the others.
    fn split(&self, index: usize, buckets: usize) -> (Self, Self)
        requires some { 1 ≤ buckets }
        requires map { IsMap (entries self.now) }
        ensures { IsSplit B.geometry buckets index (entries self.now) (entries result.0) (entries result.1) };

    /// Returns whether a table of `buckets` buckets loses too much, after this number of counted entries.
    fn is_crowded(buckets: usize, counted: usize) -> bool;
}
