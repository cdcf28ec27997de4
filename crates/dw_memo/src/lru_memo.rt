//! A memo that gives up the entries that were used longest ago, and one-move results.
ghost use Rattle.std.specs.Prelude.{◌≡◌, ◌≤◌, [], IfOk, Some, ⊤, false};
ghost use Rattle.lru.specs.LruCache.{last_entry};
ghost use Rattle.dw_board.specs.Lists.{Member};
ghost use Rattle.dw_memo.specs.Content.{SameEntries, positions};
ghost use Rattle.dw_memo.specs.Noting.{IsNote};
ghost use Rattle.dw_memo.specs.Recent.{content_of, IsRecent};

use crate::bounds::Bounds;
use crate::fact::{Fact, bounds_of};
use crate::memo::{Memo, Noted, skip_after_loss};
use dw_board::{Board, Position};
use lru::LruCache;
use std::alloc::{AllocError, Global};
use std::marker::Model;
use std::num::NonZeroUsize;

/// A memo of a fixed number of positions. If it is full, a new position replaces the one that was used longest ago. But
/// an old entry lives on if it has more lives left than the new one: it has one for each move that its bounds decide,
/// and loses one each time. If the next entry lives on too, the new one is not stored. A full memo stores no one-move
/// result of a new position.
#[derive(Drop)]
pub struct LruMemo<B: Board> {
    cache: LruCache<Position<B>, Fact>,
    dropped: u64,
}

impl<B: Board> Model for LruMemo<B> {
    ghost use Rattle.dw_memo.specs.Holding.{Holding};
    ghost use Rattle.dw_memo.specs.Recent.{content_of, IsRecent};

    ghost Value = { Holding };

    ghost view = { λ m. record { content = content_of m.cache.entries; dropped = m.dropped } };

    ghost invariant = { λ m. IsRecent m.cache.entries m.cache.cap };
}

impl<B: Board> LruMemo<B> {
    /// Returns an empty memo of `capacity` positions, or an error if out of memory. `capacity` must be from 1 to
    /// 4,000,000.
    pub fn new(alloc: Global, capacity: usize) -> Result<Self, AllocError>
        requires some { 1 ≤ capacity }
        requires most { capacity ≤ 4_000_000 }
        ensures { IfOk result (λ m. m ≡ record { content = []; dropped = 0 }) }
    {
        let capacity = NonZeroUsize::new(capacity).unwrap();
        Ok(LruMemo {
            cache: LruCache::sparse(alloc, capacity)?,
            dropped: 0,
        })
    }
}

impl<B: Board> Memo<B> for LruMemo<B> {
    ghost content = { λ m. m.content };

    ghost dropped = { λ m. m.dropped };

    ghost may_answer = { λ _. ⊤ };

    fn look(&mut self, position: &Position<B>) -> Option<Bounds> {
        bounds_of(self.cache.get(position).copied())
    }

    fn put(&mut self, position: &Position<B>, bounds: Bounds) -> Noted {
        let (noted, lost) = push(&mut self.cache, *position, bounds);
        self.dropped = self.dropped.saturating_add(lost);
        noted
    }

    fn skip_one_move(&mut self) -> bool {
        skip_after_loss(&mut self.dropped)
    }

    fn clear(&mut self) {
        self.cache.clear();
        self.dropped = 0;
    }

    fn dropped(&self) -> u64 {
        self.dropped
    }
}

/// Stores bounds in a cache. Returns whether they were kept, and the number of entries lost by it.
fn push<B: Board>(
    cache: &mut LruCache<Position<B>, Fact>,
    position: Position<B>,
    bounds: Bounds,
) -> (Noted, u64)
    requires { IsRecent cache.old.entries cache.old.cap }
    ensures recent { IsRecent cache.new.entries cache.new.cap }
    ensures note { IsNote (content_of cache.old.entries) position bounds result.0 (content_of cache.new.entries) 0
        result.1 }
{
    if !has_place(cache, &position, bounds.depth()) {
        return (Noted::NotKept, 1);
    }
    match cache.push(position, Fact::new(bounds)) {
        // The former bounds of this position, or the entry that was replaced.
        Ok(Some((other, _))) => (Noted::Kept, u64::from(other != position)),
        Ok(None) => (Noted::Kept, 0),
        Err(_) => (Noted::NotKept, 1),
    }
}

/// Returns whether a position has a place in a cache, or gets one for bounds of this depth.
fn has_place<B: Board>(
    cache: &mut LruCache<Position<B>, Fact>,
    position: &Position<B>,
    depth: u8,
) -> bool
    requires { IsRecent cache.old.entries cache.old.cap }
    ensures recent { IsRecent cache.new.entries cache.new.cap }
    ensures same { SameEntries (content_of cache.old.entries) (content_of cache.new.entries) }
    ensures none { result ≡ false → Member position.now (positions (content_of cache.old.entries)) → ⊥ }
{
    if cache.len() < cache.cap().get() || cache.contains(position) {
        return true;
    }
    gives_way(cache, depth)
}

/// Returns whether a full cache gives up its oldest entry for bounds of this depth: not for one move, and not if two
/// old entries in turn live on.
fn gives_way<B: Board>(cache: &mut LruCache<Position<B>, Fact>, depth: u8) -> bool
    requires { IsRecent cache.old.entries cache.old.cap }
    ensures recent { IsRecent cache.new.entries cache.new.cap }
    ensures same { SameEntries (content_of cache.old.entries) (content_of cache.new.entries) }
{
    if depth <= 1 {
        return false;
    }
    if !lives_on(cache, depth) {
        return true;
    }
    !lives_on(cache, depth)
}

/// Returns whether the oldest entry has more lives than the given number. It then moves to the front and loses one.
fn lives_on<B: Board>(cache: &mut LruCache<Position<B>, Fact>, lives: u8) -> bool
    requires { IsRecent cache.old.entries cache.old.cap }
    ensures recent { IsRecent cache.new.entries cache.new.cap }
    ensures same { SameEntries (content_of cache.old.entries) (content_of cache.new.entries) }
{
    let Some((position, fact)) = oldest(cache) else {
        return false;
    };
    if fact.lives() <= lives {
        return false;
    }
    use_again(cache, position, fact)
}

/// Puts the oldest entry, which must be this one, at the front, older by one. Returns whether that worked; memory is
/// never refused for it.
fn use_again<B: Board>(
    cache: &mut LruCache<Position<B>, Fact>,
    position: Position<B>,
    fact: Fact,
) -> bool
    requires recent { IsRecent cache.old.entries cache.old.cap }
    requires last { last_entry cache.old.entries ≡ Some (position, fact) }
    ensures recent { IsRecent cache.new.entries cache.new.cap }
    ensures same { SameEntries (content_of cache.old.entries) (content_of cache.new.entries) }
{
    match cache.push(position, fact.older()) {
        Ok(_) => true,
        Err(_) => false,
    }
}

/// Returns the position that was used longest ago and its fact, or `None` in an empty cache.
fn oldest<B: Board>(cache: &LruCache<Position<B>, Fact>) -> Option<(Position<B>, Fact)>
    ensures { result ≡ last_entry cache.now.entries }
{
    let (position, fact) = cache.peek_lru()?;
    Some((*position, *fact))
}
