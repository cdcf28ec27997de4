//! The trait of memos, the caches of bounds.
ghost use Rattle.std.specs.Prelude.{◌≡◌, ℕ, [], true, false, ⊤};
ghost use Rattle.dw_memo.specs.Content.{Content, IsMap, SameEntries, IsFound, MayForget};
ghost use Rattle.dw_memo.specs.Noting.{IsNote, IsOneLost};

use crate::bounds::Bounds;
use dw_board::{Board, Position};

/// Whether a note was kept.
#[derive(Clone, Copy, Debug, PartialEq, Eq)]
pub enum Noted {
    Kept,
    NotKept,
}

/// A map from positions to bounds that may forget. It counts the entries that it forgets.
///
/// In contracts, `content` is the map, `dropped` is the count, and `may_answer` states which answers a note can give.
/// `keeps` states that `forget` gives up no entry, by default that it is so.
pub trait Memo<B: Board> {
    ghost use Rattle.dw_memo.specs.declared.memo.Noted.{Noted};

    ghost content: { Self → Content };

    ghost dropped: { Self → ℕ };

    ghost may_answer: { Noted → Type 0 };

    ghost keeps: { Type 0 } = { ⊤ };

    /// Returns the bounds of a position, the side to move included, or `None` if it is not held.
    fn look(&mut self, position: &Position<B>) -> Option<Bounds>
        ensures map { IsMap (content self.old) }
        ensures found { IsFound (content self.old) position.now result }
        ensures map_after { IsMap (content self.new) }
        ensures same { SameEntries (content self.old) (content self.new) }
        ensures dropped { dropped self.new ≡ dropped self.old };

    /// Stores these bounds for a position in place of earlier ones. Entries may get lost, the new one too, and each is
    /// counted. Implementors write this method; callers use `note`.
    fn put(&mut self, position: &Position<B>, bounds: Bounds) -> Noted
        ensures answer { may_answer result }
        ensures note { IsNote (content self.old) position.now bounds result (content self.new) (dropped self.old)
            (dropped self.new) };

    /// Returns `true` if the caller is to leave out bounds of one move alone: neither look them up nor note them. One
    /// entry is then counted as not kept. Else returns `false` and changes nothing. Once a memo has lost entries,
    /// finding such bounds again is faster than looking them up.
    fn skip_one_move(&mut self) -> bool
        ensures map { IsMap (content self.old) }
        ensures map_after { IsMap (content self.new) }
        ensures same { SameEntries (content self.old) (content self.new) }
        ensures dropped { result ≡ false → dropped self.new ≡ dropped self.old }
        ensures left_out { result ≡ true → IsOneLost (dropped self.old) (dropped self.new) }
    {
        // This call shows that the content is a map, as in `forget`.
        let _ = self.dropped();
        false
    }

    /// Announces that the next questions have little to do with the earlier ones. A memo may drop all entries then, if
    /// it is faster without them. They do not count as lost. Most memos keep theirs.
    fn forget(&mut self)
        ensures map { IsMap (content self.old) }
        ensures map_after { IsMap (content self.new) }
        ensures forgets { MayForget (content self.old) (content self.new) }
        ensures keeps { keeps → SameEntries (content self.old) (content self.new) }
        ensures dropped { dropped self.new ≡ dropped self.old }
    {
        // This call shows that the content is a map. The law `keeps_its_map` cannot be called here.
        let _ = self.dropped();
    }

    /// Drops all entries, and counts lost ones from 0: the memo is as empty as a new one.
    fn clear(&mut self)
        ensures empty { content self.new ≡ [] }
        ensures dropped { dropped self.new ≡ 0 };

    /// Returns the number of entries lost or not kept so far. It stays at `u64::MAX` once it is reached.
    fn dropped(&self) -> u64
        ensures map { IsMap (content self.now) }
        ensures count { result ≡ dropped self.now };

    /// States that each position has at most one entry. A law, which does nothing.
    final fn keeps_its_map(&self)
        ensures { IsMap (content self.now) }
    {
        let _ = self.dropped();
    }

    /// Stores these bounds for a position in place of earlier ones, and returns whether they were kept. Entries may get
    /// lost, the new one too, and each is counted.
    final fn note(&mut self, position: Position<B>, bounds: Bounds) -> Noted
        ensures answer { may_answer result }
        ensures note { IsNote (content self.old) position bounds result (content self.new) (dropped self.old)
            (dropped self.new) }
    {
        self.put(&position, bounds)
    }
}

/// Counts one more lost entry and returns `true` if some were lost before. Else returns `false` and changes nothing.
#[inline]
pub(crate) fn skip_after_loss(dropped: &mut u64) -> bool
    ensures none { result ≡ false → dropped.new ≡ dropped.old }
    ensures one { result ≡ true → IsOneLost dropped.old dropped.new }
{
    if *dropped == 0 {
        return false;
    }
    *dropped = dropped.saturating_add(1);
    true
}
