//! The memo of a program, which it has until its end.
ghost use Rattle.std.specs.Prelude.{◌≡◌, ◌≤◌, [], IfOk, ⊤};
ghost use Rattle.dw_memo.specs.Choice.{content_of, dropped_of};

use dw_arguments::MemoKind;
use dw_board::{Board, Position};
use dw_memo::{AnyMemo, Bounds, DeepMemo, LruMemo, Memo, NoMemo, Noted, SlotMemo};
use std::alloc::{AllocError, Global};
use std::marker::Model;

/// A memo that is never freed: the program that drops it is about to end, and then the system takes all memory at once.
/// Freeing each entry before that would take longer. A program that goes on calls `clear`, which frees entries.
pub struct LeakedMemo<B: Board> {
    memo: AnyMemo<B>,
}

impl<B: Board> Model for LeakedMemo<B> {
    ghost use Rattle.dw_memo.specs.declared.any_memo.AnyMemo.{AnyMemo};

    ghost Value = { AnyMemo B };

    ghost view = { λ l. l.memo };
}

impl<B: Board> LeakedMemo<B> {
    /// Wraps a memo, which then stays until the program ends.
    pub fn new(memo: AnyMemo<B>) -> Self
        ensures { result ≡ memo }
    {
        LeakedMemo { memo }
    }
}

impl<B: Board> Drop for LeakedMemo<B> {
    fn drop(self) {
        let LeakedMemo { memo } = self;
        std::mem::forget(memo);
    }
}

impl<B: Board> Memo<B> for LeakedMemo<B> {
    ghost content = { content_of };

    ghost dropped = { dropped_of };

    ghost may_answer = { λ _. ⊤ };

    ghost keeps = { ⊥ };

    fn look(&mut self, position: &Position<B>) -> Option<Bounds> {
        self.memo.look(position)
    }

    fn put(&mut self, position: &Position<B>, bounds: Bounds) -> Noted {
        self.memo.put(position, bounds)
    }

    fn skip_one_move(&mut self) -> bool {
        self.memo.skip_one_move()
    }

    fn forget(&mut self) {
        self.memo.forget();
    }

    fn clear(&mut self) {
        self.memo.clear();
    }

    fn dropped(&self) -> u64 {
        self.memo.dropped()
    }
}

/// Returns an empty memo of this kind for `cache` positions, which must be 1 to 4,000,000.
///
/// # Errors
///
/// Memory was refused.
pub fn memo_of<B: Board>(
    alloc: Global,
    kind: MemoKind,
    cache: usize,
) -> Result<LeakedMemo<B>, AllocError>
    requires some { 1 ≤ cache }
    requires few { cache ≤ 4_000_000 }
    ensures { IfOk result (λ memo. content_of memo ≡ []) }
{
    let memo = match kind {
        MemoKind::None => AnyMemo::None(NoMemo::new()),
        MemoKind::Lru => AnyMemo::Lru(LruMemo::new(alloc, cache)?),
        MemoKind::Slots => AnyMemo::Slots(SlotMemo::new(alloc, cache)?),
        MemoKind::Deep => AnyMemo::Deep(DeepMemo::new(alloc, cache)?),
    };
    Ok(LeakedMemo::new(memo))
}
