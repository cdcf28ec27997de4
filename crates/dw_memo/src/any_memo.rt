//! A memo whose kind is chosen while the program runs.
ghost use Rattle.std.specs.Prelude.{⊤};
ghost use Rattle.dw_memo.specs.Choice.{content_of, dropped_of};

use crate::bounds::Bounds;
use crate::deep_memo::DeepMemo;
use crate::lru_memo::LruMemo;
use crate::memo::{Memo, Noted};
use crate::no_memo::NoMemo;
use crate::slot_memo::SlotMemo;
use dw_board::{Board, Position};

/// One of the four kinds of memo. Generic code over it is compiled once, and not once for each kind.
#[derive(Drop)]
pub enum AnyMemo<B: Board> {
    None(NoMemo),
    Lru(LruMemo<B>),
    Slots(SlotMemo<B>),
    Deep(DeepMemo<B>),
}

impl<B: Board> Memo<B> for AnyMemo<B> {
    ghost content = { content_of };

    ghost dropped = { dropped_of };

    ghost may_answer = { λ _. ⊤ };

    ghost keeps = { ⊥ };

    fn look(&mut self, position: &Position<B>) -> Option<Bounds> {
        match self {
            AnyMemo::None(memo) => memo.look(position),
            AnyMemo::Lru(memo) => memo.look(position),
            AnyMemo::Slots(memo) => memo.look(position),
            AnyMemo::Deep(memo) => memo.look(position),
        }
    }

    fn put(&mut self, position: &Position<B>, bounds: Bounds) -> Noted {
        match self {
            AnyMemo::None(memo) => memo.put(position, bounds),
            AnyMemo::Lru(memo) => memo.put(position, bounds),
            AnyMemo::Slots(memo) => memo.put(position, bounds),
            AnyMemo::Deep(memo) => memo.put(position, bounds),
        }
    }

    fn skip_one_move(&mut self) -> bool {
        match self {
            AnyMemo::None(memo) => Memo::<B>::skip_one_move(memo),
            AnyMemo::Lru(memo) => memo.skip_one_move(),
            AnyMemo::Slots(memo) => memo.skip_one_move(),
            AnyMemo::Deep(memo) => memo.skip_one_move(),
        }
    }

    fn forget(&mut self) {
        match self {
            AnyMemo::None(memo) => Memo::<B>::forget(memo),
            AnyMemo::Lru(memo) => memo.forget(),
            AnyMemo::Slots(memo) => memo.forget(),
            AnyMemo::Deep(memo) => memo.forget(),
        }
    }

    fn clear(&mut self) {
        match self {
            AnyMemo::None(memo) => Memo::<B>::clear(memo),
            AnyMemo::Lru(memo) => memo.clear(),
            AnyMemo::Slots(memo) => memo.clear(),
            AnyMemo::Deep(memo) => memo.clear(),
        }
    }

    fn dropped(&self) -> u64 {
        match self {
            AnyMemo::None(memo) => Memo::<B>::dropped(memo),
            AnyMemo::Lru(memo) => memo.dropped(),
            AnyMemo::Slots(memo) => memo.dropped(),
            AnyMemo::Deep(memo) => memo.dropped(),
        }
    }
}
