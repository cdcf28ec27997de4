//! A memo in a table, in which each position has two places, for long searches.
ghost use Rattle.std.specs.Prelude.{◌≡◌, ◌≤◌, [], IfOk, ⊤};

use crate::bounds::Bounds;
use crate::memo::{Memo, Noted};
use crate::pair::Pair;
use crate::table::Table;
use dw_board::{Board, Position};
use std::alloc::{AllocError, Global};
use std::marker::Model;

/// A table of pairs of places. A new position takes a free place of its pair. If both are taken, it replaces the one of
/// less value: the moves that its bounds decide, less one for each sixteen of age. An entry ages when a result of two
/// moves or more comes in beside it. A one-move result does not replace an entry worth two moves or more, and is then
/// not stored.
///
/// A large table starts small, as a [`SlotMemo`](crate::slot_memo::SlotMemo) does. When told to forget, a table that
/// has grown becomes empty and small again, because results of other problems would be in the way.
#[derive(Drop)]
pub struct DeepMemo<B: Board> {
    table: Table<B, Pair<B>>,
}

impl<B: Board> Model for DeepMemo<B> {
    ghost use Rattle.dw_memo.specs.Holding.{Holding};

    ghost Value = { Holding };

    ghost view = { λ m. m.table };
}

impl<B: Board> DeepMemo<B> {
    /// Returns an empty memo of `places` places, rounded up to an even number, or an error if out of memory. `places`
    /// must be from 1 to 4,000,000. No later call allocates.
    pub fn new(alloc: Global, places: usize) -> Result<Self, AllocError>
        requires some { 1 ≤ places }
        requires most { places ≤ 4_000_000 }
        ensures { IfOk result (λ m. m ≡ record { content = []; dropped = 0 }) }
    {
        let pairs = places.div_ceil(2);
        Ok(DeepMemo {
            table: Table::new(alloc, pairs)?,
        })
    }
}

impl<B: Board> Memo<B> for DeepMemo<B> {
    ghost content = { λ m. m.content };

    ghost dropped = { λ m. m.dropped };

    ghost may_answer = { λ _. ⊤ };

    ghost keeps = { ⊥ };

    fn look(&mut self, position: &Position<B>) -> Option<Bounds> {
        self.table.look(position)
    }

    fn put(&mut self, position: &Position<B>, bounds: Bounds) -> Noted {
        self.table.put(position, bounds)
    }

    fn forget(&mut self) {
        self.table.forget();
    }

    fn skip_one_move(&mut self) -> bool {
        self.table.skip()
    }

    fn clear(&mut self) {
        self.table.clear();
    }

    fn dropped(&self) -> u64 {
        self.table.dropped()
    }
}
