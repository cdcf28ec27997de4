//! A memo in a table, in which each position has one slot.
ghost use Rattle.std.specs.Prelude.{◌≡◌, ◌≤◌, [], IfOk};
ghost use Rattle.dw_memo.specs.declared.memo.Noted.TheVariants.{Kept};

use crate::bounds::Bounds;
use crate::memo::{Memo, Noted};
use crate::slot::Slot;
use crate::table::Table;
use dw_board::{Board, Position};
use std::alloc::{AllocError, Global};
use std::marker::Model;

/// A table of slots. A noted position replaces the one in its slot. All memory of the table is taken at the start.
///
/// A large table begins with fewer slots, which the processor's caches can hold. When nearly all of them hold a
/// position it doubles, without losing any, until it has nearly all that it may have.
#[derive(Drop)]
pub struct SlotMemo<B: Board> {
    table: Table<B, Slot<B>>,
}

impl<B: Board> Model for SlotMemo<B> {
    ghost use Rattle.dw_memo.specs.Holding.{Holding};

    ghost Value = { Holding };

    ghost view = { λ m. m.table };
}

impl<B: Board> SlotMemo<B> {
    /// Returns an empty memo of `slots` slots, or an error if out of memory. `slots` must be from 1 to 4,000,000. No
    /// later call allocates.
    pub fn new(alloc: Global, slots: usize) -> Result<Self, AllocError>
        requires some { 1 ≤ slots }
        requires most { slots ≤ 4_000_000 }
        ensures { IfOk result (λ m. m ≡ record { content = []; dropped = 0 }) }
    {
        Ok(SlotMemo {
            table: Table::new(alloc, slots)?,
        })
    }
}

impl<B: Board> Memo<B> for SlotMemo<B> {
    ghost content = { λ m. m.content };

    ghost dropped = { λ m. m.dropped };

    ghost may_answer = { λ answer. answer ≡ Kept };

    fn look(&mut self, position: &Position<B>) -> Option<Bounds> {
        self.table.look(position)
    }

    fn put(&mut self, position: &Position<B>, bounds: Bounds) -> Noted {
        self.table.put(position, bounds)
    }

    fn skip_one_move(&mut self) -> bool {
        self.table.skip()
    }

    fn clear(&mut self) {
        self.table.clear();
    }

    fn dropped(&self) -> u64 {
        self.table.dropped()
    }
}
