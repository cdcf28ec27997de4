//! A memo that holds nothing.
ghost use Rattle.std.specs.Prelude.{◌≡◌, []};
ghost use Rattle.dw_memo.specs.declared.memo.Noted.TheVariants.{NotKept};

use crate::bounds::Bounds;
use crate::memo::{Memo, Noted};
use dw_board::{Board, Position};
use std::marker::Model;

/// Stores nothing, and counts the notes.
#[derive(Drop)]
pub struct NoMemo {
    dropped: u64,
}

impl Model for NoMemo {
    ghost use Rattle.std.specs.Prelude.{ℕ};

    ghost Value = { ℕ };

    ghost view = { λ m. m.dropped };
}

impl NoMemo {
    /// Returns a memo that has counted no note yet.
    pub fn new() -> Self
        ensures { result ≡ 0 }
    {
        NoMemo { dropped: 0 }
    }
}

impl<B: Board> Memo<B> for NoMemo {
    ghost content = { λ _. [] };

    ghost dropped = { λ m. m };

    ghost may_answer = { λ answer. answer ≡ NotKept };

    fn look(&mut self, _position: &Position<B>) -> Option<Bounds> {
        None
    }

    fn put(&mut self, _position: &Position<B>, _bounds: Bounds) -> Noted {
        self.dropped = self.dropped.saturating_add(1);
        Noted::NotKept
    }

    fn clear(&mut self) {
        self.dropped = 0;
    }

    fn dropped(&self) -> u64 {
        self.dropped
    }
}
