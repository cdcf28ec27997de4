//! The bytes that a stream returned or took, for clauses alone.

use std::marker::Model;
use std::mem;
use std::snapshot::Snapshot;

/// No byte, or a byte after others.
#[derive(Drop)]
enum Step {
    Nothing,
    Then(Snapshot<Step>, u8),
}

/// A list of bytes that only clauses see: it takes no memory and no time.
#[derive(Drop)]
pub struct History {
    last: Snapshot<Step>,
}

impl Model for History {
    ghost use Rattle.std.specs.Prelude.{List, ℕ};
    ghost use Rattle.dw_notation.specs.History.{bytes_of};

    ghost Value = { List ℕ };

    ghost view = { λ h. bytes_of h.last.value };
}

impl History {
    ghost use Rattle.std.specs.Prelude.{◌≡◌, [], ◌∷◌, ◌++◌};

    /// Returns the empty list.
    pub fn new() -> History
        ensures { result ≡ [] }
    {
        History {
            last: Snapshot::of(&Step::Nothing),
        }
    }

    /// Adds the bytes of the piece.
    pub fn add(&mut self, piece: &[u8])
        ensures { self.new ≡ self.old ++ piece.now }
    {
        let before = mem::replace(self, History::new());
        *self = before.with(piece);
    }

    fn with(self, piece: &[u8]) -> History
        ensures { result ≡ self ++ piece.now }
    {
        let mut history = self;
        for byte in piece {
            history = history.with_byte(*byte);
        }
        history
    }

    fn with_byte(self, byte: u8) -> History
        ensures { result ≡ self ++ byte ∷ [] }
    {
        let History { last } = self;
        History {
            last: Snapshot::of(&Step::Then(last, byte)),
        }
    }
}
