//! The positions of problems, and which of them repeat an earlier one.
ghost use Rattle.std.specs.Prelude.{◌≡◌, ◌++◌, ◌∷◌, [], List, IfOk, OnErr, OnOk};
ghost use Rattle.dw_same.specs.Repeats.{IsFirstSame, Noted};
ghost use Rattle.dw_same.specs.inner.Keys.{AreAdded, repeat_of};

use crate::key::key_of;
use dw_board::{Board, Position, Side};
use indexmap::IndexMap;
use std::alloc::{AllocError, Global};
use std::marker::PhantomData;

/// How a position repeats an earlier problem, and the number of that problem.
#[derive(Clone, Copy, Debug, PartialEq, Eq)]
pub enum Repeat {
    /// The problem has the same position.
    Same(u32),
    /// The problem has the position turned by 180 degrees, with the colours and the side to move exchanged.
    Turned(u32),
}

/// The first problem of those that are the same: its number, and the side to move.
#[derive(Clone, Copy)]
pub(crate) struct First {
    number: u32,
    turn: Side,
}

impl First {
    /// Returns how a position with this side to move repeats the problem, if it is the same.
    fn repeat_of(self, turn: Side) -> Repeat
        ensures { result ≡ repeat_of self turn }
    {
        if self.turn == turn {
            Repeat::Same(self.number)
        } else {
            Repeat::Turned(self.number)
        }
    }
}

/// The positions of problems. A look-up takes the same time however many they are.
///
/// It stores only the first of the problems that are the same, by the position with White to move: of a position and
/// its turned one, exactly one has White to move.
#[derive(Drop)]
pub struct ProblemIndex<B: Board> {
    firsts: IndexMap<[u8; 50], First>,
    board: PhantomData<B>,
}

impl<B: Board> ProblemIndex<B> {
    /// Returns an index of no problems.
    pub fn new(alloc: Global) -> Self
        ensures { AreAdded B.geometry [] result }
    {
        ProblemIndex {
            firsts: IndexMap::new(alloc),
            board: PhantomData,
        }
    }

    /// Adds a problem. Returns how it repeats the first of those before it that is the same, or `None` if it is new. If
    /// memory is refused, nothing changes.
    pub fn add(&mut self, number: u32, position: &Position<B>) -> Result<Option<Repeat>, AllocError>
        ensures repeat { IfOk result (λ repeat. (problems : List Noted) → AreAdded B.geometry problems self.old
            → IsFirstSame B.geometry problems position.now repeat) }
        ensures added { OnOk result ((problems : List Noted) → AreAdded B.geometry problems self.old
            → AreAdded B.geometry (problems ++ record { number = number; position = position.now } ∷ []) self.new) }
        ensures refused { OnErr result ((problems : List Noted) → AreAdded B.geometry problems self.old
            → AreAdded B.geometry problems self.new) }
    {
        let key = key_of(position);
        let turn = position.turn();
        if let Some(first) = self.firsts.get(&key) {
            return Ok(Some(first.repeat_of(turn)));
        }
        self.firsts.insert(key, First { number, turn })?;
        Ok(None)
    }
}
