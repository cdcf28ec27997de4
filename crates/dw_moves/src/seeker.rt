//! A search for one capture among those that a walk offers.
ghost use Rattle.std.specs.Prelude.{◌≡◌, ◌↔◌, [], IsTrue};
ghost use Rattle.dw_moves.specs.Order.{Listed};
ghost use Rattle.dw_moves.specs.inner.Walks.{Sought, These};

use crate::keeper::Keeper;
use crate::moves::{LONGEST_PATH, Move};
use arrayvec::ArrayVec;
use dw_board::{Board, Square};
use std::convert::Infallible;

/// A test that the sought captures pass.
pub(crate) trait Aim<B: Board> {
    /// A capture passes the test.
    ghost is_met_by: { Self → Listed → Type 0 };

    /// Returns whether this move, made along this path, passes the test.
    fn is_met(&self, mv: &Move<B>, path: &[Square<B>]) -> bool
        ensures { IsTrue result ↔ is_met_by self.now (record { step = mv.now; path = path.now }) };
}

/// Keeps the last capture that passes a test, among those that take the most pieces.
#[derive(Drop)]
pub(crate) struct Seeker<'a, B: Board, A: Aim<B>> {
    aim: &'a A,
    path: ArrayVec<Square<B>, LONGEST_PATH>,
    most: u8,
    pub(crate) found: Option<Move<B>>,
}

impl<'a, B: Board, A: Aim<B>> Seeker<'a, B, A> {
    /// Returns a seeker that has been offered no capture yet.
    pub(crate) fn of(aim: &'a A) -> Self
        ensures aim { result.aim.now ≡ aim.now }
        ensures none { Sought (These []) A.is_met_by result.aim.now result.aim.now result.most result.found }
    {
        Seeker {
            aim,
            path: ArrayVec::new(),
            most: 0,
            found: None,
        }
    }
}

impl<'a, B: Board, A: Aim<B>> Keeper<B> for Seeker<'a, B, A> {
    type Fault = Infallible;

    ghost holds = { λ first xs k. Sought (These xs) A.is_met_by first.aim.now k.aim.now k.most k.found };

    ghost is_on = { λ k path. k.path.items ≡ path };

    fn begin(&mut self, from: &Square<B>) {
        self.path.clear();
        self.path.push(*from);
    }

    fn enter(&mut self, landing: &Square<B>) {
        self.path.push(*landing);
    }

    fn leave(&mut self) {
        self.path.pop();
    }

    fn offer(&mut self, mv: &Move<B>, count: u8) -> Result<(), Infallible> {
        if count < self.most {
            return Ok(());
        }
        if self.most < count {
            self.most = count;
            self.found = None;
        }
        if self.aim.is_met(mv, self.path.as_slice()) {
            self.found = Some(*mv);
        }
        Ok(())
    }
}
