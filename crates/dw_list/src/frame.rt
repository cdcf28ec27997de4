//! One level of a lister's stack.
ghost use Rattle.std.specs.Prelude.{◌≡◌, ◌↔◌, IsTrue, IsSome, OnOk, OnErr, None, Some, drop, map, false};
ghost use Rattle.dw_moves.specs.Moves.{NoMove};
ghost use Rattle.dw_moves.specs.Order.{AreListed};
ghost use Rattle.dw_list.specs.inner.Steps.{begun, first_ahead, passed, IsListing};

use dw_board::{Board, Position, Side};
use dw_moves::{Listed, Move, listed_into};
use std::alloc::{AllocError, Global};
use std::marker::Model;

/// A position on the way of a line, its moves in order once they are listed, and how many of them were passed.
#[derive(Drop)]
pub(crate) struct Frame<B: Board> {
    position: Position<B>,
    attacks: bool,
    left: u8,
    moves: Option<Vec<Listed<B>>>,
    passed: usize,
    /// The list of a position where the frame stood before, kept for its memory alone.
    spare: Option<Vec<Listed<B>>>,
}

impl<B: Board> Model for Frame<B> {
    ghost use Rattle.std.specs.Prelude.{option_map, drop, map};
    ghost use Rattle.dw_list.specs.LineStack.{Level};
    ghost use Rattle.dw_list.specs.inner.LineStackCodes.{level_code};

    ghost Value = { Level };

    ghost coded = { level_code };

    ghost view = { λ f. record {
      position = f.position;
      attacks = f.attacks;
      left = f.left;
      ahead = option_map (λ list. drop f.passed (map (λ l. l.step) list.items)) f.moves;
    } };
}

impl<B: Board> Frame<B> {
    /// Returns a frame at a position whose moves are not listed.
    pub(crate) fn new(position: Position<B>, attacks: bool, left: u8) -> Self
        ensures { result ≡ begun position attacks left }
    {
        Frame {
            position,
            attacks,
            left,
            moves: None,
            passed: 0,
            spare: None,
        }
    }

    /// Begins anew at a position whose moves are not listed. The memory of the last list serves for the next one.
    pub(crate) fn begin(&mut self, position: Position<B>, attacks: bool, left: u8)
        ensures { self.new ≡ begun position attacks left }
    {
        if self.moves.is_some() {
            self.spare = self.moves.take();
        }
        self.position = position;
        self.attacks = attacks;
        self.left = left;
        self.passed = 0;
    }

    pub(crate) fn position(&self) -> &Position<B>
        ensures { result.now ≡ self.now.position }
    {
        &self.position
    }

    /// Returns whether the attacker is to move.
    pub(crate) fn attacks(&self) -> bool
        ensures { result ≡ self.now.attacks }
    {
        self.attacks
    }

    /// Returns the number of moves that the attacker has left.
    pub(crate) fn left(&self) -> u8
        ensures { result ≡ self.now.left }
    {
        self.left
    }

    pub(crate) fn is_listed(&self) -> bool
        ensures { IsTrue result ↔ IsSome self.now.ahead }
    {
        self.moves.is_some()
    }

    /// Returns the next move, if one is listed.
    pub(crate) fn first(&self) -> Option<Move<B>>
        ensures { result ≡ first_ahead self.now.ahead }
    {
        match &self.moves {
            None => None,
            Some(list) => first_at(list.as_slice(), self.passed),
        }
    }

    /// Returns whether a line ends here: the moves are listed, and the defender has none.
    pub(crate) fn ends_line(&self) -> bool
        ensures { IsTrue result ↔ ((self.now.attacks ≡ false) × (first_ahead self.now.ahead ≡ None)) }
    {
        !self.attacks && self.first().is_none()
    }

    /// Returns whether the defender is to move, and the attacker has no moves left.
    fn is_over(&self) -> bool
        ensures { IsTrue result ↔ ((self.now.attacks ≡ false) × (self.now.left ≡ 0)) }
    {
        !self.attacks && self.left == 0
    }

    /// Lists the moves of the position. The defender must have none if the attacker has no moves left.
    pub(crate) fn list(&mut self, alloc: Global) -> Result<(), AllocError>
        requires { self.old.attacks ≡ false → self.old.left ≡ 0 → NoMove B.geometry self.old.position }
        ensures ok { OnOk result (IsListing B.geometry self.old self.new) }
        ensures err { OnErr result (self.new ≡ self.old) }
    {
        let mut list = match self.spare.take() {
            Some(list) => list,
            None => Vec::new(alloc),
        };
        let is_over = self.is_over();
        fill(&self.position, is_over, &mut list)?;
        self.moves = Some(list);
        self.passed = 0;
        Ok(())
    }

    /// Passes the next move, if one is listed.
    pub(crate) fn pass(&mut self)
        ensures { self.new ≡ passed self.old }
    {
        let count = match &self.moves {
            None => 0,
            Some(list) => list.len(),
        };
        if self.passed < count {
            self.passed += 1;
        }
    }
}

/// Fills a list with all legal moves in order. If the play is over, there must be none.
fn fill<B: Board>(
    position: &Position<B>,
    is_over: bool,
    list: &mut Vec<Listed<B>>,
) -> Result<(), AllocError>
    requires { IsTrue is_over → NoMove B.geometry position.now }
    ensures { OnOk result (AreListed B.geometry position.now list.new.items) }
{
    if is_over {
        list.clear();
        return Ok(());
    }
    listed_into(position, list)
}

/// Returns the first move after `passed` moves.
fn first_at<B: Board>(list: &[Listed<B>], passed: usize) -> Option<Move<B>>
    ensures { result ≡ first_ahead (Some (drop passed (map (λ l. l.step) list.now))) }
{
    if passed < list.len() {
        let item = &list[passed];
        Some(item.step)
    } else {
        None
    }
}

/// A value to fill an array with.
impl<B: Board> Default for Frame<B> {
    ghost is_default = { λ f. f.ahead ≡ None };

    fn default() -> Self {
        Frame::new(Position::empty(Side::White), false, 0)
    }
}
