//! Legal moves.
ghost use Rattle.std.specs.Prelude.{◌≡◌, ◌↔◌, ◌≤◌, ℕ, List, [], ◌∷◌, ◌++◌, IfOk, OnOk, OnErr, IsTrue};
ghost use Rattle.std.specs.FinSet as set;
ghost use Rattle.dw_moves.specs.Moves.{Legal, AreLegal};
ghost use Rattle.dw_moves.specs.Order.{Listed};
ghost use Rattle.dw_moves.specs.inner.Walks.{Makes, MovesHeld, These};

use crate::glance::can_capture;
use crate::keeper::Keeper;
use crate::moves::Move;
use crate::quiet::{is_quiet, push_quiet};
use crate::seeker::{Aim, Seeker};
use crate::walk::walk_captures;
use dw_board::{Board, Position, Square};
use std::alloc::{AllocError, Global};
use std::mem::replace;

/// Returns whether a move is legal: a quiet one if nothing can be taken, else a capture of the greatest number.
pub fn is_legal<B: Board>(position: &Position<B>, mv: &Move<B>) -> bool
    ensures { IsTrue result ↔ Legal B.geometry position.now mv.now }
{
    if mv.taken.is_empty() {
        return is_quiet(position, mv.from, mv.to) && !can_capture(position);
    }
    let mut seeker = Seeker::of(mv);
    match walk_captures(position, &mut seeker) {
        Ok(()) => seeker.found.is_some(),
    }
}

/// Returns all legal moves of the side to move, each once, in any order; or an error if out of memory.
pub fn legal<B: Board>(alloc: Global, position: &Position<B>) -> Result<Vec<Move<B>>, AllocError>
    ensures { IfOk result (λ moves. AreLegal B.geometry position.now moves.items) }
{
    let mut moves = Vec::new(alloc);
    legal_into(position, &mut moves)?;
    Ok(moves)
}

/// Fills a list with all legal moves, each once, in any order. Its old content is dropped and its memory reused, so a
/// search can keep its lists. If out of memory, the list is empty.
pub fn legal_into<B: Board>(
    position: &Position<B>,
    moves: &mut Vec<Move<B>>,
) -> Result<(), AllocError>
    ensures all { OnOk result (AreLegal B.geometry position.now moves.new.items) }
    ensures none { OnErr result (moves.new.items ≡ []) }
{
    moves.clear();
    let pushed = push_legal(position, moves);
    if pushed.is_err() {
        moves.clear();
    }
    pushed
}

/// Adds all legal moves to a list, which must be empty.
fn push_legal<B: Board>(position: &Position<B>, moves: &mut Vec<Move<B>>) -> Result<(), AllocError>
    requires { moves.old.items ≡ [] }
    ensures { OnOk result (AreLegal B.geometry position.now moves.new.items) }
{
    let empty = Vec::new(*moves.allocator());
    let mut longest = LongestMoves {
        most: 0,
        moves: replace(moves, empty),
    };
    let walked = walk_captures(position, &mut longest);
    *moves = longest.moves;
    walked?;
    if longest.most == 0 {
        push_quiet(position, moves)?;
    }
    Ok(())
}

/// Keeps the moves that take the greatest number of pieces so far, each once.
#[derive(Drop)]
struct LongestMoves<B: Board> {
    most: u8,
    moves: Vec<Move<B>>,
}

impl<B: Board> LongestMoves<B> {
    /// Keeps a move once, and drops those that take fewer pieces. It must take at least as many pieces as the kept
    /// ones.
    #[inline(never)]
    fn keep(&mut self, mv: Move<B>, count: u8) -> Result<(), AllocError>
        requires counted { count ≡ set.len mv.taken }
        requires longest { self.old.most ≤ count }
        ensures { OnOk result ((xs : List Listed) (path : List ℕ) → MovesHeld (These xs) self.old.most
            self.old.moves.items → MovesHeld (These (xs ++ record { step = mv; path = path } ∷ [])) self.new.most
            self.new.moves.items) }
    {
        if self.most < count {
            self.moves.clear();
            self.most = count;
        }
        if !self.moves.contains(&mv) {
            self.moves.push(mv)?;
        }
        Ok(())
    }
}

impl<B: Board> Keeper<B> for LongestMoves<B> {
    type Fault = AllocError;

    ghost holds = { λ first xs k. MovesHeld (These xs) k.most k.moves.items };

    ghost is_on = { λ k path. Unit {0} };

    fn begin(&mut self, from: &Square<B>) {}

    fn enter(&mut self, landing: &Square<B>) {}

    fn leave(&mut self) {}

    #[inline(always)]
    fn offer(&mut self, mv: &Move<B>, count: u8) -> Result<(), AllocError> {
        if self.most > count {
            return Ok(());
        }
        self.keep(*mv, count)
    }
}

/// The move that a capture must make.
impl<B: Board> Aim<B> for Move<B> {
    ghost is_met_by = { Makes };

    fn is_met(&self, mv: &Move<B>, path: &[Square<B>]) -> bool {
        *mv == *self
    }
}
