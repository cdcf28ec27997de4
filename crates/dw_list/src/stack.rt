//! The stack of a lister: the levels of the line at which it stands.
ghost use Rattle.std.specs.Prelude.{◌≡◌, ◌≤◌, ◌<◌, ◌+◌, ◌*◌, List, [], ◌∷◌, ◌++◌, drop, take, reverse, length};
ghost use Rattle.std.specs.Prelude.{IfOk, OnErr, max, not, true, false};
ghost use Rattle.dw_moves.specs.Moves.{Legal, NoMove, play};
ghost use Rattle.dw_list.specs.inner.Ways.{left_after};
ghost use Rattle.dw_list.specs.LineStack.{Level};
ghost use Rattle.dw_list.specs.inner.Steps.{begun, passed};
ghost use Rattle.dw_list.specs.inner.Tasks.{IsListedLast};

use crate::frame::Frame;
use crate::next_moves::left_behind;
use arrayvec::ArrayVec;
use dw_board::{Board, Position};
use dw_moves::Move;
use dw_moves::play::play as played;
use dw_notation::MAX_MOVES;
use std::alloc::{AllocError, Global};
use std::marker::Model;

/// The most levels of a stack: one at the start, and one after each move of a line.
const LEVELS: usize = MAX_MOVES + 1;

/// A move of the last level that may come next: the position after it, whose it is, and how many moves are left for
/// the attacker after it.
#[derive(Drop)]
pub(crate) struct Candidate<B: Board> {
    pub(crate) mv: Move<B>,
    pub(crate) after: Position<B>,
    pub(crate) attacks: bool,
    pub(crate) left: u8,
}

/// The next thing to do with a stack.
#[derive(Drop)]
pub(crate) enum Task<B: Board> {
    /// Nothing: all was passed.
    Over,
    /// The moves of the last level are to be listed.
    Unlisted,
    /// A move of the last level is to be tried.
    Try(Candidate<B>),
    /// No move of the last level is ahead.
    Passed,
}

/// The levels of a line on its way, each with the moves that are still ahead there: at most two for each move of the
/// attacker.
#[derive(Drop)]
pub(crate) struct Stack<B: Board> {
    position: Position<B>,
    moves: u8,
    line: ArrayVec<Move<B>, MAX_MOVES>,
    /// The frames of the levels, and after them those that were left, kept for the memory of their lists.
    frames: ArrayVec<Frame<B>, LEVELS>,
    /// The number of levels.
    depth: usize,
}

impl<B: Board> Model for Stack<B> {
    ghost use Rattle.std.specs.Prelude.{reverse, take, length, ◌≤◌, ◌*◌};
    ghost use Rattle.dw_list.specs.LineStack.{LineStack};
    ghost use Rattle.dw_list.specs.inner.LineStackCodes.{line_stack_code};
    ghost use Rattle.dw_list.specs.inner.Levels.{AreLevels, IsFew};

    ghost Value = { LineStack };

    ghost coded = { line_stack_code };

    ghost view = { λ s. record {
      position = s.position;
      moves = s.moves;
      line = reverse s.line.items;
      levels = reverse (take s.depth s.frames.items);
    } };

    ghost invariant = { λ s. AreLevels B.geometry s.position s.moves (reverse (take s.depth s.frames.items))
        (reverse s.line.items) × (s.depth ≤ length s.frames.items) × (length s.frames.items ≤ 2 * s.moves)
        × IsFew s.moves };
}

impl<B: Board> Stack<B> {
    ghost use Rattle.dw_list.specs.inner.Ways.{Keeps};
    ghost use Rattle.dw_list.specs.inner.Levels.{AreLevels};
    ghost use Rattle.dw_list.specs.inner.Steps.{begun, passed_last};
    ghost use Rattle.dw_list.specs.inner.Tasks.{IsTask, IsCandidate, IsListed};

    /// Returns the stack of all lines of a position within `moves` moves, which must be from 1 to 20.
    pub(crate) fn new(position: &Position<B>, moves: u8) -> Self
        requires some { 1 ≤ moves }
        requires few { moves ≤ 20 }
        ensures { result ≡ record {
          position = position.now;
          moves = moves;
          line = [];
          levels = begun position.now true moves ∷ [];
        } }
    {
        let mut frames = ArrayVec::new();
        frames.push(Frame::new(*position, true, moves));
        Stack {
            position: *position,
            moves,
            line: ArrayVec::new(),
            frames,
            depth: 1,
        }
    }

    /// States that the levels of a stack are those of its line, and not too many. A law, which does nothing.
    #[inline]
    pub(crate) fn keeps_its_levels(&self)
        ensures levels { AreLevels B.geometry self.now.position self.now.moves self.now.levels self.now.line }
        ensures fits { length self.now.levels ≤ 2 * self.now.moves }
        ensures few { self.now.moves ≤ 20 }
    {
        let _ = &self.moves;
    }

    /// Returns the number of moves within which the attacker wins.
    pub(crate) fn moves(&self) -> u8
        ensures moves { result ≡ self.now.moves }
        ensures some { 1 ≤ result }
        ensures few { result ≤ 20 }
    {
        self.moves
    }

    /// Returns the position whose lines these are.
    pub(crate) fn position(&self) -> &Position<B>
        ensures { result.now ≡ self.now.position }
    {
        &self.position
    }

    /// Returns the line at which the stack stands.
    pub(crate) fn line(&self) -> &[Move<B>]
        ensures line { result.now ≡ reverse self.now.line }
        ensures few { length result.now ≤ 39 }
    {
        self.line.as_slice()
    }

    /// Returns the next thing to do.
    #[inline(always)]
    pub(crate) fn task(&self) -> Task<B>
        ensures { IsTask B.geometry self.now.levels result }
    {
        if self.depth == 0 {
            return Task::Over;
        }
        let frames = self.frames.as_slice();
        let frame = &frames[self.depth - 1];
        if !frame.is_listed() {
            return Task::Unlisted;
        }
        match frame.first() {
            None => Task::Passed,
            Some(mv) => Task::Try(candidate_of(frame, mv)),
        }
    }

    /// Lists the moves of the last level, of which there must be one. Returns whether the line ends there, because the
    /// defender has no move.
    pub(crate) fn list(&mut self, alloc: Global) -> Result<bool, AllocError>
        requires { 0 < length self.old.levels }
        ensures listed { IfOk result (λ is_end. IsListed B.geometry self.old self.new is_end) }
        ensures err { OnErr result (self.new ≡ self.old) }
    {
        list_last(alloc, &mut self.frames, self.depth)
    }

    /// Passes the first move ahead at the last level.
    pub(crate) fn pass(&mut self)
        ensures { self.new ≡ record self.old { levels = passed_last self.old.levels } }
    {
        if self.depth > 0 {
            pass_last(&mut self.frames, self.depth);
        }
    }

    /// Goes on with a move, which must be the first one ahead at the last level, and keep a win if it is the
    /// attacker's.
    #[inline(always)]
    pub(crate) fn enter(&mut self, candidate: &Candidate<B>)
        requires first { IsCandidate B.geometry self.old.levels candidate.now }
        requires keeps { Keeps B.geometry candidate.now.attacks candidate.now.after candidate.now.left }
        ensures { self.new ≡ record self.old {
          line = candidate.now.mv ∷ self.old.line;
          levels = begun candidate.now.after (not candidate.now.attacks) candidate.now.left
              ∷ passed_last self.old.levels;
        } }
    {
        pass_last(&mut self.frames, self.depth);
        begin_next(
            &mut self.frames,
            self.depth,
            candidate.after,
            !candidate.attacks,
            candidate.left,
        );
        self.depth += 1;
        self.line.push(candidate.mv);
    }

    /// Goes back from the last level to the one before it.
    pub(crate) fn back(&mut self)
        ensures { self.new ≡ record self.old { line = drop 1 self.old.line; levels = drop 1 self.old.levels } }
    {
        self.depth = self.depth.saturating_sub(1);
        let played = self.line.len();
        self.line.truncate(played.saturating_sub(1));
    }
}

/// Lists the moves of the last of `depth` frames, and returns whether a line ends there. The defender must have none if
/// the attacker has no moves left. If out of memory, it changes nothing.
fn list_last<B: Board>(
    alloc: Global,
    frames: &mut ArrayVec<Frame<B>, LEVELS>,
    depth: usize,
) -> Result<bool, AllocError>
    requires some { 1 ≤ depth }
    requires within { depth ≤ length frames.old.items }
    requires over { (outer : List Level) (f : Level) → take depth frames.old.items ≡ outer ++ f ∷ [] → f.attacks ≡ false
        → f.left ≡ 0 → NoMove B.geometry f.position }
    ensures listed { IfOk result (λ is_end.
        IsListedLast B.geometry (take depth frames.old.items) (take depth frames.new.items) is_end) }
    ensures len { length frames.new.items ≡ length frames.old.items }
    ensures err { OnErr result (frames.new ≡ frames.old) }
{
    let frames = frames.as_mut_slice();
    let frame = &mut frames[depth - 1];
    frame.list(alloc)?;
    Ok(frame.ends_line())
}

/// Passes the first move ahead at the last of `depth` frames.
#[inline(always)]
fn pass_last<B: Board>(frames: &mut ArrayVec<Frame<B>, LEVELS>, depth: usize)
    requires some { 1 ≤ depth }
    requires within { depth ≤ length frames.old.items }
    ensures passed { (outer : List Level) (f : Level) → take depth frames.old.items ≡ outer ++ f ∷ []
        → take depth frames.new.items ≡ outer ++ passed f ∷ [] }
    ensures len { length frames.new.items ≡ length frames.old.items }
{
    let frames = frames.as_mut_slice();
    frames[depth - 1].pass();
}

/// Begins the frame after the first `depth` ones, whose moves are not listed.
#[inline(always)]
fn begin_next<B: Board>(
    frames: &mut ArrayVec<Frame<B>, LEVELS>,
    depth: usize,
    position: Position<B>,
    attacks: bool,
    left: u8,
)
    requires within { depth ≤ length frames.old.items }
    requires room { depth < 40 }
    ensures begun { take (depth + 1) frames.new.items
        ≡ take depth frames.old.items ++ begun position attacks left ∷ [] }
    ensures len { length frames.new.items ≡ max (length frames.old.items) (depth + 1) }
{
    if depth == frames.len() {
        frames.push(Frame::new(position, attacks, left));
    } else {
        let frames = frames.as_mut_slice();
        frames[depth].begin(position, attacks, left);
    }
}

/// Returns the position after a move of a level, and whose the move is.
#[inline(always)]
fn candidate_of<B: Board>(frame: &Frame<B>, mv: Move<B>) -> Candidate<B>
    requires { Legal B.geometry frame.now.position mv }
    ensures mv { result.mv ≡ mv }
    ensures after { result.after ≡ play B.geometry frame.now.position mv }
    ensures attacks { result.attacks ≡ frame.now.attacks }
    ensures left { result.left ≡ left_after frame.now.attacks frame.now.left }
{
    let attacks = frame.attacks();
    Candidate {
        mv,
        after: played(frame.position(), &mv),
        attacks,
        left: left_behind(attacks, frame.left()),
    }
}
