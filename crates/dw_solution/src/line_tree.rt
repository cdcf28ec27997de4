//! Lines as a tree, in which the moves that neighbours share stand once.
ghost use Rattle.std.specs.Prelude.{◌≡◌, ◌≢◌, ◌++◌, ◌∷◌, [], ◌≤◌, ◌<◌, OnOk, OnErr, Some, length, take, slice_get};

use crate::step::{TreeStep, add_steps};
use arrayvec::ArrayVec;
use dw_board::Board;
use dw_moves::{Move, same_move};
use dw_notation::MAX_MOVES;
use std::alloc::{AllocError, Global};
use std::marker::Model;

/// Lines in order, as a tree. Of each line it holds only the moves after those that it shares with the line before it.
#[derive(Drop)]
pub struct LineTree<B: Board> {
    steps: Vec<TreeStep<B>>,
    /// The number of steps up to the end of each line.
    ends: Vec<usize>,
    /// The last line, or no move.
    last: ArrayVec<Move<B>, MAX_MOVES>,
}

impl<B: Board> Model for LineTree<B> {
    ghost use Rattle.std.specs.Prelude.{List};
    ghost use Rattle.dw_moves.specs.Moves.{Move};
    ghost use Rattle.dw_solution.specs.inner.LineTreeCodes.{lines_code};

    ghost Value = { List (List Move) };

    ghost coded = { lines_code };

    ghost use Rattle.dw_solution.specs.Tree.{lines_of};
    ghost use Rattle.dw_solution.specs.inner.Steps.{whole_tree, IsHeld};

    ghost view = { λ t. lines_of (whole_tree t.steps.items) };

    ghost invariant = { λ t. IsHeld t.steps.items t.ends.items t.last.items };
}

impl<B: Board> LineTree<B> {
    ghost use Rattle.dw_solution.specs.Tree.{IsTreeOf};
    ghost use Rattle.dw_solution.specs.inner.Steps.{whole_tree, MayFollow};

    /// Makes a tree without lines.
    pub(crate) fn new(alloc: Global) -> Self
        ensures { result ≡ [] }
    {
        LineTree {
            steps: Vec::new(alloc),
            ends: Vec::new(alloc),
            last: ArrayVec::new(),
        }
    }

    /// Returns how many lines it has.
    pub fn len(&self) -> usize
        ensures { result ≡ length self.now }
    {
        self.ends.as_slice().len()
    }

    /// Appends a line, or changes nothing if memory is refused. The line must have 1 to 39 moves; neither it nor the
    /// last line may begin with the other.
    pub(crate) fn push(&mut self, line: &[Move<B>]) -> Result<(), AllocError>
        requires few { length line.now ≤ 39 }
        requires follows { MayFollow self.old line.now }
        ensures pushed { OnOk result (self.new ≡ self.old ++ line.now ∷ []) }
        ensures same { OnErr result (self.new ≡ self.old) }
    {
        let shared = shared(self.last.as_slice(), line);
        let (_, rest) = line.split_at(shared);
        self.ends.reserve(1)?;
        add_steps(&mut self.steps, shared, rest)?;
        let end = self.steps.as_slice().len();
        self.ends.push_reserved(end);
        self.last.clear();
        let _ = self.last.try_extend_from_slice(line);
        Ok(())
    }

    /// Returns the steps of the first `lines` lines.
    pub(crate) fn first_steps(&self, lines: usize) -> &[TreeStep<B>]
        requires { lines ≤ length self.now }
        ensures { IsTreeOf (take lines self.now) (whole_tree result.now) }
    {
        if lines == 0 {
            return &[];
        }
        let end = self.ends[lines - 1];
        let (first, _) = self.steps.as_slice().split_at(end);
        first
    }
}

/// Returns how many moves two lines share at their beginning.
fn shared<B: Board>(last: &[Move<B>], line: &[Move<B>]) -> usize
    ensures last { result ≤ length last.now }
    ensures line { result ≤ length line.now }
    ensures same { take result last.now ≡ take result line.now }
    ensures differ { result < length last.now → result < length line.now
        → slice_get last.now result ≢ slice_get line.now result }
{
    let mut count = 0;
    'moves: while count < last.len()
        && count < line.len()
        && same_move(&last[count], &line[count])
    {
        count += 1;
    }
    count
}
