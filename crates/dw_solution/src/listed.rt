//! The first lines of a position, as a tree.
ghost use Rattle.std.specs.Prelude.{◌≡◌, ◌≤◌, length, take};

use crate::line_tree::LineTree;
use crate::step::TreeStep;
use dw_board::{Board, Position};
use std::marker::Model;

/// The first lines of a position as a tree, and whether there are more.
#[derive(Drop)]
pub struct FirstLines<B: Board> {
    pub(crate) position: Position<B>,
    pub(crate) tree: LineTree<B>,
    pub(crate) more: bool,
}

impl<B: Board> Model for FirstLines<B> {
    ghost use Rattle.dw_solution.specs.FirstLines.{LinesFrom};
    ghost use Rattle.dw_solution.specs.inner.FirstLineCodes.{first_lines_code};
    ghost use Rattle.dw_solution.specs.inner.Steps.{AreAllPlayable};

    ghost Value = { LinesFrom };

    ghost coded = { first_lines_code };

    ghost view = { λ f. record { start = f.position; lines = f.tree; more = f.more } };

    ghost invariant = { λ f. AreAllPlayable B.geometry f.position f.tree };
}

impl<B: Board> FirstLines<B> {
    ghost use Rattle.dw_solution.specs.FirstLines.{is_cut};
    ghost use Rattle.dw_solution.specs.Tree.{IsTreeOf};
    ghost use Rattle.dw_solution.specs.inner.Steps.{IsPlayable, whole_tree};

    /// Returns how many lines it has.
    pub fn len(&self) -> usize
        ensures { result ≡ length self.now.lines }
    {
        self.tree.len()
    }

    /// Returns the position that the lines start from.
    pub fn position(&self) -> Position<B>
        ensures { result ≡ self.now.start }
    {
        self.position
    }

    /// Returns whether there are more lines than the first `lines`, in the tree or beyond it.
    pub fn is_cut(&self, lines: usize) -> bool
        ensures { result ≡ is_cut self.now lines }
    {
        lines < self.tree.len() || self.more
    }

    /// Returns the steps of the first `lines` lines.
    pub(crate) fn steps(&self, lines: usize) -> &[TreeStep<B>]
        requires { lines ≤ length self.now.lines }
        ensures tree { IsTreeOf (take lines self.now.lines) (whole_tree result.now) }
        ensures playable { IsPlayable B.geometry self.now.start (whole_tree result.now) }
    {
        self.tree.first_steps(lines)
    }
}
