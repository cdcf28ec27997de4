//! Beginnings of an author's solution: their moves, the positions after them, their texts.
ghost use Rattle.std.specs.Prelude.{◌≡◌, None, Some, IfOk, IfSome, IsSome, MatchOption};
ghost use Rattle.dw_notation.specs.Text.{ArePlayable};
ghost use Rattle.dw_games.specs.Walk.{beginning_at, place_of};
ghost use Rattle.dw_report.specs.JudgedText.{next_number};
ghost use Rattle.dw_study.specs.inner.Beginnings.{IsBegun};

use arrayvec::ArrayVec;
use dw_board::{Board, Position};
use dw_games::{Node, Tree};
use dw_moves::Move;
use dw_notation::MAX_MOVES;
use dw_notation::line_text::line_text;
use std::alloc::{AllocError, Global};

/// A beginning of a path: its moves, the position after them, and its text.
#[derive(Drop)]
pub(crate) struct Beginning<B: Board> {
    pub(crate) moves: ArrayVec<Move<B>, MAX_MOVES>,
    pub(crate) position: Position<B>,
    pub(crate) line: String,
}

impl<B: Board> Beginning<B> {
    /// Returns the number of the attacker's turn that follows it, from 1 on.
    pub(crate) fn turn(&self) -> usize
        ensures { result ≡ next_number self.now.moves.items }
    {
        self.moves.len() / 2 + 1
    }
}

/// Returns the beginning that leads to a node, or `None` if the tree has no such node.
pub(crate) fn beginning_of<B: Board>(
    alloc: Global,
    tree: &Tree<B>,
    node: Option<Node>,
) -> Result<Option<Beginning<B>>, AllocError>
    ensures begun { (b : _) → beginning_at tree.now.paths (place_of node) ≡ Some b
        → IfOk result (λ made. IfSome made (IsBegun B.geometry tree.now.start b)) }
    ensures some { (b : _) → beginning_at tree.now.paths (place_of node) ≡ Some b
        → IfOk result (λ made. IsSome made) }
{
    let Some(moves) = moves_to(tree, node) else {
        return Ok(None);
    };
    let Some(position) = tree.position(node) else {
        return Ok(None);
    };
    let line = line_text(alloc, &tree.start(), moves.as_slice())?;
    let line = String::from_str(alloc, line.as_str())?;
    Ok(Some(Beginning {
        moves,
        position,
        line,
    }))
}

/// Returns the moves of the beginning that leads to a node, or `None` if the tree has no such node.
pub(crate) fn moves_to<B: Board>(
    tree: &Tree<B>,
    node: Option<Node>,
) -> Option<ArrayVec<Move<B>, MAX_MOVES>>
    ensures { MatchOption result (beginning_at tree.now.paths (place_of node) ≡ None)
        (λ moves. (beginning_at tree.now.paths (place_of node) ≡ Some moves.items)
        × ArePlayable B.geometry tree.now.start moves.items) }
{
    let mut moves = ArrayVec::new();
    let mut at = node;
    'moves: while let Some(here) = at {
        let mv = tree.mv(here)?;
        moves.push(mv);
        at = tree.parent(here);
    }
    moves.as_mut_slice().reverse();
    Some(moves)
}
