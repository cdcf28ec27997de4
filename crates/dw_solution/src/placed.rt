//! The moves of a solution in their places.
ghost use Rattle.std.specs.Prelude.{◌≡◌, ◌+◌, ◌^◌, ◌<◌, ◌++◌, ◌∷◌, [], IfOk, OnOk, length, map, take};
ghost use Rattle.dw_board.specs.Lists.{Member};
ghost use Rattle.dw_moves.specs.Moves.{Legal};
ghost use Rattle.dw_solution.specs.Placed.{placed_moves};
ghost use Rattle.dw_solution.specs.Telling.{placed_by};
ghost use Rattle.dw_solution.specs.Tree.{IsTreeOf};
ghost use Rattle.dw_solution.specs.inner.Steps.{IsPlayable, tree_at};

use crate::listed::FirstLines;
use crate::step::{TreeStep, first_at};
use dw_board::{Board, Position};
use dw_moves::Move;
use dw_moves::play::play;
use std::alloc::{AllocError, Global};

/// A move of a solution in its place.
#[derive(Clone, Copy)]
pub struct PlacedMove<B: Board> {
    /// The number of moves up to it, itself included: 1 to 39.
    pub depth: usize,
    /// The position before it.
    pub before: Position<B>,
    pub mv: Move<B>,
}

/// Lists the moves of the tree of the first `lines` lines, or of all if there are fewer. Each move comes before its
/// continuations, and these before the alternatives to it.
pub fn placed_moves<B: Board>(
    alloc: Global,
    first: &FirstLines<B>,
    lines: usize,
) -> Result<Vec<PlacedMove<B>>, AllocError>
    ensures moves { IfOk result (λ all. (tree : _) × IsTreeOf (take lines first.now.lines) tree
        × (map placed_by all.items ≡ placed_moves B.geometry first.now.start 1 tree)) }
    ensures legal { IfOk result (λ all. (one : _) → Member one all.items
        → Legal B.geometry one.before one.mv) }
{
    let mut all = Vec::new(alloc);
    let steps = first.steps(lines.min(first.len()));
    push_moves(&mut all, steps, &first.position(), 0)?;
    Ok(all)
}

/// Appends the moves that the steps have at a depth, each with the play after it.
#[cycle(placing)]
fn push_moves<B: Board>(
    all: &mut Vec<PlacedMove<B>>,
    steps: &[TreeStep<B>],
    position: &Position<B>,
    depth: usize,
) -> Result<(), AllocError>
    requires depth { depth + length steps.now < 2 ^ 64 }
    requires playable { IsPlayable B.geometry position.now (tree_at steps.now depth) }
    ensures { OnOk result (map placed_by all.new.items ≡ map placed_by all.old.items
        ++ placed_moves B.geometry position.now (depth + 1) (tree_at steps.now depth)) }
{
    let mut left = steps;
    'moves: while let Some(first) = first_at(left, depth) {
        push(all, depth + 1, position, &first.mv)?;
        push_moves(all, first.rest, &play(position, &first.mv), depth + 1)?;
        left = first.rest;
    }
    Ok(())
}

/// Appends a move at this depth.
fn push<B: Board>(
    all: &mut Vec<PlacedMove<B>>,
    depth: usize,
    position: &Position<B>,
    mv: &Move<B>,
) -> Result<(), AllocError>
    ensures { OnOk result (map placed_by all.new.items ≡ map placed_by all.old.items
        ++ (record { depth = depth; before = position.now; move = mv.now }) ∷ []) }
{
    all.push(PlacedMove {
        depth,
        before: *position,
        mv: *mv,
    })?;
    Ok(())
}
