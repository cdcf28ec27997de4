//! The moves of a tree in a row: each with the moves that go on after it, before the next move in its place.
ghost use Rattle.std.specs.Prelude.{◌≡◌, ◌+◌, ◌^◌, ◌++◌, ◌<◌, OnOk, OnErr, option_map, length};
ghost use Rattle.dw_solution.specs.inner.Steps.{IsFirstAt, chain};

use dw_board::Board;
use dw_moves::Move;
use std::alloc::AllocError;

/// A move of a tree, and how many moves stand before it on its way from the root.
#[derive(Clone, Copy)]
pub(crate) struct TreeStep<B: Board> {
    pub(crate) depth: usize,
    pub(crate) mv: Move<B>,
}

/// A move, and the steps after it in the row.
#[derive(Clone, Copy)]
pub(crate) struct First<'a, B: Board> {
    pub(crate) mv: Move<B>,
    pub(crate) rest: &'a [TreeStep<B>],
}

/// Returns the first step at a depth, if no step of less depth comes before it.
pub(crate) fn first_at<B: Board>(steps: &[TreeStep<B>], depth: usize) -> Option<First<'_, B>>
    ensures { IsFirstAt steps.entry.now depth (option_map (λ f. (f.mv, f.rest.now)) result) }
{
    let mut place = 0;
    'steps: while place < steps.len() && steps[place].depth > depth {
        place += 1;
    }
    let (_, left) = steps.split_at(place);
    let (first, rest) = left.split_first()?;
    if first.depth == depth {
        Some(First { mv: first.mv, rest })
    } else {
        None
    }
}

/// Appends moves that follow one another, the first one at this depth, or changes nothing if memory is refused.
pub(crate) fn add_steps<B: Board>(
    steps: &mut Vec<TreeStep<B>>,
    depth: usize,
    moves: &[Move<B>],
) -> Result<(), AllocError>
    requires { depth + length moves.now < 2 ^ 64 }
    ensures added { OnOk result (steps.new.items ≡ steps.old.items ++ chain depth moves.now) }
    ensures same { OnErr result (steps.new.items ≡ steps.old.items) }
{
    steps.reserve(moves.len())?;
    'moves: for (place, mv) in moves.iter().enumerate() {
        steps.push_reserved(TreeStep {
            depth: depth + place,
            mv: *mv,
        });
    }
    Ok(())
}
