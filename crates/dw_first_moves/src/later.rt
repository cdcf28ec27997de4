//! The first moves that win later than the keys.
ghost use Rattle.std.specs.Prelude.{◌≡◌, ◌≤◌, ◌+◌, min, IfOk, IsErrOf};
ghost use Rattle.dw_memo.specs.Content.{IsMap};
ghost use Rattle.dw_moves.specs.Moves.{Legal};
ghost use Rattle.dw_solve.specs.Facts.{AreTrue};
ghost use Rattle.dw_solve.specs.Searching.{IsCounted};
ghost use Rattle.dw_solve.specs.declared.stop.Stop.TheVariants.{Limit};
ghost use Rattle.dw_first_moves.specs.Later.{AreLater};
ghost use Rattle.dw_first_moves.specs.inner.LaterMoves.{FindsLater};

use crate::effects::push;
use dw_board::{Board, Position};
use dw_memo::Memo;
use dw_moves::Move;
use dw_moves::listed::listed;
use dw_moves::play::play;
use dw_solve::{Guide, Solver, Stop};
use dw_stipulation::MoveCount;
use std::alloc::Global;

/// Between which numbers of moves a later win lies.
#[derive(Clone, Copy)]
pub struct LaterBounds {
    /// A move that wins within this number of moves is a key.
    pub moves: MoveCount,
    /// The most moves within which a later win is looked for.
    pub most: MoveCount,
}

impl LaterBounds {
    /// Returns the bounds for wins that take at most `more` moves more than `moves`, and at most 20 in all.
    pub fn new(moves: MoveCount, more: u8) -> Self
        ensures moves { result.moves ≡ moves }
        ensures most { result.most.value ≡ min 20 (moves.value + more) }
    {
        let sum = moves.value.saturating_add(more);
        LaterBounds {
            moves,
            most: MoveCount::new(sum).unwrap_or(MoveCount::MOST),
        }
    }
}

/// Finds all legal moves that win within `bounds.most` moves and not within `bounds.moves`, in order, each with the
/// least number of moves within which it wins. After a stop all bounds in the memo are right, and the call can be
/// repeated.
pub fn later_wins<B: Board, M: Memo<B>, G: Guide<B>>(
    alloc: Global,
    solver: &mut Solver<B, M, G>,
    position: &Position<B>,
    bounds: LaterBounds,
) -> Result<Vec<(Move<B>, u8)>, Stop>
    ensures later { IfOk result (λ later. AreLater B.geometry position.now bounds.moves.value bounds.most.value
        later.items) }
    ensures count { IsCounted solver.old.expanded solver.old.limit solver.new.expanded solver.new.limit }
    ensures stop { IsErrOf result Limit → solver.new.expanded ≡ solver.new.limit }
    ensures right { AreTrue B.geometry (M.content solver.new.memo) }
    ensures map { IsMap (M.content solver.new.memo) }
{
    solver.keeps_its_limit();
    solver.keeps_its_facts();
    let list = listed(alloc, position)?;
    let mut later = Vec::new(alloc);
    'moves: for item in list.as_slice() {
        if let Some(least) = later_win(alloc, solver, position, &item.step, bounds)? {
            push(&mut later, (item.step, least))?;
        }
    }
    Ok(later)
}

/// Returns the least number of moves within which a legal move wins, if it wins within `bounds.most` moves and not
/// within `bounds.moves`.
fn later_win<B: Board, M: Memo<B>, G: Guide<B>>(
    alloc: Global,
    solver: &mut Solver<B, M, G>,
    position: &Position<B>,
    mv: &Move<B>,
    bounds: LaterBounds,
) -> Result<Option<u8>, Stop>
    requires legal { Legal B.geometry position.now mv.now }
    ensures found { IfOk result (FindsLater B.geometry position.now bounds.moves.value bounds.most.value mv.now) }
    ensures count { IsCounted solver.old.expanded solver.old.limit solver.new.expanded solver.new.limit }
    ensures stop { IsErrOf result Limit → solver.new.expanded ≡ solver.new.limit }
    ensures right { AreTrue B.geometry (M.content solver.new.memo) }
    ensures map { IsMap (M.content solver.new.memo) }
{
    dw_solve::laws::wins_stay();
    solver.keeps_its_limit();
    let after = play(position, mv);
    if solver.loses(alloc, &after, bounds.moves.value - 1)? {
        return Ok(None);
    }
    'left: for left in bounds.moves.value..bounds.most.value {
        if solver.loses(alloc, &after, left)? {
            return Ok(Some(left + 1));
        }
    }
    Ok(None)
}
