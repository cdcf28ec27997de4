//! The first moves that win.
ghost use Rattle.std.specs.Prelude.{◌≡◌, ◌≤◌, ◌++◌, ◌∷◌, [], IfOk, OnOk};
ghost use Rattle.dw_solve.specs.Questions.{Asked};
ghost use Rattle.dw_verdict.specs.Verdict.{Keys};

use dw_board::{Board, Position};
use dw_memo::Memo;
use dw_moves::Move;
use dw_moves::listed::listed;
use dw_moves::play::play;
use dw_solve::{Guide, Solver, Stop};
use std::alloc::{AllocError, Global};

/// Returns all first moves that win within `moves` moves, which must be at most 20, in order.
pub(crate) fn keys<B: Board, M: Memo<B>, G: Guide<B>>(
    alloc: Global,
    solver: &mut Solver<B, M, G>,
    position: &Position<B>,
    moves: u8,
) -> Result<Vec<Move<B>>, Stop>
    requires { moves ≤ 20 }
    ensures keys { IfOk result (λ keys. Keys B.geometry position.now moves keys.items) }
    ensures asked { Asked B.geometry M.content M.dropped moves solver.old solver.new result }
{
    dw_solve::laws::searches_add_up();
    solver.keeps_its_limit();
    let mut keys = Vec::new(alloc);
    if moves == 0 {
        return Ok(keys);
    }
    let list = listed(alloc, position)?;
    'moves: for item in list.as_slice() {
        let after = play(position, &item.step);
        if solver.loses(alloc, &after, moves - 1)? {
            push(&mut keys, item.step)?;
        }
    }
    Ok(keys)
}

/// Adds a move to a list.
pub(crate) fn push<T: Drop>(list: &mut Vec<T>, item: T) -> Result<(), AllocError>
    ensures { OnOk result (list.new.items ≡ list.old.items ++ item ∷ []) }
{
    list.push(item)?;
    Ok(())
}
