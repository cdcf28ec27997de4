//! The effect of one first move.
ghost use Rattle.std.specs.Prelude.{◌≡◌, ◌≤◌, ◌++◌, ◌∷◌, [], IfOk, OnOk, IsErrOf};
ghost use Rattle.dw_memo.specs.Content.{IsMap};
ghost use Rattle.dw_moves.specs.Moves.{Legal};
ghost use Rattle.dw_moves.specs.Order.{IsListOf, Precedes};
ghost use Rattle.dw_solve.specs.Facts.{AreTrue};
ghost use Rattle.dw_solve.specs.Searching.{IsCounted};
ghost use Rattle.dw_solve.specs.declared.stop.Stop.TheVariants.{Limit};
ghost use Rattle.dw_verdict.specs.Verdict.{Refutes};
ghost use Rattle.dw_first_moves.specs.FirstMoves.{HasEffect};
ghost use Rattle.dw_first_moves.specs.Telling.{effect_of};

use crate::first_move::Effect;
use dw_board::{Board, Position};
use dw_memo::Memo;
use dw_moves::Move;
use dw_moves::listed::listed;
use dw_moves::play::play;
use dw_solve::{Guide, Solver, Stop};
use dw_stipulation::MoveCount;
use std::alloc::{AllocError, Global};

/// Finds the effect of a legal move within `moves` moves. It looks for a win within 1 move, then within 2 and
/// so on. If there is none, it looks at each reply within the moves left after the first.
pub(crate) fn effect_of<B: Board, M: Memo<B>, G: Guide<B>>(
    alloc: Global,
    solver: &mut Solver<B, M, G>,
    position: &Position<B>,
    mv: &Move<B>,
    moves: MoveCount,
) -> Result<Effect<B>, Stop>
    requires legal { Legal B.geometry position.now mv.now }
    ensures effect { IfOk result (λ effect. HasEffect B.geometry position.now moves.value mv.now (effect_of effect)) }
    ensures count { IsCounted solver.old.expanded solver.old.limit solver.new.expanded solver.new.limit }
    ensures stop { IsErrOf result Limit → solver.new.expanded ≡ solver.new.limit }
    ensures right { AreTrue B.geometry (M.content solver.new.memo) }
    ensures map { IsMap (M.content solver.new.memo) }
{
    dw_solve::laws::wins_are_decided();
    solver.keeps_its_limit();
    solver.keeps_its_facts();
    let after = play(position, mv);
    'moves: for left in 0..moves.value - 1 {
        if solver.loses(alloc, &after, left)? {
            return Ok(Effect::WinsIn(left + 1));
        }
    }
    let replies = refutations(alloc, solver, &after, moves.value - 1)?;
    if replies.is_empty() {
        Ok(Effect::WinsIn(moves.value))
    } else {
        Ok(Effect::RefutedBy(replies))
    }
}

/// Lists the replies after which there is no win within `left` moves, in order.
fn refutations<B: Board, M: Memo<B>, G: Guide<B>>(
    alloc: Global,
    solver: &mut Solver<B, M, G>,
    after: &Position<B>,
    left: u8,
) -> Result<Vec<Move<B>>, Stop>
    requires { left ≤ 20 }
    ensures replies { IfOk result (λ replies. IsListOf (Precedes B.geometry after.now)
        (Refutes B.geometry after.now left) replies.items) }
    ensures count { IsCounted solver.old.expanded solver.old.limit solver.new.expanded solver.new.limit }
    ensures stop { IsErrOf result Limit → solver.new.expanded ≡ solver.new.limit }
    ensures right { AreTrue B.geometry (M.content solver.new.memo) }
    ensures map { IsMap (M.content solver.new.memo) }
{
    solver.keeps_its_limit();
    solver.keeps_its_facts();
    let list = listed(alloc, after)?;
    let mut replies = Vec::new(alloc);
    'replies: for reply in list.as_slice() {
        if !solver.wins(alloc, &play(after, &reply.step), left)? {
            push(&mut replies, reply.step)?;
        }
    }
    Ok(replies)
}

/// Appends an item to a list.
pub(crate) fn push<T: Drop>(list: &mut Vec<T>, item: T) -> Result<(), AllocError>
    ensures { OnOk result (list.new.items ≡ list.old.items ++ item ∷ []) }
{
    list.push(item)?;
    Ok(())
}
