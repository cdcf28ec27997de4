//! The effects of the first moves.
ghost use Rattle.std.specs.Prelude.{◌≡◌, ◌≤◌, IfOk, IsErrOf, map};
ghost use Rattle.dw_board.specs.Lists.{Member};
ghost use Rattle.dw_memo.specs.Content.{IsMap};
ghost use Rattle.dw_moves.specs.Moves.{Legal};
ghost use Rattle.dw_moves.specs.Moves as of;
ghost use Rattle.dw_moves.specs.Order.{IsListOf, Precedes};
ghost use Rattle.dw_solve.specs.Facts.{AreTrue};
ghost use Rattle.dw_solve.specs.Searching.{IsCounted};
ghost use Rattle.dw_solve.specs.declared.stop.Stop.TheVariants.{Limit};
ghost use Rattle.dw_first_moves.specs.FirstMoves.{AreEffects, AreFirstMoves};
ghost use Rattle.dw_first_moves.specs.Telling.{told_by};

use crate::effects::{effect_of, push};
use crate::first_move::{FirstMove, FirstMoves};
use dw_board::{Board, Position};
use dw_memo::Memo;
use dw_moves::Move;
use dw_moves::listed::listed;
use dw_parts::{Part, part_of};
use dw_solve::{Guide, Solver, Stop};
use dw_stipulation::MoveCount;
use std::alloc::{AllocError, Global};

/// Finds the effects of the legal moves of a part within `moves` moves of the side to move, in the order of moves. An
/// effect is the least number of moves within which the move wins; or it is the list of all replies after which there
/// is no win within the moves then left. After a stop all bounds in the memo are right, and the call can be repeated.
pub fn first_moves<B: Board, M: Memo<B>, G: Guide<B>>(
    alloc: Global,
    solver: &mut Solver<B, M, G>,
    position: &Position<B>,
    moves: MoveCount,
    part: Part,
) -> Result<FirstMoves<B>, Stop>
    ensures start { IfOk result (λ found. found.start ≡ position.now) }
    ensures effects { IfOk result (λ found. AreFirstMoves B.geometry position.now moves.value part.number part.parts
        found.effects) }
    ensures count { IsCounted solver.old.expanded solver.old.limit solver.new.expanded solver.new.limit }
    ensures stop { IsErrOf result Limit → solver.new.expanded ≡ solver.new.limit }
    ensures right { AreTrue B.geometry (M.content solver.new.memo) }
    ensures map { IsMap (M.content solver.new.memo) }
{
    solver.keeps_its_limit();
    solver.keeps_its_facts();
    let all = all_moves(alloc, position)?;
    let some = part_of(alloc, all.as_slice(), part)?;
    let found = effects_of(alloc, solver, position, some.as_slice(), moves)?;
    Ok(FirstMoves {
        position: *position,
        moves: found,
    })
}

/// Lists all legal moves, in order.
fn all_moves<B: Board>(alloc: Global, position: &Position<B>) -> Result<Vec<Move<B>>, AllocError>
    ensures { IfOk result (λ moves. IsListOf (Precedes B.geometry position.now) (Legal B.geometry position.now)
        moves.items) }
{
    let list = listed(alloc, position)?;
    let mut moves = Vec::new(alloc);
    'list: for item in list.as_slice() {
        moves.push(item.step)?;
    }
    Ok(moves)
}

/// Finds the effects of some legal moves, in their order.
fn effects_of<B: Board, M: Memo<B>, G: Guide<B>>(
    alloc: Global,
    solver: &mut Solver<B, M, G>,
    position: &Position<B>,
    some: &[Move<B>],
    moves: MoveCount,
) -> Result<Vec<FirstMove<B>>, Stop>
    requires legal { (m : of.Move) → Member m some.now → Legal B.geometry position.now m }
    ensures done { IfOk result (λ done. AreEffects B.geometry position.now moves.value some.now
        (map told_by done.items)) }
    ensures count { IsCounted solver.old.expanded solver.old.limit solver.new.expanded solver.new.limit }
    ensures stop { IsErrOf result Limit → solver.new.expanded ≡ solver.new.limit }
    ensures right { AreTrue B.geometry (M.content solver.new.memo) }
    ensures map { IsMap (M.content solver.new.memo) }
{
    solver.keeps_its_limit();
    solver.keeps_its_facts();
    let mut done = Vec::new(alloc);
    'some: for mv in some {
        let effect = effect_of(alloc, solver, position, mv, moves)?;
        push(&mut done, FirstMove { mv: *mv, effect })?;
    }
    Ok(done)
}
