//! The soundness of a position, and its key.
ghost use Rattle.std.specs.Prelude.{◌≡◌, ◌≤◌, IfOk, IsErrOf, MatchOption};
ghost use Rattle.dw_moves.specs.Moves.{Move as AnyMove};
ghost use Rattle.dw_memo.specs.Content.{IsMap};
ghost use Rattle.dw_solve.specs.declared.stop.Stop.TheVariants.{Limit};
ghost use Rattle.dw_solve.specs.Facts.{AreTrue};
ghost use Rattle.dw_solve.specs.Searching.{IsCounted};
ghost use Rattle.dw_verdict.specs.Judging.{said_by};
ghost use Rattle.dw_verdict.specs.Verdict.{IsVerdict, sound};

use dw_board::{Board, Position};
use dw_memo::Memo;
use dw_moves::Move;
use dw_solve::{Guide, Solver, Stop};
use dw_stipulation::MoveCount;
use dw_verdict::Verdict;
use dw_verdict::judge::verdict;
use std::alloc::Global;

/// Finds the key of a position that is sound within `moves` moves of the side to move; it is `None` if the position is
/// not sound. After a stop all bounds in the memo are right, and the call can be repeated.
pub fn sound_key<B: Board, M: Memo<B>, G: Guide<B>>(
    alloc: Global,
    solver: &mut Solver<B, M, G>,
    position: &Position<B>,
    moves: MoveCount,
) -> Result<Option<Move<B>>, Stop>
    ensures key { IfOk result (λ key. MatchOption key
        ((m : AnyMove) → IsVerdict B.geometry position.now moves.value (sound m) → ⊥)
        (λ m. IsVerdict B.geometry position.now moves.value (sound m))) }
    ensures count { IsCounted solver.old.expanded solver.old.limit solver.new.expanded solver.new.limit }
    ensures stop { IsErrOf result Limit → solver.new.expanded ≡ solver.new.limit }
    ensures right { AreTrue B.geometry (M.content solver.new.memo) }
    ensures map { IsMap (M.content solver.new.memo) }
{
    dw_verdict::laws::one_verdict();
    if !solver.wins(alloc, position, moves.value)? {
        return Ok(None);
    }
    if solver.wins(alloc, position, moves.value - 1)? {
        return Ok(None);
    }
    let verdict = verdict(alloc, solver, position, moves.value)?;
    Ok(key_of(&verdict))
}

/// Returns the key of a verdict, if it says that the position is sound.
fn key_of<B: Board>(verdict: &Verdict<B>) -> Option<Move<B>>
    ensures { MatchOption result ((m : AnyMove) → said_by verdict.now ≡ sound m → ⊥)
        (λ m. said_by verdict.now ≡ sound m) }
{
    match verdict {
        Verdict::Sound { key } => Some(*key),
        Verdict::Cooked { .. } => None,
        Verdict::Dual { .. } => None,
        Verdict::Unsolvable => None,
    }
}
