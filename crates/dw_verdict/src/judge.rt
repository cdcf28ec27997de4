//! The verdict on a problem, alone or with its tries.
ghost use Rattle.std.specs.Prelude.{◌≡◌, ◌≤◌, IfOk, IsErrOf};
ghost use Rattle.dw_solve.specs.declared.stop.Stop.TheVariants.{Limit};
ghost use Rattle.dw_solve.specs.Searching.{IsCounted};
ghost use Rattle.dw_solve.specs.Work.{moment, Searched, cut_off};
ghost use Rattle.dw_memo.specs.Content.{IsMap};
ghost use Rattle.dw_solve.specs.Questions.{Asked};
ghost use Rattle.dw_solve.specs.Facts.{AreTrue};
ghost use Rattle.dw_verdict.specs.Verdict.{IsVerdict, Tries};
ghost use Rattle.dw_verdict.specs.Judging.{said_by};
ghost use Rattle.dw_verdict.specs.inner.Judging.{AreOneKey, AreCooked};

use crate::dual::first_choice;
use crate::keys::keys;
use crate::tries::tries;
use crate::verdict::{Judged, Verdict};
use dw_board::{Board, Position};
use dw_memo::Memo;
use dw_moves::Move;
use dw_solve::{Guide, Solver, Stop};
use std::alloc::Global;

/// Returns the verdict on a position and its tries, for a win of the side to move within `moves` moves, which must be
/// from 1 to 20. After a stop all bounds in the memo are right, and the call can be repeated.
pub fn judge<B: Board, M: Memo<B>, G: Guide<B>>(
    alloc: Global,
    solver: &mut Solver<B, M, G>,
    position: &Position<B>,
    moves: u8,
) -> Result<Judged<B>, Stop>
    requires some { 1 ≤ moves }
    requires few { moves ≤ 20 }
    ensures verdict { IfOk result (λ judged. IsVerdict B.geometry position.now moves (said_by judged.verdict)) }
    ensures tries { IfOk result (λ judged. Tries B.geometry position.now moves judged.tries.items) }
    ensures count { IsCounted solver.old.expanded solver.old.limit solver.new.expanded solver.new.limit }
    ensures stop { IsErrOf result Limit → solver.new.expanded ≡ solver.new.limit }
    ensures searched { Searched B.geometry moves (cut_off result moves)
        (moment M.content M.dropped solver.old.memo solver.old.expanded)
        (moment M.content M.dropped solver.new.memo solver.new.expanded) }
    ensures right { AreTrue B.geometry (M.content solver.new.memo) }
    ensures map { IsMap (M.content solver.new.memo) }
{
    let judged = judged(alloc, solver, position, moves);
    solver.keeps_its_facts();
    judged
}

/// Returns the verdict and the tries, one after the other.
fn judged<B: Board, M: Memo<B>, G: Guide<B>>(
    alloc: Global,
    solver: &mut Solver<B, M, G>,
    position: &Position<B>,
    moves: u8,
) -> Result<Judged<B>, Stop>
    requires some { 1 ≤ moves }
    requires few { moves ≤ 20 }
    ensures verdict { IfOk result (λ judged. IsVerdict B.geometry position.now moves (said_by judged.verdict)) }
    ensures tries { IfOk result (λ judged. Tries B.geometry position.now moves judged.tries.items) }
    ensures asked { Asked B.geometry M.content M.dropped moves solver.old solver.new result }
{
    dw_solve::laws::searches_add_up();
    let verdict = decided(alloc, solver, position, moves)?;
    let tries = tries(alloc, solver, position, moves)?;
    Ok(Judged { verdict, tries })
}

/// Returns the verdict on a position without its tries, for a win of the side to move within `moves` moves, which must
/// be from 1 to 20. After a stop all bounds in the memo are right, and the call can be repeated.
pub fn verdict<B: Board, M: Memo<B>, G: Guide<B>>(
    alloc: Global,
    solver: &mut Solver<B, M, G>,
    position: &Position<B>,
    moves: u8,
) -> Result<Verdict<B>, Stop>
    requires some { 1 ≤ moves }
    requires few { moves ≤ 20 }
    ensures verdict { IfOk result (λ verdict. IsVerdict B.geometry position.now moves (said_by verdict)) }
    ensures count { IsCounted solver.old.expanded solver.old.limit solver.new.expanded solver.new.limit }
    ensures stop { IsErrOf result Limit → solver.new.expanded ≡ solver.new.limit }
    ensures searched { Searched B.geometry moves (cut_off result moves)
        (moment M.content M.dropped solver.old.memo solver.old.expanded)
        (moment M.content M.dropped solver.new.memo solver.new.expanded) }
    ensures right { AreTrue B.geometry (M.content solver.new.memo) }
    ensures map { IsMap (M.content solver.new.memo) }
{
    let verdict = decided(alloc, solver, position, moves);
    solver.keeps_its_facts();
    verdict
}

/// Returns the verdict, by the number of first moves that win.
fn decided<B: Board, M: Memo<B>, G: Guide<B>>(
    alloc: Global,
    solver: &mut Solver<B, M, G>,
    position: &Position<B>,
    moves: u8,
) -> Result<Verdict<B>, Stop>
    requires some { 1 ≤ moves }
    requires few { moves ≤ 20 }
    ensures verdict { IfOk result (λ verdict. IsVerdict B.geometry position.now moves (said_by verdict)) }
    ensures asked { Asked B.geometry M.content M.dropped moves solver.old solver.new result }
{
    dw_solve::laws::searches_add_up();
    let keys = keys(alloc, solver, position, moves)?;
    if keys.is_empty() {
        Ok(Verdict::Unsolvable)
    } else if keys.len() == 1 {
        with_one_key(alloc, solver, position, moves, keys)
    } else {
        cooked(alloc, solver, position, moves, keys)
    }
}

/// Returns the verdict if exactly one first move wins.
fn with_one_key<B: Board, M: Memo<B>, G: Guide<B>>(
    alloc: Global,
    solver: &mut Solver<B, M, G>,
    position: &Position<B>,
    moves: u8,
    keys: Vec<Move<B>>,
) -> Result<Verdict<B>, Stop>
    requires some { 1 ≤ moves }
    requires few { moves ≤ 20 }
    requires one { AreOneKey B.geometry position.now moves keys.items }
    ensures verdict { IfOk result (λ verdict. IsVerdict B.geometry position.now moves (said_by verdict)) }
    ensures asked { Asked B.geometry M.content M.dropped moves solver.old solver.new result }
{
    dw_solve::laws::searches_add_up();
    dw_solve::laws::wins_have_lines();
    if solver.wins(alloc, position, moves - 1)? {
        return cooked(alloc, solver, position, moves, keys);
    }
    match first_choice(alloc, solver, position, moves, keys.as_slice())? {
        Some(dual) => Ok(Verdict::Dual {
            at: dual.at,
            choices: dual.choices,
        }),
        None => Ok(Verdict::Sound {
            key: keys.as_slice()[0],
        }),
    }
}

/// Returns the verdict if several first moves win, or if there is a win in fewer moves.
fn cooked<B: Board, M: Memo<B>, G: Guide<B>>(
    alloc: Global,
    solver: &mut Solver<B, M, G>,
    position: &Position<B>,
    moves: u8,
    keys: Vec<Move<B>>,
) -> Result<Verdict<B>, Stop>
    requires few { moves ≤ 20 }
    requires keys { AreCooked B.geometry position.now moves keys.items }
    ensures verdict { IfOk result (λ verdict. IsVerdict B.geometry position.now moves (said_by verdict)) }
    ensures asked { Asked B.geometry M.content M.dropped moves solver.old solver.new result }
{
    match solver.least(alloc, position, moves)? {
        Some(shortest) => Ok(Verdict::Cooked { shortest, keys }),
        None => unreachable!(),
    }
}
