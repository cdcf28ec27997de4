//! The comparison of an author's solution with all wins: wrong moves and missing ones.
ghost use Rattle.std.specs.Prelude.{◌≤◌, ◌↔◌, [], IfOk, IsTrue};
ghost use Rattle.dw_memo.specs.Content.{IsMap};
ghost use Rattle.dw_solve.specs.Facts.{AreTrue};
ghost use Rattle.dw_solve.specs.Questions.{Asked};
ghost use Rattle.dw_solve.specs.Wins.{Win};
ghost use Rattle.dw_study.specs.Remarks.{AreRemarks};
ghost use Rattle.dw_study.specs.Telling.{Say};
ghost use Rattle.dw_study.specs.inner.Checking.{Behind, IsAt, IsKept, IsSeen};

use crate::branch::{CheckNode, Seen};
use crate::remark::{Checked, Remark};
use crate::remarks::{seen_by_attacker, seen_by_defender};
use dw_board::Board;
use dw_games::Tree;
use dw_memo::Memo;
use dw_solve::{Guide, Solver, Stop};
use dw_stipulation::MoveCount;
use std::alloc::Global;

/// Compares an author's solution with all wins, and returns its remarks and whether there is a win. A move that fails
/// gets a remark, and the moves after it are not examined. After a stop all bounds in the memo are right, and the call
/// can be repeated.
pub fn check<B: Board, M: Memo<B>, G: Guide<B>>(
    alloc: Global,
    solver: &mut Solver<B, M, G>,
    tree: &Tree<B>,
    moves: MoveCount,
) -> Result<Checked<B>, Stop>
    ensures wins { IfOk result (λ checked. IsTrue checked.wins ↔ Win B.geometry tree.now.start moves.value) }
    ensures remarks { IfOk result (λ checked. Say tree.now.paths checked.remarks.items
        (AreRemarks B.geometry tree.now.paths moves.value tree.now.start [])) }
    ensures asked { Asked B.geometry M.content M.dropped moves.value solver.old solver.new result }
    ensures right { AreTrue B.geometry (M.content solver.new.memo) }
    ensures map { IsMap (M.content solver.new.memo) }
{
    let checked = checked(alloc, solver, tree, moves);
    solver.keeps_its_facts();
    checked
}

/// Does the work of `check`.
fn checked<B: Board, M: Memo<B>, G: Guide<B>>(
    alloc: Global,
    solver: &mut Solver<B, M, G>,
    tree: &Tree<B>,
    moves: MoveCount,
) -> Result<Checked<B>, Stop>
    ensures wins { IfOk result (λ checked. IsTrue checked.wins ↔ Win B.geometry tree.now.start moves.value) }
    ensures remarks { IfOk result (λ checked. Say tree.now.paths checked.remarks.items
        (AreRemarks B.geometry tree.now.paths moves.value tree.now.start [])) }
    ensures asked { Asked B.geometry M.content M.dropped moves.value solver.old solver.new result }
{
    dw_solve::laws::searches_add_up();
    let position = tree.start();
    let wins = solver.wins(alloc, &position, moves.value)?;
    let root = CheckNode {
        node: None,
        position,
        attacks: true,
        left: moves.value,
    };
    let remarks = remarks_from(alloc, solver, tree, &root)?;
    Ok(Checked { wins, remarks })
}

/// Returns the remarks on a beginning and its continuations, depth first.
fn remarks_from<B: Board, M: Memo<B>, G: Guide<B>>(
    alloc: Global,
    solver: &mut Solver<B, M, G>,
    tree: &Tree<B>,
    spot: &CheckNode<B>,
) -> Result<Vec<Remark<B>>, Stop>
    requires there { (b : _) × IsAt B.geometry tree.now spot.now b }
    requires kept { IsKept B.geometry spot.now.attacks spot.now.left spot.now.position }
    requires few { spot.now.left ≤ 20 }
    ensures remarks { (b : _) → IsAt B.geometry tree.now spot.now b
        → IfOk result (λ remarks. Say tree.now.paths remarks.items
        (Behind B.geometry tree.now.paths spot.now.attacks spot.now.left spot.now.position b)) }
    ensures asked { Asked B.geometry M.content M.dropped spot.now.left solver.old solver.new result }
{
    dw_solve::laws::searches_add_up();
    let Seen {
        mut remarks,
        followed,
    } = seen(alloc, solver, tree, spot)?;
    'followed: for child in followed.as_slice() {
        let mut behind = remarks_from(alloc, solver, tree, &spot.after(child))?;
        remarks.append(&mut behind)?;
    }
    Ok(remarks)
}

/// Returns the remarks on a beginning.
fn seen<B: Board, M: Memo<B>, G: Guide<B>>(
    alloc: Global,
    solver: &mut Solver<B, M, G>,
    tree: &Tree<B>,
    spot: &CheckNode<B>,
) -> Result<Seen<B>, Stop>
    requires there { (b : _) × IsAt B.geometry tree.now spot.now b }
    requires kept { IsKept B.geometry spot.now.attacks spot.now.left spot.now.position }
    requires few { spot.now.left ≤ 20 }
    ensures seen { (b : _) → IsAt B.geometry tree.now spot.now b
        → IfOk result (IsSeen B.geometry tree.now.paths spot.now.attacks spot.now.left spot.now.position b) }
    ensures asked { Asked B.geometry M.content M.dropped spot.now.left solver.old solver.new result }
{
    if spot.attacks {
        seen_by_attacker(alloc, solver, tree, spot)
    } else {
        seen_by_defender(alloc, solver, tree, spot)
    }
}
