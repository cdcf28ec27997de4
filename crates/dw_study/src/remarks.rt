//! The remarks on one beginning of an author's solution, at a turn of the attacker or of the defender.
ghost use Rattle.std.specs.Prelude.{◌≡◌, ◌≤◌, ◌∷◌, [], true, false, Some, IfOk, map};
ghost use Rattle.dw_board.specs.Lists.{Member};
ghost use Rattle.dw_moves.specs.Moves.{Legal};
ghost use Rattle.dw_moves.specs.Moves as of;
ghost use Rattle.dw_solve.specs.Questions.{Asked};
ghost use Rattle.dw_solve.specs.Wins.{Lost};
ghost use Rattle.dw_study.specs.Remarks.{IsLeastLoss};
ghost use Rattle.dw_study.specs.inner.Checking.{AreChildren, AreOthers, AreOtherKeys};
ghost use Rattle.dw_study.specs.inner.Checking.{FindsFirst, IsAt, IsSeen, IsSorted};

use crate::branch::{CheckNode, Child, Seen, children, others, push};
use crate::remark::Remark;
use dw_board::{Board, Position};
use dw_games::Tree;
use dw_memo::Memo;
use dw_moves::Move;
use dw_moves::listed::listed;
use dw_moves::play::play;
use dw_solve::{Guide, Solver, Stop};
use std::alloc::{AllocError, Global};

/// Returns the remarks at a turn of the attacker, and the children to examine further: those that win.
pub(crate) fn seen_by_attacker<B: Board, M: Memo<B>, G: Guide<B>>(
    alloc: Global,
    solver: &mut Solver<B, M, G>,
    tree: &Tree<B>,
    spot: &CheckNode<B>,
) -> Result<Seen<B>, Stop>
    requires there { (b : _) × IsAt B.geometry tree.now spot.now b }
    requires some { 1 ≤ spot.now.left }
    requires few { spot.now.left ≤ 20 }
    ensures seen { (b : _) → IsAt B.geometry tree.now spot.now b
        → IfOk result (IsSeen B.geometry tree.now.paths true spot.now.left spot.now.position b) }
    ensures asked { Asked B.geometry M.content M.dropped spot.now.left solver.old solver.new result }
{
    dw_solve::laws::searches_add_up();
    solver.keeps_its_limit();
    let children = children(alloc, tree, spot)?;
    if children.is_empty() {
        let wins_in = solver.least(alloc, &spot.position, spot.left)?;
        return Ok(end(alloc, spot, wins_in)?);
    }
    let mut seen = sorted(alloc, solver, spot, children.as_slice())?;
    let others = others(alloc, &spot.position, children.as_slice())?;
    let keys = winning(alloc, solver, spot, others.as_slice())?;
    if !keys.is_empty() {
        let also = Remark::Also {
            at: spot.node,
            keys,
        };
        push(&mut seen.remarks, also)?;
    }
    Ok(seen)
}

/// Returns the remarks at a turn of the defender, and the children to examine further: all of them.
pub(crate) fn seen_by_defender<B: Board, M: Memo<B>, G: Guide<B>>(
    alloc: Global,
    solver: &mut Solver<B, M, G>,
    tree: &Tree<B>,
    spot: &CheckNode<B>,
) -> Result<Seen<B>, Stop>
    requires there { (b : _) × IsAt B.geometry tree.now spot.now b }
    requires lost { Lost B.geometry spot.now.position spot.now.left }
    requires few { spot.now.left ≤ 20 }
    ensures seen { (b : _) → IsAt B.geometry tree.now spot.now b
        → IfOk result (IsSeen B.geometry tree.now.paths false spot.now.left spot.now.position b) }
    ensures asked { Asked B.geometry M.content M.dropped spot.now.left solver.old solver.new result }
{
    dw_solve::laws::searches_add_up();
    solver.keeps_its_limit();
    let followed = children(alloc, tree, spot)?;
    let replies = others(alloc, &spot.position, followed.as_slice())?;
    if replies.is_empty() {
        return Ok(Seen {
            remarks: Vec::new(alloc),
            followed,
        });
    }
    if followed.is_empty() {
        let lost_in = least_loss(alloc, solver, &spot.position, spot.left)?;
        return Ok(end(alloc, spot, Some(lost_in))?);
    }
    let mut remarks = Vec::new(alloc);
    let open = Remark::Open {
        at: spot.node,
        replies,
    };
    push(&mut remarks, open)?;
    Ok(Seen { remarks, followed })
}

/// Returns the least number of moves within which the side to move has lost, which it has within `most`.
fn least_loss<B: Board, M: Memo<B>, G: Guide<B>>(
    alloc: Global,
    solver: &mut Solver<B, M, G>,
    position: &Position<B>,
    most: u8,
) -> Result<u8, Stop>
    requires lost { Lost B.geometry position.now most }
    requires few { most ≤ 20 }
    ensures least { IfOk result (IsLeastLoss B.geometry position.now) }
    ensures asked { Asked B.geometry M.content M.dropped most solver.old solver.new result }
{
    dw_solve::laws::searches_add_up();
    solver.keeps_its_limit();
    'moves: for moves in 0..most {
        if solver.loses(alloc, position, moves)? {
            return Ok(moves);
        }
    }
    Ok(most)
}

/// Returns the remark that the solution ends here, within how many moves the attacker wins, and no children.
fn end<B: Board>(
    alloc: Global,
    spot: &CheckNode<B>,
    wins_in: Option<u8>,
) -> Result<Seen<B>, AllocError>
    ensures remarks { IfOk result (λ seen. seen.remarks.items ≡ Remark.Ends spot.now.node wins_in ∷ []) }
    ensures followed { IfOk result (λ seen. seen.followed.items ≡ []) }
{
    let mut remarks = Vec::new(alloc);
    let ends = Remark::Ends {
        at: spot.node,
        wins_in,
    };
    push(&mut remarks, ends)?;
    Ok(Seen {
        remarks,
        followed: Vec::new(alloc),
    })
}

/// Returns the children that win, and remarks on those that fail.
fn sorted<B: Board, M: Memo<B>, G: Guide<B>>(
    alloc: Global,
    solver: &mut Solver<B, M, G>,
    spot: &CheckNode<B>,
    children: &[Child<B>],
) -> Result<Seen<B>, Stop>
    requires legal { (m : _) → Member m (map (λ c. c.mv) children.now) → Legal B.geometry spot.now.position m }
    requires reached { (c : _) → Member c children.now → c.position ≡ of.play B.geometry spot.now.position c.mv }
    requires some { 1 ≤ spot.now.left }
    requires few { spot.now.left ≤ 20 }
    ensures sorted { (tree : _) (b : _) → AreChildren B.geometry spot.now.position tree b children.now
        → IfOk result (IsSorted B.geometry spot.now.position spot.now.left tree b spot.now.node children.now) }
    ensures asked { Asked B.geometry M.content M.dropped spot.now.left solver.old solver.new result }
{
    dw_moves::laws::moves_have_keys();
    dw_solve::laws::searches_add_up();
    solver.keeps_its_limit();
    let mut remarks = Vec::new(alloc);
    let mut followed = Vec::new(alloc);
    'children: for child in children {
        match refutation(alloc, solver, &child.position, spot.left - 1)? {
            Some(reply) => {
                let fails = Remark::Fails {
                    at: spot.node,
                    mv: child.mv,
                    reply,
                };
                push(&mut remarks, fails)?;
            }
            None => push(&mut followed, *child)?,
        }
    }
    Ok(Seen { remarks, followed })
}

/// Returns the moves among some legal ones that win within the moves that are left.
fn winning<B: Board, M: Memo<B>, G: Guide<B>>(
    alloc: Global,
    solver: &mut Solver<B, M, G>,
    spot: &CheckNode<B>,
    moves: &[Move<B>],
) -> Result<Vec<Move<B>>, Stop>
    requires legal { (m : _) → Member m moves.now → Legal B.geometry spot.now.position m }
    requires some { 1 ≤ spot.now.left }
    requires few { spot.now.left ≤ 20 }
    ensures keys { (given : _) → AreOthers B.geometry spot.now.position given moves.now
        → IfOk result (λ keys. AreOtherKeys B.geometry spot.now.position spot.now.left given keys.items) }
    ensures asked { Asked B.geometry M.content M.dropped spot.now.left solver.old solver.new result }
{
    dw_solve::laws::searches_add_up();
    solver.keeps_its_limit();
    let mut keys = Vec::new(alloc);
    'moves: for mv in moves {
        let after = play(&spot.position, mv);
        if solver.loses(alloc, &after, spot.left - 1)? {
            push(&mut keys, *mv)?;
        }
    }
    Ok(keys)
}

/// Returns the first reply after which the attacker has no win within `left` moves, if there is one.
fn refutation<B: Board, M: Memo<B>, G: Guide<B>>(
    alloc: Global,
    solver: &mut Solver<B, M, G>,
    position: &Position<B>,
    left: u8,
) -> Result<Option<Move<B>>, Stop>
    requires { left ≤ 20 }
    ensures found { IfOk result (FindsFirst B.geometry position.now left) }
    ensures asked { Asked B.geometry M.content M.dropped left solver.old solver.new result }
{
    dw_solve::laws::searches_add_up();
    solver.keeps_its_limit();
    let list = listed(alloc, position)?;
    'replies: for reply in list.as_slice() {
        let after = play(position, &reply.step);
        if !solver.wins(alloc, &after, left)? {
            return Ok(Some(reply.step));
        }
    }
    Ok(None)
}
