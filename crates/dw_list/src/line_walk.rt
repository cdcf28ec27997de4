//! Ways along a given list of moves.
ghost use Rattle.std.specs.Prelude.{◌≡◌, ◌≤◌, IfOk, IfSome, IfNone, IsTrue};
ghost use Rattle.dw_solve.specs.Questions.{Asked};
ghost use Rattle.dw_list.specs.inner.Tasks.{IsCandidate};
ghost use Rattle.dw_list.specs.inner.LineWalk.{SomePassed, IsNotAhead, IsUnlisted, WentOn, GoOnWith, IsLineWalk};

use crate::next_moves::keeps;
use crate::stack::{Candidate, Stack, Task};
use dw_board::{Board, Position};
use dw_memo::Memo;
use dw_moves::{Move, same_move};
use dw_solve::{Guide, Solver, Stop};
use std::alloc::Global;

/// The result of a walk along a list of moves.
#[derive(Drop)]
pub(crate) enum LineWalk<B: Board> {
    /// A line, and the stack of the lines after it.
    Along(Stack<B>),
    /// No line: the place at which it leaves all lines.
    Place(usize),
}

/// Follows a list of moves from a position, level by level, and returns whether it is a line. `moves` must be from 1 to
/// 20.
pub(crate) fn walk_along<B: Board, M: Memo<B>, G: Guide<B>>(
    alloc: Global,
    solver: &mut Solver<B, M, G>,
    position: &Position<B>,
    moves: u8,
    line: &[Move<B>],
) -> Result<LineWalk<B>, Stop>
    requires some { 1 ≤ moves }
    requires few { moves ≤ 20 }
    ensures found { IfOk result (λ found. IsLineWalk B.geometry position.now moves line.now found) }
    ensures asked { Asked B.geometry M.content M.dropped moves solver.old solver.new result }
{
    dw_solve::laws::searches_add_up();
    dw_moves::laws::moves_listed();
    dw_moves::laws::moves_have_keys();
    solver.keeps_its_limit();
    let mut stack = Stack::new(position, moves);
    stack.keeps_its_levels();
    let mut place: usize = 1;
    'line: for mv in line {
        let went = descend(alloc, solver, &mut stack, mv)?;
        if !went {
            return Ok(LineWalk::Place(place));
        }
        stack.keeps_its_levels();
        place += 1;
    }
    let is_end = stack.list(alloc)?;
    if is_end {
        Ok(LineWalk::Along(stack))
    } else {
        Ok(LineWalk::Place(place))
    }
}

/// Goes on with a move if lines go on with it, and returns whether they do. The moves of the last level must not be
/// listed yet.
fn descend<B: Board, M: Memo<B>, G: Guide<B>>(
    alloc: Global,
    solver: &mut Solver<B, M, G>,
    stack: &mut Stack<B>,
    mv: &Move<B>,
) -> Result<bool, Stop>
    requires { IsUnlisted stack.old.levels }
    ensures went { IfOk result (λ yes. IsTrue yes → WentOn stack.old stack.new mv.now) }
    ensures next { IfOk result (λ yes. IsTrue yes → GoOnWith B.geometry stack.old.levels mv.now) }
    ensures barred { IfOk result (λ yes. (IsTrue yes → ⊥) → GoOnWith B.geometry stack.old.levels mv.now → ⊥) }
    ensures asked { Asked B.geometry M.content M.dropped stack.old.moves solver.old solver.new result }
{
    dw_solve::laws::searches_add_up();
    solver.keeps_its_limit();
    stack.list(alloc)?;
    let Some(candidate) = seek(stack, mv) else {
        return Ok(false);
    };
    stack.keeps_its_levels();
    let kept = keeps(
        alloc,
        solver,
        &candidate.after,
        candidate.attacks,
        candidate.left,
    )?;
    if kept {
        stack.enter(&candidate);
        stack.keeps_its_levels();
    }
    Ok(kept)
}

/// Passes the moves ahead at the last level up to the given one, and returns that one, or `None` if it is not ahead.
fn seek<B: Board>(stack: &mut Stack<B>, mv: &Move<B>) -> Option<Candidate<B>>
    ensures passed { SomePassed stack.old stack.new }
    ensures found { IfSome result (λ candidate.
        IsCandidate B.geometry stack.new.levels candidate × (candidate.mv ≡ mv.now)) }
    ensures none { IfNone result (IsNotAhead stack.old mv.now) }
{
    'moves: loop {
        match stack.task() {
            Task::Try(candidate) => {
                if same_move(&candidate.mv, mv) {
                    return Some(candidate);
                }
                stack.pass();
            }
            Task::Over | Task::Unlisted | Task::Passed => return None,
        }
    }
}
