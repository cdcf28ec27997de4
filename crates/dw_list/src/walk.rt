//! The walk over a stack, from line to line.
ghost use Rattle.std.specs.Prelude.{◌≡◌, IfOk, OnErr, if◌then◌else◌};
ghost use Rattle.dw_solve.specs.Questions.{Asked};
ghost use Rattle.dw_list.specs.StackWalk.{SameToCome};
ghost use Rattle.dw_list.specs.inner.StackWalk.{HasStepped, GivesNext};

use crate::next_moves::keeps;
use crate::stack::{Stack, Task};
use dw_board::Board;
use dw_memo::Memo;
use dw_solve::{Guide, Solver, Stop};
use std::alloc::Global;

/// The result of one step of a walk.
#[derive(Clone, Copy)]
pub(crate) enum Step {
    /// The end: no line is still to come.
    Over,
    /// A line.
    Given,
    /// Neither.
    On,
}

/// Walks to the next line, and returns whether there is one. After a stop the lines still to come are the same.
pub(crate) fn walk<B: Board, M: Memo<B>, G: Guide<B>>(
    alloc: Global,
    solver: &mut Solver<B, M, G>,
    stack: &mut Stack<B>,
) -> Result<bool, Stop>
    ensures next { IfOk result (λ more. GivesNext B.geometry more stack.old stack.new) }
    ensures stopped { OnErr result (SameToCome B.geometry stack.old stack.new) }
    ensures asked { Asked B.geometry M.content M.dropped stack.old.moves solver.old solver.new result }
{
    dw_solve::laws::searches_add_up();
    dw_moves::laws::moves_have_keys();
    solver.keeps_its_limit();
    'steps: loop {
        match take_step(alloc, solver, stack)? {
            Step::Over => return Ok(false),
            Step::Given => return Ok(true),
            Step::On => {}
        }
    }
}

/// Takes one step.
fn take_step<B: Board, M: Memo<B>, G: Guide<B>>(
    alloc: Global,
    solver: &mut Solver<B, M, G>,
    stack: &mut Stack<B>,
) -> Result<Step, Stop>
    ensures stepped { IfOk result (λ met. HasStepped B.geometry met stack.old stack.new) }
    ensures stopped { OnErr result (stack.new ≡ stack.old) }
    ensures asked { Asked B.geometry M.content M.dropped stack.old.moves solver.old solver.new result }
{
    dw_solve::laws::searches_add_up();
    solver.keeps_its_limit();
    stack.keeps_its_levels();
    match stack.task() {
        Task::Over => Ok(Step::Over),
        Task::Unlisted => {
            let is_end = stack.list(alloc)?;
            Ok(listed_step(is_end))
        }
        Task::Try(candidate) => {
            let kept = keeps(
                alloc,
                solver,
                &candidate.after,
                candidate.attacks,
                candidate.left,
            )?;
            if kept {
                stack.enter(&candidate);
            } else {
                stack.pass();
            }
            Ok(Step::On)
        }
        Task::Passed => {
            stack.back();
            Ok(Step::On)
        }
    }
}

/// Returns the result of listing the moves of a level.
fn listed_step(is_end: bool) -> Step
    ensures { result ≡ (if is_end then Step.Given else Step.On) }
{
    if is_end { Step::Given } else { Step::On }
}
