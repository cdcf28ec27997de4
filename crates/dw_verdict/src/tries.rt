//! Tries: moves that fail to one reply only.
ghost use Rattle.std.specs.Prelude.{◌≡◌, ◌≤◌, ◌-◌, IfOk};
ghost use Rattle.dw_solve.specs.Questions.{Asked};
ghost use Rattle.dw_verdict.specs.Verdict.{Tries, FindsRefutation};

use crate::keys::push;
use dw_board::{Board, Position};
use dw_memo::Memo;
use dw_moves::Move;
use dw_moves::listed::listed;
use dw_moves::play::play;
use dw_solve::{Guide, Lineup, Solver, Stop};
use std::alloc::Global;

/// Returns the tries of a position for `moves` moves, which must be from 1 to 20, in order: each legal move that
/// exactly one reply refutes, and that reply.
pub(crate) fn tries<B: Board, M: Memo<B>, G: Guide<B>>(
    alloc: Global,
    solver: &mut Solver<B, M, G>,
    position: &Position<B>,
    moves: u8,
) -> Result<Vec<(Move<B>, Move<B>)>, Stop>
    requires some { 1 ≤ moves }
    requires few { moves ≤ 20 }
    ensures tries { IfOk result (λ tries. Tries B.geometry position.now moves tries.items) }
    ensures asked { Asked B.geometry M.content M.dropped moves solver.old solver.new result }
{
    dw_solve::laws::searches_add_up();
    solver.keeps_its_limit();
    let mut tries = Vec::new(alloc);
    let mut lineup = Lineup::new(alloc);
    let list = listed(alloc, position)?;
    'moves: for item in list.as_slice() {
        let after = play(position, &item.step);
        if let Some(reply) = refutation(alloc, solver, &mut lineup, &after, moves - 1)? {
            push(&mut tries, (item.step, reply))?;
        }
    }
    Ok(tries)
}

/// Returns the only reply after which the attacker has no win within `left` moves, or `None` if there is not exactly
/// one. `left` must be at most 20. Replies come in the solver's order, because most refutations come early in it.
pub fn refutation<B: Board, M: Memo<B>, G: Guide<B>>(
    alloc: Global,
    solver: &mut Solver<B, M, G>,
    lineup: &mut Lineup<B>,
    position: &Position<B>,
    left: u8,
) -> Result<Option<Move<B>>, Stop>
    requires { left ≤ 20 }
    ensures found { IfOk result (FindsRefutation B.geometry position.now left) }
    ensures asked { Asked B.geometry M.content M.dropped left solver.old solver.new result }
{
    dw_solve::laws::searches_add_up();
    solver.keeps_its_limit();
    solver.line_up(position, lineup)?;
    let mut found = None;
    'replies: for reply in lineup.moves() {
        let after = play(position, &reply.1);
        if !solver.wins(alloc, &after, left)? {
            match found {
                Some(_) => return Ok(None),
                None => found = Some(reply.1),
            }
        }
    }
    Ok(found)
}
