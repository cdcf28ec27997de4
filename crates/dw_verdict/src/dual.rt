//! The first choice that the attacker has after his first move.
ghost use Rattle.std.specs.Prelude.{◌≡◌, ◌≤◌, ◌<◌, ◌∷◌, length, IfOk, option_map};
ghost use Rattle.dw_solve.specs.Questions.{Asked};
ghost use Rattle.dw_solve.specs.Lines.{Before};
ghost use Rattle.dw_verdict.specs.Verdict.{Keys};
ghost use Rattle.dw_verdict.specs.inner.Judging.{LeadsToChoices, ComesToChoices, RepliesToChoices, FindsLeast};
ghost use Rattle.dw_verdict.specs.inner.Judging.{parts_of};

use crate::keys::keys;
use crate::verdict::MAX_BEFORE;
use arrayvec::ArrayVec;
use dw_board::{Board, Position};
use dw_memo::Memo;
use dw_moves::Move;
use dw_moves::listed::listed;
use dw_moves::play::play;
use dw_solve::{Guide, Solver, Stop};
use std::alloc::Global;

/// A choice: the moves that lead to it, and the moves that all win there, in order.
#[derive(Drop)]
pub(crate) struct Dual<B: Board> {
    pub(crate) at: ArrayVec<Move<B>, MAX_BEFORE>,
    pub(crate) choices: Vec<Move<B>>,
}

/// Returns the first choice after one of the keys of a position, in the order of lines, where a beginning comes before
/// its continuations. `keys` must be all keys for `moves` moves, and `moves` at most 20.
#[cycle(first_choice)]
pub(crate) fn first_choice<B: Board, M: Memo<B>, G: Guide<B>>(
    alloc: Global,
    solver: &mut Solver<B, M, G>,
    position: &Position<B>,
    moves: u8,
    keys: &[Move<B>],
) -> Result<Option<Dual<B>>, Stop>
    requires few { moves ≤ 20 }
    requires keys { Keys B.geometry position.now moves keys.now }
    ensures found { IfOk result (λ found.
        FindsLeast (Before B.geometry position.now) (LeadsToChoices B.geometry moves position.now)
        (option_map parts_of found)) }
    ensures asked { Asked B.geometry M.content M.dropped moves solver.old solver.new result }
{
    dw_solve::laws::searches_add_up();
    dw_moves::laws::moves_have_keys();
    solver.keeps_its_limit();
    'keys: for key in keys {
        let after = play(position, key);
        let found = choice_after_reply(alloc, solver, &after, moves.saturating_sub(1))?;
        if let Some(dual) = found {
            return Ok(Some(with_first(*key, dual)));
        }
    }
    Ok(None)
}

/// Returns the first choice after a reply.
#[cycle(first_choice)]
fn choice_after_reply<B: Board, M: Memo<B>, G: Guide<B>>(
    alloc: Global,
    solver: &mut Solver<B, M, G>,
    position: &Position<B>,
    left: u8,
) -> Result<Option<Dual<B>>, Stop>
    requires { left ≤ 19 }
    ensures found { IfOk result (λ found.
        FindsLeast (Before B.geometry position.now) (RepliesToChoices B.geometry left position.now)
        (option_map parts_of found)) }
    ensures asked { Asked B.geometry M.content M.dropped left solver.old solver.new result }
{
    dw_solve::laws::searches_add_up();
    dw_moves::laws::moves_have_keys();
    solver.keeps_its_limit();
    let list = listed(alloc, position)?;
    'replies: for item in list.as_slice() {
        let after = play(position, &item.step);
        let found = choice_from(alloc, solver, &after, left)?;
        if let Some(dual) = found {
            return Ok(Some(with_first(item.step, dual)));
        }
    }
    Ok(None)
}

/// Returns the choice at a position, or else the first one after it.
#[cycle(first_choice)]
fn choice_from<B: Board, M: Memo<B>, G: Guide<B>>(
    alloc: Global,
    solver: &mut Solver<B, M, G>,
    position: &Position<B>,
    left: u8,
) -> Result<Option<Dual<B>>, Stop>
    requires { left ≤ 19 }
    ensures found { IfOk result (λ found.
        FindsLeast (Before B.geometry position.now) (ComesToChoices B.geometry left position.now)
        (option_map parts_of found)) }
    ensures asked { Asked B.geometry M.content M.dropped left solver.old solver.new result }
{
    dw_solve::laws::searches_add_up();
    dw_moves::laws::moves_have_keys();
    let choices = keys(alloc, solver, position, left)?;
    if choices.len() >= 2 {
        let at = ArrayVec::new();
        return Ok(Some(Dual { at, choices }));
    }
    first_choice(alloc, solver, position, left, choices.as_slice())
}

/// Returns the choice with one more move before it. It must have fewer than 38 moves before it so far.
fn with_first<B: Board>(mv: Move<B>, dual: Dual<B>) -> Dual<B>
    requires { length dual.at.items < 38 }
    ensures at { result.at.items ≡ mv ∷ dual.at.items }
    ensures choices { result.choices.items ≡ dual.choices.items }
{
    let mut at = dual.at;
    at.insert(0, mv);
    Dual { at, ..dual }
}
