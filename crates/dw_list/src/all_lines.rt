//! All lines of a position at once.
ghost use Rattle.std.specs.Prelude.{◌≡◌, ◌≤◌, ◌++◌, ◌∷◌, [], true, false, map, length, ◌<◌, ◌⊎◌, IfOk, OnOk, IsErrOf};
ghost use Rattle.dw_moves.specs.Moves.{Legal};
ghost use Rattle.dw_solve.specs.declared.stop.Stop.TheVariants.{Limit};
ghost use Rattle.dw_solve.specs.Searching.{IsCounted};
ghost use Rattle.dw_solve.specs.Work.{moment, Searched, cut_off};
ghost use Rattle.dw_solve.specs.Lines.{Lines};
ghost use Rattle.dw_list.specs.inner.Ways.{AreWays, AreAdded};
ghost use Rattle.dw_solve.specs.Questions.{Asked};

use crate::next_moves::{keeps, left_behind, may_move};
use dw_board::{Board, Position};
use dw_memo::Memo;
use dw_moves::listed::listed;
use dw_moves::play::play as played;
use dw_moves::{Listed, Move};
use dw_solve::{Guide, Solver, Stop};
use std::alloc::{AllocError, Global};

/// Returns all lines in which the side to move wins within `moves` moves, which must be at most 20, in ascending order
/// and each once. After a stop all bounds in the memo are right, and the call can be repeated.
pub fn all_lines<B: Board, M: Memo<B>, G: Guide<B>>(
    alloc: Global,
    solver: &mut Solver<B, M, G>,
    position: &Position<B>,
    moves: u8,
) -> Result<Vec<Vec<Move<B>>>, Stop>
    requires { moves ≤ 20 }
    ensures lines { IfOk result (λ lines. Lines B.geometry position.now moves (map (λ line. line.items) lines.items)) }
    ensures count { IsCounted solver.old.expanded solver.old.limit solver.new.expanded solver.new.limit }
    ensures stop { IsErrOf result Limit → solver.new.expanded ≡ solver.new.limit }
    ensures searched { Searched B.geometry moves (cut_off result moves)
        (moment M.content M.dropped solver.old.memo solver.old.expanded)
        (moment M.content M.dropped solver.new.memo solver.new.expanded) }
{
    ways(alloc, solver, position, true, moves)
}

/// Returns all continuations of a line from a position, with `moves` moves left for the attacker.
#[cycle(ways)]
fn ways<B: Board, M: Memo<B>, G: Guide<B>>(
    alloc: Global,
    solver: &mut Solver<B, M, G>,
    position: &Position<B>,
    attacks: bool,
    moves: u8,
) -> Result<Vec<Vec<Move<B>>>, Stop>
    requires { moves ≤ 20 }
    ensures ways { IfOk result (λ lists.
        AreWays B.geometry attacks position.now moves (map (λ list. list.items) lists.items)) }
    ensures asked { Asked B.geometry M.content M.dropped moves solver.old solver.new result }
{
    dw_solve::laws::searches_add_up();
    solver.keeps_its_limit();
    if !may_move(attacks, moves) {
        return Ok(Vec::new(alloc));
    }
    let list = listed(alloc, position)?;
    let mut lists = ends(alloc, attacks, list.as_slice())?;
    let left = left_behind(attacks, moves);
    'moves: for item in list.as_slice() {
        push_ways(
            alloc, solver, position, &item.step, attacks, left, &mut lists,
        )?;
    }
    Ok(lists)
}

/// Returns the continuations without a move: the empty list alone if the defender is to move and has no move, and else
/// none.
fn ends<B: Board>(
    alloc: Global,
    attacks: bool,
    list: &[Listed<B>],
) -> Result<Vec<Vec<Move<B>>>, AllocError>
    ensures some { IfOk result (λ lists. (attacks ≡ true)
        ⊎ (0 < length list.now) → map (λ list. list.items) lists.items ≡ []) }
    ensures none { IfOk result (λ lists. attacks ≡ false → length list.now ≡ 0
        → map (λ list. list.items) lists.items ≡ [] ∷ []) }
{
    let mut lists = Vec::new(alloc);
    if !attacks && list.is_empty() {
        lists.push(Vec::new(alloc))?;
    }
    Ok(lists)
}

/// Adds the continuations through one legal move, with `left` moves left for the attacker after it.
#[cycle(ways)]
fn push_ways<B: Board, M: Memo<B>, G: Guide<B>>(
    alloc: Global,
    solver: &mut Solver<B, M, G>,
    position: &Position<B>,
    mv: &Move<B>,
    attacks: bool,
    left: u8,
    lists: &mut Vec<Vec<Move<B>>>,
) -> Result<(), Stop>
    requires legal { Legal B.geometry position.now mv.now }
    requires few { left ≤ 20 }
    ensures added { OnOk result (AreAdded B.geometry attacks position.now left mv.now
        (map (λ list. list.items) lists.old.items) (map (λ list. list.items) lists.new.items)) }
    ensures asked { Asked B.geometry M.content M.dropped left solver.old solver.new result }
{
    dw_solve::laws::searches_add_up();
    let after = played(position, mv);
    if keeps(alloc, solver, &after, attacks, left)? {
        let behind = ways(alloc, solver, &after, !attacks, left)?;
        push_each(alloc, mv, behind.as_slice(), lists)?;
    }
    Ok(())
}

/// Adds each of these lists with one move before it.
fn push_each<B: Board>(
    alloc: Global,
    mv: &Move<B>,
    behind: &[Vec<Move<B>>],
    lists: &mut Vec<Vec<Move<B>>>,
) -> Result<(), AllocError>
    ensures { OnOk result (map (λ list. list.items) lists.new.items
        ≡ map (λ list. list.items) lists.old.items ++ map (λ list. mv.now ∷ list.items) behind.now) }
{
    'lists: for rest in behind {
        lists.push(joined(alloc, mv, rest.as_slice())?)?;
    }
    Ok(())
}

/// Returns the list of a move and the moves after it.
fn joined<B: Board>(
    alloc: Global,
    mv: &Move<B>,
    rest: &[Move<B>],
) -> Result<Vec<Move<B>>, AllocError>
    ensures { IfOk result (λ list. list.items ≡ mv.now ∷ rest.now) }
{
    let mut list = Vec::new(alloc);
    list.push(*mv)?;
    list.extend_from_slice(rest)?;
    Ok(list)
}
