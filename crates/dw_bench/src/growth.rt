//! How the number of expanded positions grows with the number of moves.
ghost use Rattle.std.specs.Prelude.{◌≤◌};
ghost use Rattle.dw_solve.specs.Facts.{AreTrue};

use crate::written_position;
use dw_board::{Board, Position};
use dw_memo::{DeepMemo, LruMemo, Memo};
use dw_solve::{ByTrial, Solver};

/// Positions of our own making, with few pieces and with many, men alone and with kings.
const POSITIONS: [&str; 21] = [
    "W:W9,11,20,38,42:B5,6,30",
    "B:WK12,38:B21,28",
    "W:W11,16,24,28,K43:B18,30,35,37,45",
    "W:W19,25,29,32,K40:B23,K28",
    "B:W6,13,15,38,48:B1,8,K22",
    "W:WK18,36:B6,37,39",
    "W:W6,8,15,25,28,31,K36:B3,9,19,32,41",
    "B:W8,36:BK15,19,24,31,40",
    "W:W6,8,25,35,42,46:B4,7,10",
    "W:W11,K16,30,35,50:B1,12,23,44",
    "B:W7,9,13,15,17,27,32,34,38,44:B1,4,14,19,21,29,35,37,41",
    "W:W6,9,11,13,19,23,24,28,30,37,38,40,44,49:B1,5,7,8,10,14,16,27,32,36,39,41,45",
    "W:W6,10,14,17,24,28,29,30,31,32,33,34,35,39,40,42,45,48:B2,5,8,9,11,13,23,25,36,37,41,43",
    "W:W28,33,34,36,39,40,42,43,45,46,47,50:B1,3,4,5,8,9,10,11,12,14,16,19,24,26",
    "B:W26,28,31,36,37,38,40,42,44,46,48,49,50:B1,2,3,5,6,7,10,12,16,17,22,29,35",
    "W:W26,27,36,41,43,46,47,48,50:B1,2,5,8,9,10,12,13,14,16,40",
    "B:W28,31,33,35,36,38,39,43,45,46,47,49,50:B5,6,7,8,9,10,11,13,15,17,25,27",
    "W:WK30,42,44:B5,7,29",
    "B:W30,35,43:B6,K15",
    "B:W13,22,27,28,34,38,45,49:B1,K5,18,20,25,26,31,33,36,37,41,43",
    "W:WK39,41,50:B5,12,29",
];

/// The fewest moves that are asked for; each number up to `MOST_MOVES` follows.
const FEWEST_MOVES: u8 = 3;

const MOST_MOVES: u8 = 10;

/// How many positions the memos hold.
const RECENT: usize = 100_000;

const DEEP: usize = 1_000_000;

/// The most positions to expand for one question.
const LIMIT: u64 = 1_000_000_000;

/// Writes for each position how many positions are expanded, with two memos, to find whether it is won within 3 to 10
/// moves. Solver and memo are new for each question.
pub(crate) fn count_growth(rt: &HostRuntime) -> anyhow::Result<()> {
    for text in POSITIONS {
        let position = written_position(rt, text)?;
        for moves in FEWEST_MOVES..MOST_MOVES + 1 {
            let recent = expanded_with(rt, LruMemo::new(rt.alloc(), RECENT)?, &position, moves)?;
            let deep = expanded_with(rt, DeepMemo::new(rt.alloc(), DEEP)?, &position, moves)?;
            println!(rt; "within {moves}: LruMemo {recent}, DeepMemo {deep}")?;
        }
    }
    Ok(())
}

/// Returns how many positions are expanded to find whether a position is won, with a memo that is empty at first.
fn expanded_with<B: Board, M: Memo<B> + Drop>(
    rt: &HostRuntime,
    memo: M,
    position: &Position<B>,
    moves: u8,
) -> anyhow::Result<u64>
    requires right { AreTrue B.geometry (M.content memo) }
    requires few { moves ≤ 20 }
{
    let mut solver = Solver::new(memo, ByTrial, LIMIT);
    solver.wins(rt.alloc(), position, moves)?;
    Ok(solver.expanded())
}
