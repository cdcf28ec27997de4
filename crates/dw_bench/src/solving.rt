//! Problems, solved and timed.
ghost use Rattle.dw_solve.specs.Facts.{AreTrue};

use crate::problems::PROBLEMS;
use crate::timing::{micros_since, speed};
use crate::written_position;
use dw_board::{Board, Position};
use dw_memo::{DeepMemo, LruMemo, Memo, NoMemo, SlotMemo};
use dw_solve::{ByTrial, Solver, Stop};
use std::time::Instant;

/// The number of moves within which wins are looked for.
const MOST_MOVES: u8 = 6;

/// How many positions a memo holds.
const HELD: usize = 100_000;

/// The most positions to expand for one problem.
const LIMIT: u64 = 500_000;

/// Solves the problems whose least number of moves is not over the given one, with each memo.
pub(crate) fn solve_problems(rt: &HostRuntime, moves: u8) -> anyhow::Result<()> {
    for (least, texts) in PROBLEMS {
        if least <= moves {
            solve_each(rt, texts)?;
        }
    }
    Ok(())
}

/// Solves some problems, one after another.
fn solve_each(rt: &HostRuntime, texts: [&str; 8]) -> anyhow::Result<()> {
    for text in texts {
        solve_problem(rt, text)?;
    }
    Ok(())
}

/// Writes a problem, and the results with each memo.
fn solve_problem(rt: &HostRuntime, text: &str) -> anyhow::Result<()> {
    let position = written_position(rt, text)?;
    solve_with(rt, "NoMemo", NoMemo::new(), &position)?;
    let recent = LruMemo::new(rt.alloc(), HELD)?;
    solve_with(rt, "LruMemo", recent, &position)?;
    let slots = SlotMemo::new(rt.alloc(), HELD)?;
    solve_with(rt, "SlotMemo", slots, &position)?;
    let pairs = DeepMemo::new(rt.alloc(), HELD)?;
    solve_with(rt, "DeepMemo", pairs, &position)
}

/// Solves a problem with a solver over a memo.
fn solve_with<B: Board, M: Memo<B> + Drop>(
    rt: &HostRuntime,
    name: &str,
    memo: M,
    position: &Position<B>,
) -> anyhow::Result<()>
    requires { AreTrue B.geometry (M.content memo) }
{
    let mut solver = Solver::new(memo, ByTrial, LIMIT);
    solve(rt, name, &mut solver, position)
}

/// Writes the least number of moves within which the side to move wins, and how fast that was found.
fn solve<B: Board, M: Memo<B>>(
    rt: &HostRuntime,
    name: &str,
    solver: &mut Solver<B, M, ByTrial>,
    position: &Position<B>,
) -> anyhow::Result<()> {
    let start = Instant::now(rt)?;
    let answer = solver.least(rt.alloc(), position, MOST_MOVES);
    let micros = micros_since(rt, &start)?;
    write_answer(rt, name, answer)?;
    let expanded = solver.expanded();
    let speed = speed(expanded, micros);
    eprintln!(rt; "{name}: {expanded} expanded in {micros} microseconds: {speed} a second")?;
    Ok(())
}

/// Writes the least number of moves that was found with a memo, or that there is none or the limit was reached.
fn write_answer(
    rt: &HostRuntime,
    name: &str,
    answer: Result<Option<u8>, Stop>,
) -> anyhow::Result<()> {
    match answer {
        Ok(Some(least)) => println!(rt; "{name} {least}")?,
        Ok(None) => println!(rt; "{name} none")?,
        Err(Stop::Limit) => println!(rt; "{name} limit")?,
        Err(stop) => return Err(stop.into()),
    }
    Ok(())
}
