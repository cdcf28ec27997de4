//! Lines of forced wins, listed and timed.
ghost use Rattle.std.specs.Prelude.{◌≤◌};

use crate::timing::{micros_since, speed};
use crate::written_position;
use dw_board::{Position, Ten};
use dw_list::Lister;
use dw_memo::SlotMemo;
use dw_moves::Move;
use dw_solve::{ByTrial, Solver};
use std::alloc::Global;
use std::time::Instant;

/// How many positions a memo holds.
const HELD: usize = 100_000;

/// The most positions to expand for one list.
const LIMIT: u64 = 1_000_000_000_000;

/// No list has more lines.
const MOST_LINES: u64 = 1_000_000;

/// A lister over a fixed table.
type Slots<'a> = Lister<'a, Ten, SlotMemo<Ten>, ByTrial>;

/// Lists all lines of two positions of kings against a man, and of one of men.
pub(crate) fn list_lines(rt: &HostRuntime) -> anyhow::Result<()> {
    list_text(rt, "W:WK46,K47,K48,K49:B1", 4, 23_026)?;
    list_text(rt, "W:WK46,K47,48:B1", 5, 374_951)?;
    list_text(rt, "W:W6,8,35,39,42,44:B4,7,10", 7, 165_761)
}

/// Lists the lines of a position, and continues after the last but one. It is an error if their number is another.
fn list_text(rt: &HostRuntime, text: &str, moves: u8, lines: u64) -> anyhow::Result<()>
    requires some { 1 ≤ moves }
    requires few { moves ≤ 20 }
{
    let position = written_position(rt, text)?;
    list_all(rt, &position, moves, lines)?;
    go_on_after(rt, &position, moves, lines.saturating_sub(1))
}

/// Writes how many lines there are, and how fast all of them were listed.
fn list_all(rt: &HostRuntime, position: &Position<Ten>, moves: u8, lines: u64) -> anyhow::Result<()>
    requires some { 1 ≤ moves }
    requires few { moves ≤ 20 }
{
    let start = Instant::now(rt)?;
    let (count, expanded) = all_lines(rt.alloc(), position, moves)?;
    let micros = micros_since(rt, &start)?;
    println!(rt; "within {moves}: {count} lines")?;
    anyhow::ensure!(count == lines, "{lines} lines are wanted");
    let speed = speed(count, micros);
    eprintln!(rt; "{count} lines in {micros} microseconds: {speed} a second, {expanded} expanded")?;
    Ok(())
}

/// Returns the number of lines, and how many positions were expanded for them.
fn all_lines(alloc: Global, position: &Position<Ten>, moves: u8) -> anyhow::Result<(u64, u64)>
    requires some { 1 ≤ moves }
    requires few { moves ≤ 20 }
{
    let mut solver = new_solver(alloc)?;
    let mut lister = Lister::start(&mut solver, position, moves);
    count_lines(alloc, &mut lister)
}

/// Returns a solver with a fixed table in which nothing is noted yet.
fn new_solver(alloc: Global) -> anyhow::Result<Solver<Ten, SlotMemo<Ten>, ByTrial>> {
    Ok(Solver::new(SlotMemo::new(alloc, HELD)?, ByTrial, LIMIT))
}

/// Returns the number of lines that are still to come, and how many positions were expanded by then.
fn count_lines(alloc: Global, lister: &mut Slots<'_>) -> anyhow::Result<(u64, u64)> {
    for count in 0..MOST_LINES {
        if lister.next(alloc)?.is_none() {
            return Ok((count, lister.expanded()));
        }
    }
    anyhow::bail!("too many lines")
}

/// Writes how fast a new lister continues after the line of this number. It is an error unless exactly one line
/// follows.
fn go_on_after(
    rt: &HostRuntime,
    position: &Position<Ten>,
    moves: u8,
    number: u64,
) -> anyhow::Result<()>
    requires some { 1 ≤ moves }
    requires few { moves ≤ 20 }
{
    let (line, lists) = line_at(rt.alloc(), position, moves, number)?;
    eprintln!(rt; "{lists} lists of moves up to line {number}")?;
    let start = Instant::now(rt)?;
    let (left, expanded) = lines_after(rt.alloc(), position, moves, line.as_slice())?;
    let micros = micros_since(rt, &start)?;
    eprintln!(rt; "after the last but one: {expanded} expanded in {micros} microseconds")?;
    anyhow::ensure!(left == 1, "{left} lines follow the last but one");
    Ok(())
}

/// Returns the line of this number, counted from 1, and the number of move lists that the lines up to it need: one for
/// the position, and one after each move of a line beyond its common beginning with the line before.
fn line_at(
    alloc: Global,
    position: &Position<Ten>,
    moves: u8,
    number: u64,
) -> anyhow::Result<(Vec<Move<Ten>>, usize)>
    requires some { 1 ≤ moves }
    requires few { moves ≤ 20 }
{
    let mut solver = new_solver(alloc)?;
    let mut lister = Lister::start(&mut solver, position, moves);
    walk_to(alloc, &mut lister, number)
}

/// Goes on by `number` lines, and returns the last of them, and the number of move lists that they needed.
fn walk_to(
    alloc: Global,
    lister: &mut Slots<'_>,
    number: u64,
) -> anyhow::Result<(Vec<Move<Ten>>, usize)> {
    let mut lists = 1_usize;
    let mut last = Vec::new(alloc);
    for _ in 0..number {
        let Some(line) = lister.next(alloc)? else {
            anyhow::bail!("no such line");
        };
        lists = lists.saturating_add(line.len().saturating_sub(common(last.as_slice(), line)));
        last = line.to_vec(alloc)?;
    }
    Ok((last, lists))
}

/// Returns how many first moves two lines have in common.
fn common(line: &[Move<Ten>], other: &[Move<Ten>]) -> usize {
    let mut count = 0_usize;
    for (step, there) in line.iter().zip(other) {
        if *step != *there {
            return count;
        }
        count = count.saturating_add(1);
    }
    count
}

/// Returns the number of lines after this one, and how many positions were expanded for them.
fn lines_after(
    alloc: Global,
    position: &Position<Ten>,
    moves: u8,
    line: &[Move<Ten>],
) -> anyhow::Result<(u64, u64)>
    requires some { 1 ≤ moves }
    requires few { moves ≤ 20 }
{
    let mut solver = new_solver(alloc)?;
    let mut lister = Lister::start(&mut solver, position, moves);
    lister.after(alloc, line)?;
    count_lines(alloc, &mut lister)
}
