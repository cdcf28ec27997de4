//! Listers: they give exactly the lines, after each line those that follow, and go on after a stop.
ghost use Rattle.std.specs.Prelude.{◌≤◌};

use crate::rows::column;
use crate::searches::limit_after;
use crate::texts::{add_line, moves_in, question};
use arrayvec::ArrayVec;
use dw_board::{Board, Position};
use dw_list::all_lines::all_lines;
use dw_list::{AfterFault, Lister, in_portions};
use dw_memo::AnyMemo;
use dw_moves::Move;
use dw_solve::{Guide, Solver};
use std::alloc::Global;
use std::fmt::Write;

/// Returns whether there are lines within a number of moves. A lister gives just these lines, and after each of them
/// the next one.
pub fn lists<B: Board, G: Guide<B>>(
    alloc: Global,
    solver: &mut Solver<B, AnyMemo<B>, G>,
    position: &Position<B>,
    moves: u8,
) -> Option<bool>
    requires some { 1 ≤ moves }
    requires few { moves ≤ 20 }
{
    let all = all_lines(alloc, solver, position, moves).ok()?;
    let lines = all.as_slice();
    let mut lister = Lister::start(solver, position, moves);
    for place in 0..lines.len() {
        gives(alloc, &mut lister, &lines[place..])?;
    }
    gives(alloc, &mut lister, &lines[lines.len()..])?;
    for (place, line) in lines.iter().enumerate() {
        lister.after(alloc, line.as_slice()).ok()?;
        gives(alloc, &mut lister, &lines[place + 1..])?;
    }
    Some(!lines.is_empty())
}

/// Returns `None` unless the lister gives the first of these lines next, or none if there is none.
fn gives<B: Board, G: Guide<B>>(
    alloc: Global,
    lister: &mut Lister<'_, B, AnyMemo<B>, G>,
    lines: &[Vec<Move<B>>],
) -> Option<()> {
    match lister.next(alloc) {
        Ok(None) if lines.is_empty() => Some(()),
        Ok(Some(next)) if !lines.is_empty() && *next == *lines[0].as_slice() => Some(()),
        _ => None,
    }
}

/// Adds all lines, and then the line that follows each one given in a column. If the moves of a column are no line, the
/// lines still to come stay.
pub fn lines<B: Board, G: Guide<B>>(
    alloc: Global,
    solver: &mut Solver<B, AnyMemo<B>, G>,
    refuses: bool,
    query: &str,
    found: &mut String,
) -> Option<()> {
    let (position, moves) = question(column(query, 0))?;
    let mut lister = Lister::start(solver, &position, moves);
    for _ in 0..20 {
        if !add_next(alloc, &mut lister, refuses, found)? {
            break;
        }
    }
    for text in query.split('|').skip(1) {
        let line = moves_in(text).unwrap_or(ArrayVec::new());
        go_after(alloc, &mut lister, refuses, line.as_slice(), found)?;
        let _ = add_next(alloc, &mut lister, refuses, found)?;
    }
    Some(())
}

/// Adds the next line, or the end, and returns whether there was a line.
fn add_next<B: Board, G: Guide<B>>(
    alloc: Global,
    lister: &mut Lister<'_, B, AnyMemo<B>, G>,
    refuses: bool,
    found: &mut String,
) -> Option<bool> {
    for number in 1..10_000 {
        let stop = match lister.next(alloc) {
            Ok(Some(line)) => return add_line(line, found).map(|()| true),
            Ok(None) => return found.push_str("end\n").ok().map(|()| false),
            Err(stop) => stop,
        };
        lister.set_limit(limit_after(stop, refuses, lister.expanded(), number)?);
    }
    None
}

/// Goes on after a line, and adds whether it does.
fn go_after<B: Board, G: Guide<B>>(
    alloc: Global,
    lister: &mut Lister<'_, B, AnyMemo<B>, G>,
    refuses: bool,
    line: &[Move<B>],
    found: &mut String,
) -> Option<()> {
    for number in 1..10_000 {
        match lister.after(alloc, line) {
            Ok(()) => return found.push_str("after: ").ok(),
            Err(AfterFault::Stopped(stop)) => {
                lister.set_limit(limit_after(stop, refuses, lister.expanded(), number)?);
            }
            Err(fault) => return write!(found, "{fault}: ").ok(),
        }
    }
    None
}

/// Adds the lines under limits of 1, twice, and then of a million, and how many stops and ends there were.
pub fn portions<B: Board, G: Guide<B>>(
    alloc: Global,
    solver: &mut Solver<B, AnyMemo<B>, G>,
    query: &str,
    found: &mut String,
) -> Option<()> {
    let (position, moves) = question(query)?;
    let mut lister = Lister::start(solver, &position, moves);
    let limits = [1, 1, 1_000_000, 1_000_000, 1_000_000, 1_000_000, 1_000_000];
    let portions = in_portions(alloc, &mut lister, &limits);
    for line in portions.lines.as_slice() {
        add_line(line.as_slice(), found)?;
    }
    let (stops, ends) = (portions.stops, portions.ends);
    write!(found, "{stops} stops, {ends} ends\n").ok()
}
