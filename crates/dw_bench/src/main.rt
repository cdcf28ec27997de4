//! Counts the lines of play from some positions, ply by ply, and solves problems. It reports moves made and positions
//! expanded a second. Counts and answers go to standard output, speeds to standard error.
//!
//! Without an argument it does some of both. A number adds plies to the lines, `deep` counts many plies only, `solve`
//! solves all problems, `lines` lists the lines of some wins, and `growth` counts the positions for each further move.
#![tactic(auto)]

mod growth;
mod lines;
mod perft;
mod problems;
mod solving;
mod timing;

use anyhow::Context;
use dw_board::{Position, Ten, read_fen};
use dw_moves::Move;
use growth::count_growth;
use lines::list_lines;
use perft::{moves_made, perft};
use solving::solve_problems;
use std::env;
use std::time::Instant;
use timing::{micros_since, speed};

/// A position, the number of plies to which its lines are counted, and that number for `deep`.
type Case = (&'static str, usize, usize);

/// The opening, and two positions with many captures.
const CASES: [Case; 3] = [
    ("B:W31-50:B1-20", 5, 9),
    (
        "W:W25,27,28,30,32,33,34,35,37,38:B12,13,14,16,18,19,21,23,24,26",
        7,
        17,
    ),
    (
        "B:W6,9,10,11,20,21,22,23,30,K31,33,37,41,42,43,44,46:BK17,K24",
        4,
        7,
    ),
];

/// The most plies that are added.
const MOST_ADDED: usize = 4;

/// The greatest number of moves of a problem that is solved without an argument.
const FEW_MOVES: u8 = 3;

/// The greatest number of moves of a problem.
const ALL_MOVES: u8 = 6;

fn main(rt: HostRuntime) -> anyhow::Result<()> {
    let words = env::args(&rt)?.collect::<Vec<String>>(rt.alloc())?;
    match words.get(1).map(String::as_str) {
        None => {
            count_all(&rt, 0)?;
            solve_problems(&rt, FEW_MOVES)
        }
        Some("deep") => count_deep(&rt),
        Some("solve") => solve_problems(&rt, ALL_MOVES),
        Some("lines") => list_lines(&rt),
        Some("growth") => count_growth(&rt),
        Some(word) => count_all(&rt, plies_added(word)?),
    }
}

/// Returns the number of plies that an argument adds.
fn plies_added(word: &str) -> anyhow::Result<usize> {
    let added = word
        .parse::<usize>()
        .context("the word is no number of plies")?;
    Ok(added.min(MOST_ADDED))
}

/// Counts the lines of all cases, with additional plies.
fn count_all(rt: &HostRuntime, added: usize) -> anyhow::Result<()> {
    for (text, plies, _) in CASES {
        count_lines(rt, text, plies.saturating_add(added))?;
    }
    Ok(())
}

/// Counts the lines of all cases to many plies, and writes how long it took.
fn count_deep(rt: &HostRuntime) -> anyhow::Result<()> {
    for (text, _, plies) in CASES {
        count_many(rt, text, plies)?;
    }
    Ok(())
}

/// Writes the number of lines of each length, and how long it took.
fn count_many(rt: &HostRuntime, text: &str, plies: usize) -> anyhow::Result<()> {
    let start = Instant::now(rt)?;
    let position = written_position(rt, text)?;
    count_plies(rt, &position, plies)?;
    let millis = start.elapsed(rt)?.as_millis();
    eprintln!(rt; "{plies} plies in {millis} milliseconds")?;
    Ok(())
}

/// Writes a FEN text, and returns its position.
pub(crate) fn written_position(rt: &HostRuntime, text: &str) -> anyhow::Result<Position<Ten>> {
    let position = read_fen::<Ten>(text.as_bytes()).context("no FEN text")?;
    println!(rt; "{text}")?;
    Ok(position)
}

/// Writes the number of lines of each length, and how fast all moves of the longest ones are made.
fn count_lines(rt: &HostRuntime, text: &str, plies: usize) -> anyhow::Result<()> {
    let position = written_position(rt, text)?;
    let mut lists = count_plies(rt, &position, plies)?;
    time_moves(rt, &position, lists.as_mut_slice())
}

/// Writes how fast all moves are made on the lines of as many moves as there are lists.
fn time_moves(
    rt: &HostRuntime,
    position: &Position<Ten>,
    lists: &mut [Vec<Move<Ten>>],
) -> anyhow::Result<()> {
    let start = Instant::now(rt)?;
    let moves = moves_made(position, lists)?;
    let micros = micros_since(rt, &start)?;
    let speed = speed(moves, micros);
    eprintln!(rt; "{moves} moves made in {micros} microseconds: {speed} a second")?;
    Ok(())
}

/// Writes the number of lines of each length up to `plies` plies, and returns the lists that it used, one a ply.
fn count_plies(
    rt: &HostRuntime,
    position: &Position<Ten>,
    plies: usize,
) -> anyhow::Result<Vec<Vec<Move<Ten>>>> {
    let mut lists = Vec::new(rt.alloc());
    for _ in 0..plies {
        lists.push(Vec::<Move<Ten>>::new(rt.alloc()))?;
        println!(rt; "{}", perft(position, &mut lists)?)?;
    }
    Ok(lists)
}
