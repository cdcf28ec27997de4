//! Tests of what no program reaches, over public calls: streams that fail in mid-stream, readers that do not tell their
//! bytes, the entries that a cache loses, searches that stop and are asked again, other orders of moves, and a board of
//! six rows. Each row of standard input is asked, and of each section it is said whether all rows were right.
//!
//! `checks/rows.py` tests the programs themselves, with the rows in `tests/`.
#![tactic(auto)]

mod lines;
mod memos;
mod moves;
mod rows;
mod runs;
mod searches;
mod six;
mod streams;
mod texts;

use dw_board::{Board, Eight, Ten};
use dw_notation::Form;
use rows::{Section, Tally, input_sections, word};
use six::Six;
use std::alloc::Global;
use std::io;

fn main(rt: HostRuntime) -> io::Result<()> {
    for section in input_sections(&rt)?.as_slice() {
        let mut tally = Tally::new(rt.alloc())?;
        for board in word(section.head.as_str(), 1).split(',') {
            match board {
                "10" => ask::<Ten>(rt.alloc(), section, &mut tally),
                "8" => ask::<Eight>(rt.alloc(), section, &mut tally),
                "6" => ask::<Six>(rt.alloc(), section, &mut tally),
                _ => tally.asked = tally.asked.wrapping_add(1),
            }
        }
        tally.report(&rt, section.head.as_str())?;
    }
    Ok(())
}

/// Asks all rows of a section on one board.
fn ask<B: Board>(alloc: Global, section: &Section, tally: &mut Tally) {
    let head = section.head.as_str();
    for row in section.rows.as_slice() {
        let (query, found) = (row.query.as_str(), &mut tally.found);
        let answered = match word(head, 0) {
            "move" | "refused-move" => moves::read::<B>(alloc, query, found),
            "again" => moves::again::<B>(alloc, query, found),
            "fens" => streams::problems::<B>(alloc, Form::Fens, query, found),
            "pdn" => streams::problems::<B>(alloc, Form::Pdn, query, found),
            "faults" => streams::faults(found),
            "run" => runs::whole::<B>(alloc, head, query, found),
            _ => return memos::ask_each::<B>(alloc, section, tally),
        };
        tally.end(row, answered);
    }
}
