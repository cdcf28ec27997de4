//! The layers as libraries: a position is read, its moves are listed, it is solved, and two lines of the win are given.
#![tactic(auto)]

use dw_board::{Ten, read_fen};
use dw_list::Lister;
use dw_memo::LruMemo;
use dw_moves::listed::listed;
use dw_notation::move_text::move_text;
use dw_solve::{ByTrial, Solver};

fn main(rt: HostRuntime) -> anyhow::Result<()> {
    let alloc = rt.alloc();
    let Ok(position) = read_fen::<Ten>(b"W:W27,32:B18") else {
        anyhow::bail!("no FEN text");
    };
    let moves = listed(alloc, &position)?;
    for place in 0..moves.len() {
        println!(rt; "{}", move_text(moves.as_slice(), place))?;
    }
    let mut solver = Solver::new(LruMemo::new(alloc, 100_000)?, ByTrial, 1_000_000);
    let wins = solver.wins(alloc, &position, 2)?;
    println!(rt; "a win in 2 moves: {wins}")?;
    let mut lister = Lister::start(&mut solver, &position, 2);
    for number in 1..3 {
        print!(rt; "line {number}:")?;
        for mv in lister.next(alloc)?.unwrap_or(&[]) {
            print!(rt; " {}-{}", mv.from.number(), mv.to.number())?;
        }
        println!(rt; "")?;
    }
    Ok(())
}
