//! Positions, moves and bytes by their texts.
ghost use Rattle.std.specs.Prelude.{◌≤◌, IfSome};

use crate::rows::word;
use arrayvec::ArrayVec;
use dw_board::{Board, Position, Square, Squares, read_fen};
use dw_moves::Move;
use std::alloc::Global;
use std::fmt::Write;

/// Returns the bytes that a text stands for: each `/` is the end of a line.
pub fn bytes_of(alloc: Global, text: &str) -> Option<Vec<u8>> {
    let mut bytes = Vec::new(alloc);
    for byte in text.bytes() {
        bytes.push(if byte == b'/' { b'\n' } else { byte }).ok()?;
    }
    Some(bytes)
}

fn square_of<B: Board>(text: &str) -> Option<Square<B>> {
    Square::new(text.parse::<u8>().ok()?)
}

/// Returns a list of moves with a comma between them, each `FROM TO` or `FROM TO taking SQUARES`. They need not be
/// legal.
pub fn moves_in<B: Board>(text: &str) -> Option<ArrayVec<Move<B>, 39>> {
    let mut line = ArrayVec::new();
    for part in text.split(',') {
        let mut taken = Squares::none();
        for number in part.split_whitespace().skip(3) {
            taken = taken.with(square_of(number)?);
        }
        let from = square_of(word(part, 0))?;
        let to = square_of(word(part, 1))?;
        line.try_push(Move { from, to, taken }).ok()?;
    }
    Some(line)
}

/// Returns the position that a FEN text names, if it names one.
pub fn read_position<B: Board>(text: &str) -> Option<Position<B>> {
    read_fen::<B>(text.as_bytes()).ok()
}

/// Returns a position and a number of moves, 1 to 20.
pub fn question<B: Board>(text: &str) -> Option<(Position<B>, u8)>
    ensures some { IfSome result (λ read. 1 ≤ read.1) }
    ensures few { IfSome result (λ read. read.1 ≤ 20) }
{
    let moves = word(text, 1).parse::<u8>().ok()?.clamp(1, 20);
    Some((read_position(word(text, 0))?, moves))
}

/// Adds a line of moves with a comma between them: of each where it begins and ends, and what it takes.
pub fn add_line<B: Board>(line: &[Move<B>], found: &mut String) -> Option<()> {
    for (place, step) in line.iter().enumerate() {
        let (comma, from, to) = (
            if place > 0 { ", " } else { "" },
            step.from.number(),
            step.to.number(),
        );
        write!(found, "{comma}{from} {to}").ok()?;
        let (mut rest, mut before) = (step.taken, " taking ");
        for _ in 0..step.taken.count() {
            let (square, others) = rest.split()?;
            let number = square.number();
            write!(found, "{before}{number}").ok()?;
            (rest, before) = (others, " ");
        }
    }
    found.push('\n').ok()
}
