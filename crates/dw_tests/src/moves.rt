//! Moves by their texts, and lists of moves that are filled again.

use crate::rows::column;
use crate::texts::{add_line, read_position};
use dw_board::Board;
use dw_moves::{legal_into, listed_into};
use dw_notation::MoveFault;
use dw_notation::read_move::read_move;
use std::alloc::Global;
use std::fmt::Write;
use std::slice;

/// Adds the move that a text in quotes names, or why there is none. If memory is refused, the text is read again, but
/// only if a third column says that reading may take memory at all.
pub fn read<B: Board>(alloc: Global, query: &str, found: &mut String) -> Option<()> {
    let position = read_position::<B>(column(query, 0))?;
    let text = column(query, 1).strip_prefix('"')?.strip_suffix('"')?;
    let mut answer = read_move(alloc, &position, text.as_bytes());
    if answer == Err(MoveFault::Memory) && column(query, 2) == "takes memory" {
        answer = read_move(alloc, &position, text.as_bytes());
    }
    match answer {
        Ok(step) => add_line(slice::from_ref(&step), found),
        Err(fault) => write!(found, "{fault}").ok(),
    }
}

/// Fills lists with the moves of some positions in turn, and adds how many each has, and whether all but the first took
/// no more memory.
pub fn again<B: Board>(alloc: Global, query: &str, found: &mut String) -> Option<()> {
    let (mut moves, mut list) = (Vec::new(alloc), Vec::new(alloc));
    for text in query.split_whitespace() {
        let position = read_position::<B>(text)?;
        let room = (moves.capacity(), list.capacity());
        legal_into(&position, &mut moves).ok()?;
        listed_into(&position, &mut list).ok()?;
        let (count, listed) = (moves.len(), list.len());
        let is_same = (moves.capacity(), list.capacity()) == room;
        write!(found, "{count} {listed} same memory {is_same}; ").ok()?;
    }
    found.push('.').ok()
}
