//! Lines of play, counted.
ghost use Rattle.std.specs.Prelude.{length};

use dw_board::{Board, Position};
use dw_moves::play::play;
use dw_moves::{Move, legal_into};
use std::alloc::AllocError;

/// Returns the number of lines of as many moves as there are lists, one list for each ply.
pub(crate) fn perft<B: Board>(
    position: &Position<B>,
    lists: &mut [Vec<Move<B>>],
) -> Result<u64, AllocError> {
    let Some((moves, rest)) = lists.split_first_mut() else {
        return Ok(1);
    };
    legal_into(position, moves)?;
    if rest.is_empty() {
        return Ok(moves.len() as u64);
    }
    let mut count = 0_u64;
    'moves: for mv in moves.as_slice() {
        count = count.saturating_add(perft(&play(position, mv), rest)?);
    }
    Ok(count)
}

/// Returns the number of moves made on all those lines: each is played, the last ones too.
pub(crate) fn moves_made<B: Board>(
    position: &Position<B>,
    lists: &mut [Vec<Move<B>>],
) -> Result<u64, AllocError> {
    let Some((moves, rest)) = lists.split_first_mut() else {
        return Ok(0);
    };
    legal_into(position, moves)?;
    let mut count = moves.len() as u64;
    'moves: for mv in moves.as_slice() {
        count = count.saturating_add(moves_made(&play(position, mv), rest)?);
    }
    Ok(count)
}
