//! A small board for tests: six rows of three squares, six pieces a side.
ghost use Rattle.std.specs.Prelude.{refl};
ghost use Rattle.dw_tests.specs.Six.{six, six_is_board, six_shifts, six_word};

use dw_board::Board;

/// Six rows of three squares.
#[derive(Clone, Copy)]
pub struct Six;

impl Board for Six {
    const ROWS: u8 = 6;

    const PER_ROW: u8 = 3;

    const SIDE: u8 = 6;

    const WORD: u64 = 0xfdfbf;

    ghost ROWS = { 6 };

    ghost PER_ROW = { 3 };

    ghost SIDE = { 6 };

    ghost WORD = { 0xfdfbf };

    ghost geometry = { six };

    ghost rows_is = { refl };

    ghost per_row_is = { refl };

    ghost side_is = { refl };

    ghost numbers = { six_is_board };

    ghost shifts = { six_shifts };

    ghost word_is = { six_word };
}
