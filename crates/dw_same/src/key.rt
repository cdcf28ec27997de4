//! The key of a position, which it shares with its turned one alone.
ghost use Rattle.std.specs.Prelude.{◌≡◌, ◌≤◌};
ghost use Rattle.dw_board.specs.Placement as of;
ghost use Rattle.dw_same.specs.Turning as turning;
ghost use Rattle.dw_same.specs.inner.Keys.{key, with_white_to_move};

use dw_board::{Board, Kind, Piece, Position, Side, Square};

/// Returns the numbers of the cells of a position, or of its turned one: of that with White to move.
pub(crate) fn key_of<B: Board>(position: &Position<B>) -> [u8; 50]
    ensures { result ≡ key B.geometry position.now }
{
    position.keeps_its_rules();
    let mut codes = [0; 50];
    for i in 0..50 {
        codes[i] = cell_code(cell_of(position, i as u8 + 1));
    }
    codes
}

/// Returns the piece on the square of a number in a position, or in its turned one: in that with White to move.
fn cell_of<B: Board>(position: &Position<B>, number: u8) -> Option<Piece>
    requires low { 1 ≤ number }
    requires high { number ≤ 50 }
    ensures { result ≡ of.at (with_white_to_move B.geometry position.now position.now.turn) number }
{
    match position.turn() {
        Side::White => piece_at(position, number),
        Side::Black => turned_at(position, number),
    }
}

/// Returns the piece on the square of a number after the turn, or `None` if it is empty or past the board.
fn turned_at<B: Board>(position: &Position<B>, number: u8) -> Option<Piece>
    requires low { 1 ≤ number }
    requires high { number ≤ 50 }
    ensures { result ≡ turning.turned_at B.geometry position.now number }
{
    let squares = B::ROWS * B::PER_ROW;
    if number <= squares {
        recoloured(piece_at(position, squares + 1 - number))
    } else {
        None
    }
}

/// Returns the piece on the square of a number, or `None` if it is empty or past the board.
fn piece_at<B: Board>(position: &Position<B>, number: u8) -> Option<Piece>
    requires low { 1 ≤ number }
    requires high { number ≤ 50 }
    ensures { result ≡ of.at position.now number }
{
    position.keeps_its_rules();
    position.at(Square::new(number)?)
}

/// Returns the piece of the other colour.
fn recoloured(cell: Option<Piece>) -> Option<Piece>
    ensures { result ≡ turning.recoloured cell }
{
    let piece = cell?;
    Some(Piece {
        side: piece.side.other(),
        kind: piece.kind,
    })
}

/// Returns the number of a cell, from 0 to 4.
fn cell_code(cell: Option<Piece>) -> u8
    ensures { result ≡ of.cell_code cell }
{
    match cell {
        None => 0,
        Some(
            Piece {
                side: Side::White,
                kind: Kind::Man,
            },
        ) => 1,
        Some(
            Piece {
                side: Side::White,
                kind: Kind::King,
            },
        ) => 2,
        Some(
            Piece {
                side: Side::Black,
                kind: Kind::Man,
            },
        ) => 3,
        Some(
            Piece {
                side: Side::Black,
                kind: Kind::King,
            },
        ) => 4,
    }
}
