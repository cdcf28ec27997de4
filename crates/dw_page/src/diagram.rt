//! The drawing of a position.
ghost use Rattle.std.specs.Prelude.{◌≡◌, ◌≤◌, ◌++◌, OnOk, IfOk};
ghost use Rattle.std.specs.String.{string_bytes};
ghost use Rattle.dw_board.specs.Geometry.{row, column, squares, OnBoard};
ghost use Rattle.dw_page.specs.Drawing.{drawing, board_front, board_back, marks, mark, square_mark, picture, numbering};

use dw_board::{Board, Kind, Piece, Position, Side, Square, fen_text};
use itoa::Buffer;
use std::alloc::{AllocError, Global};

/// Appends the drawing of a position, as an SVG element: the board, the numbers of its squares if wanted, and a mark
/// for each piece, in its column and row, both counted from 0 at the top left. The page must have the pictures that it
/// names. Its alternative text is the position's FEN text.
#[tactic(auto, unfolding(crate::specs::Drawing::drawing))]
pub fn push_diagram<B: Board>(
    alloc: Global,
    page: &mut Vec<u8>,
    position: &Position<B>,
    numbers: bool,
) -> Result<(), AllocError>
    ensures { OnOk result (page.new.items ≡ page.old.items ++ drawing B.geometry position.now numbers) }
{
    let front = board_front(alloc, rows_of::<B>())?;
    page.extend_from_slice(front.as_str().as_bytes())?;
    page.extend_from_slice(fen_text(position).as_str().as_bytes())?;
    let back = board_back(alloc, numbers)?;
    page.extend_from_slice(back.as_str().as_bytes())?;
    push_marks(alloc, page, position)?;
    page.extend_from_slice(b"</g></svg>")?;
    Ok(())
}

/// Returns the front of the empty board, up to its alternative text.
#[tactic(auto, unfolding(crate::specs::Drawing::board_front))]
fn board_front(alloc: Global, rows: u8) -> Result<String, AllocError>
    ensures { IfOk result (λ text. string_bytes text ≡ board_front rows) }
{
    let mut digits = Buffer::new();
    let rows = digits.format(rows);
    [
        "<svg viewBox=\"0 0 ",
        rows,
        " ",
        rows,
        "\" role=\"img\" aria-label=\"",
    ]
    .concat(alloc)
}

/// Returns the text between the alternative text and the first piece: the board, and its numbers if wanted.
#[tactic(auto, unfolding(crate::specs::Drawing::board_back))]
fn board_back(alloc: Global, numbers: bool) -> Result<String, AllocError>
    ensures { IfOk result (λ text. string_bytes text ≡ board_back numbers) }
{
    ["\"><use href=\"#board\"/>", numbering(numbers), "<g>"].concat(alloc)
}

/// Returns the number of rows.
pub(crate) fn rows_of<B: Board>() -> u8
    ensures { result ≡ B.geometry.rows }
{
    B::ROWS
}

/// Returns the element that shows the numbers of the squares, or an empty text if they are not wanted.
fn numbering(numbers: bool) -> &'static str
    ensures { result.now ≡ numbering numbers }
{
    if numbers {
        "<use href=\"#numbers\"/>"
    } else {
        ""
    }
}

/// Returns how many squares there are.
pub(crate) fn square_count<B: Board>() -> u8
    ensures value { result ≡ squares B.geometry }
    ensures small { result ≤ 50 }
{
    B::ROWS * B::PER_ROW
}

/// Appends the marks of all pieces.
fn push_marks<B: Board>(
    alloc: Global,
    page: &mut Vec<u8>,
    position: &Position<B>,
) -> Result<(), AllocError>
    ensures { OnOk result (page.new.items ≡ page.old.items ++ marks B.geometry position.now) }
{
    'squares: for number in 0..square_count::<B>() {
        push_numbered(alloc, page, position, number + 1)?;
    }
    Ok(())
}

/// Appends the mark of the square of a number, if a piece is there.
fn push_numbered<B: Board>(
    alloc: Global,
    page: &mut Vec<u8>,
    position: &Position<B>,
    number: u8,
) -> Result<(), AllocError>
    requires { OnBoard B.geometry number }
    ensures { OnOk result (page.new.items ≡ page.old.items ++ square_mark B.geometry position.now number) }
{
    match Square::new(number) {
        Some(square) => push_square(alloc, page, position, square),
        None => Ok(()),
    }
}

/// Appends the mark of a square, if a piece is there.
fn push_square<B: Board>(
    alloc: Global,
    page: &mut Vec<u8>,
    position: &Position<B>,
    square: Square<B>,
) -> Result<(), AllocError>
    ensures { OnOk result (page.new.items ≡ page.old.items ++ square_mark B.geometry position.now square) }
{
    if let Some(piece) = position.at(square) {
        let (column, row) = place_of(square);
        let mark = mark(alloc, piece, column, row)?;
        page.extend_from_slice(mark.as_str().as_bytes())?;
    }
    Ok(())
}

/// Returns the column and the row of a square.
pub(crate) fn place_of<B: Board>(square: Square<B>) -> (u8, u8)
    ensures column { result.0 ≡ column B.geometry square }
    ensures row { result.1 ≡ row B.geometry square }
{
    let index = square.number() - 1;
    let row = index / B::PER_ROW;
    (2 * (index % B::PER_ROW) + (1 - row % 2), row)
}

/// Returns the mark of a piece in a column and a row.
fn mark(alloc: Global, piece: Piece, column: u8, row: u8) -> Result<String, AllocError>
    ensures { IfOk result (λ text. string_bytes text ≡ mark piece column row) }
{
    let mut digits = Buffer::new();
    let mut more_digits = Buffer::new();
    [
        "<use href=\"#",
        picture(piece),
        "\" x=\"",
        digits.format(column),
        "\" y=\"",
        more_digits.format(row),
        "\"/>",
    ]
    .concat(alloc)
}

/// Returns the name of the picture of a piece.
fn picture(piece: Piece) -> &'static str
    ensures { result.now ≡ picture piece.side piece.kind }
{
    match (piece.side, piece.kind) {
        (Side::White, Kind::Man) => "wm",
        (Side::White, Kind::King) => "wk",
        (Side::Black, Kind::Man) => "bm",
        (Side::Black, Kind::King) => "bk",
    }
}
