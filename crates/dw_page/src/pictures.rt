//! The pictures that drawings name, which stand once in a page: the empty board, the numbers of its squares, and the
//! pieces.
ghost use Rattle.std.specs.Prelude.{◌≡◌, ◌++◌, OnOk, codes, decimal};
ghost use Rattle.std.specs.List.{range_with_len, flat_map};
ghost use Rattle.dw_board.specs.Geometry.{OnBoard, squares};
ghost use Rattle.dw_page.specs.Pictures.{board, frame, label, label_at, numbers, outline, pictures};
ghost use Rattle.dw_page.specs.Pictures as of;

use crate::diagram::{place_of, rows_of, square_count};
use crate::escape::push_all;
use dw_board::{Board, Square};
use itoa::Buffer;
use std::alloc::{AllocError, Global};

/// The pieces: men are discs, kings have a second ring and a crown.
const PIECES: &str = "\
<g id=\"wm\"><circle class=\"light\" cx=\".5\" cy=\".5\" r=\".4\"/></g>
<g id=\"bm\"><circle class=\"black\" cx=\".5\" cy=\".5\" r=\".4\"/></g>
<g id=\"wk\"><circle class=\"light\" cx=\".5\" cy=\".5\" r=\".4\"/>
<circle class=\"ring-black\" cx=\".5\" cy=\".5\" r=\".33\"/>
<path class=\"black-on\" d=\"M.32 .67 .27 .38 .4 .5 .5 .3 .6 .5 .73 .38 .68 .67Z\"/></g>
<g id=\"bk\"><circle class=\"black\" cx=\".5\" cy=\".5\" r=\".4\"/>
<circle class=\"ring-light\" cx=\".5\" cy=\".5\" r=\".33\"/>
<path class=\"light-on\" d=\"M.32 .67 .27 .38 .4 .5 .5 .3 .6 .5 .73 .38 .68 .67Z\"/></g>
";

/// Appends the pictures, out of sight.
#[tactic(auto, unfolding(crate::specs::Pictures::pictures))]
pub(crate) fn push_pictures<B: Board>(alloc: Global, page: &mut Vec<u8>) -> Result<(), AllocError>
    ensures { OnOk result (page.new.items ≡ page.old.items ++ pictures B.geometry) }
{
    push_all(
        alloc,
        page,
        &["<svg class=\"pictures\" aria-hidden=\"true\"><defs>\n"],
    )?;
    push_board::<B>(alloc, page)?;
    push_numbers::<B>(alloc, page)?;
    push_all(alloc, page, &[pieces(), "</defs></svg>\n"])?;
    Ok(())
}

#[tactic(auto, unfolding(crate::specs::Pictures::pieces))]
fn pieces() -> &'static str
    ensures { result.now ≡ of.pieces }
{
    PIECES
}

/// Appends the empty board: the dark squares, and a frame around them.
#[tactic(auto, unfolding(crate::specs::Pictures::board))]
fn push_board<B: Board>(alloc: Global, page: &mut Vec<u8>) -> Result<(), AllocError>
    ensures { OnOk result (page.new.items ≡ page.old.items ++ board B.geometry) }
{
    push_all(alloc, page, &["<g id=\"board\"><path class=\"dark\" d=\""])?;
    push_outlines::<B>(alloc, page)?;
    push_frame(alloc, page, rows_of::<B>())?;
    Ok(())
}

/// Appends the frame of a board, and the end of its picture.
#[tactic(auto, unfolding(crate::specs::Pictures::frame))]
fn push_frame(alloc: Global, page: &mut Vec<u8>, rows: u8) -> Result<(), AllocError>
    ensures { OnOk result (page.new.items ≡ page.old.items ++ frame rows) }
{
    let mut digits = Buffer::new();
    let rows = digits.format(rows);
    let texts = [
        "\"/><rect class=\"frame\" width=\"",
        rows,
        "\" height=\"",
        rows,
        "\"/></g>\n",
    ];
    push_all(alloc, page, &texts)
}

/// Appends the outlines of all dark squares.
fn push_outlines<B: Board>(alloc: Global, page: &mut Vec<u8>) -> Result<(), AllocError>
    ensures { OnOk result (page.new.items ≡ page.old.items
        ++ flat_map (outline B.geometry) (range_with_len 1 (squares B.geometry))) }
{
    'squares: for number in 0..square_count::<B>() {
        push_outline::<B>(alloc, page, number + 1)?;
    }
    Ok(())
}

/// Appends the outline of the square of a number.
fn push_outline<B: Board>(alloc: Global, page: &mut Vec<u8>, number: u8) -> Result<(), AllocError>
    requires { OnBoard B.geometry number }
    ensures { OnOk result (page.new.items ≡ page.old.items ++ outline B.geometry number) }
{
    match Square::<B>::new(number) {
        Some(square) => {
            let (column, row) = place_of(square);
            push_at(alloc, page, "M", column, row, "h1v1h-1z")
        }
        None => Ok(()),
    }
}

/// Appends a column and a row, between two texts.
fn push_at(
    alloc: Global,
    page: &mut Vec<u8>,
    before: &str,
    column: u8,
    row: u8,
    behind: &str,
) -> Result<(), AllocError>
    ensures { OnOk result (page.new.items ≡ page.old.items
        ++ (before.now ++ (decimal column ++ (codes " " ++ (decimal row ++ behind.now))))) }
{
    let mut columns = Buffer::new();
    let mut rows = Buffer::new();
    let texts = [
        before,
        columns.format(column),
        " ",
        rows.format(row),
        behind,
    ];
    push_all(alloc, page, &texts)
}

/// Appends the numbers of the squares, each in the upper left corner of its own.
#[tactic(auto, unfolding(crate::specs::Pictures::numbers))]
fn push_numbers<B: Board>(alloc: Global, page: &mut Vec<u8>) -> Result<(), AllocError>
    ensures { OnOk result (page.new.items ≡ page.old.items ++ numbers B.geometry) }
{
    push_all(alloc, page, &["<g id=\"numbers\" class=\"numbers\">\n"])?;
    push_labels::<B>(alloc, page)?;
    push_all(alloc, page, &["</g>\n"])?;
    Ok(())
}

/// Appends the labels of all squares.
fn push_labels<B: Board>(alloc: Global, page: &mut Vec<u8>) -> Result<(), AllocError>
    ensures { OnOk result (page.new.items ≡ page.old.items
        ++ flat_map (label B.geometry) (range_with_len 1 (squares B.geometry))) }
{
    'squares: for number in 0..square_count::<B>() {
        push_label::<B>(alloc, page, number + 1)?;
    }
    Ok(())
}

/// Appends the label of the square of a number.
fn push_label<B: Board>(alloc: Global, page: &mut Vec<u8>, number: u8) -> Result<(), AllocError>
    requires { OnBoard B.geometry number }
    ensures { OnOk result (page.new.items ≡ page.old.items ++ label B.geometry number) }
{
    match Square::<B>::new(number) {
        Some(square) => {
            let (column, row) = place_of(square);
            push_label_at(alloc, page, column, row, number)
        }
        None => Ok(()),
    }
}

/// Appends the label with a number in the corner at a column and a row.
fn push_label_at(
    alloc: Global,
    page: &mut Vec<u8>,
    column: u8,
    row: u8,
    number: u8,
) -> Result<(), AllocError>
    ensures { OnOk result (page.new.items ≡ page.old.items ++ label_at column row number) }
{
    let mut columns = Buffer::new();
    let mut rows = Buffer::new();
    let mut digits = Buffer::new();
    let texts = [
        "<text transform=\"translate(",
        columns.format(column),
        " ",
        rows.format(row),
        ")\" x=\".03\" y=\".19\">",
        digits.format(number),
        "</text>\n",
    ];
    push_all(alloc, page, &texts)
}
