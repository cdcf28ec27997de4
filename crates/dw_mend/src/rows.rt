//! The lines of neighbours, in words or as rows of JSON.
ghost use Rattle.std.specs.Prelude.{◌≡◌, IfOk};
ghost use Rattle.std.specs.String.{string_bytes};
ghost use Rattle.dw_moves.specs.Moves.{Legal};
ghost use Rattle.dw_mend.specs.MendText.{IsLineOf, IsSoundRow, count_row};
ghost use Rattle.dw_mend.specs.MendText as of;
ghost use Rattle.dw_mend.specs.Telling.{told_by};

use crate::mend::Mended;
use crate::neighbours::Neighbour;
use crate::text::{change_text, count_line, sound_line};
use dw_board::{Board, fen_text};
use dw_json::{begin_row, end_row, put_number, put_text};
use dw_moves::Move;
use dw_notation::text_in;
use std::alloc::{AllocError, Global};

/// The form of the lines of neighbours.
#[derive(Clone, Copy, Debug, PartialEq, Eq)]
pub enum Wording {
    /// In words.
    Words,
    /// As rows of JSON.
    Row,
}

/// Makes the line of a sound neighbour, with its key.
pub(crate) fn line_of<B: Board>(
    alloc: Global,
    wording: Wording,
    neighbour: &Neighbour<B>,
    moves: u8,
    key: &Move<B>,
) -> Result<String, AllocError>
    requires { Legal B.geometry neighbour.now.position key.now }
    ensures { IfOk result (λ line. IsLineOf wording B.geometry moves (told_by neighbour.now) key.now
        (string_bytes line)) }
{
    match wording {
        Wording::Words => sound_line(alloc, neighbour, moves, key),
        Wording::Row => sound_row(alloc, neighbour, moves, key),
    }
}

/// Makes the last line.
pub(crate) fn last_line(
    alloc: Global,
    wording: Wording,
    mended: &Mended,
) -> Result<String, AllocError>
    ensures { IfOk result (λ line. string_bytes line
        ≡ of.last_line wording mended.now.all mended.now.sound mended.now.undecided) }
{
    match wording {
        Wording::Words => count_line(alloc, mended),
        Wording::Row => count_row(alloc, mended),
    }
}

/// Makes the row of a sound neighbour.
fn sound_row<B: Board>(
    alloc: Global,
    neighbour: &Neighbour<B>,
    moves: u8,
    key: &Move<B>,
) -> Result<String, AllocError>
    requires { Legal B.geometry neighbour.now.position key.now }
    ensures { IfOk result (λ line. IsSoundRow B.geometry moves (told_by neighbour.now) key.now (string_bytes line)) }
{
    let change = change_text(alloc, neighbour.change)?;
    let key = text_in(alloc, &neighbour.position, key)?;
    let mut row = begin_row(alloc)?;
    put_text(&mut row, "change", change.as_str())?;
    put_text(&mut row, "fen", fen_text(&neighbour.position).as_str())?;
    put_number(&mut row, "n", moves.into())?;
    put_text(&mut row, "key", key.as_str())?;
    end_row(row)
}

/// Makes the last row.
fn count_row(alloc: Global, mended: &Mended) -> Result<String, AllocError>
    ensures { IfOk result (λ line. string_bytes line
        ≡ count_row mended.now.all mended.now.sound mended.now.undecided) }
{
    let mut row = begin_row(alloc)?;
    put_number(&mut row, "sound", mended.sound as u64)?;
    put_number(&mut row, "of", mended.all as u64)?;
    put_number(&mut row, "undecided", mended.undecided as u64)?;
    end_row(row)
}
