//! The texts of neighbours.
ghost use Rattle.std.specs.Prelude.{◌≡◌, IfOk, ◌++◌, codes};
ghost use Rattle.std.specs.String.{string_bytes};
ghost use Rattle.dw_board.specs.FenText.{side_text};
ghost use Rattle.dw_moves.specs.Moves.{Legal};
ghost use Rattle.dw_mend.specs.MendText.{change_text, count_line, kind_mark, kind_word, IsSoundLine};
ghost use Rattle.dw_mend.specs.Telling.{told, told_by};

use crate::change::Change;
use crate::mend::Mended;
use crate::neighbours::Neighbour;
use dw_board::{Board, Kind, Side, fen_text};
use dw_moves::Move;
use dw_notation::text_in;
use itoa::Buffer;
use std::alloc::{AllocError, Global};

/// Makes the line of a sound neighbour, with its key, which must be a legal move there.
pub fn sound_line<B: Board>(
    alloc: Global,
    neighbour: &Neighbour<B>,
    moves: u8,
    key: &Move<B>,
) -> Result<String, AllocError>
    requires { Legal B.geometry neighbour.now.position key.now }
    ensures { IfOk result (λ line. IsSoundLine B.geometry moves (told_by neighbour.now) key.now (string_bytes line)) }
{
    let change = change_text(alloc, neighbour.change)?;
    let fen = fen_text(&neighbour.position);
    let key = text_in(alloc, &neighbour.position, key)?;
    [
        change.as_str(),
        ": ",
        fen.as_str(),
        ", sound in ",
        Buffer::new().format(moves),
        ": ",
        key.as_str(),
        "\n",
    ]
    .concat(alloc)
}

/// Makes the text of a change.
pub fn change_text<B: Board>(alloc: Global, change: Change<B>) -> Result<String, AllocError>
    ensures { IfOk result (λ text. string_bytes text ≡ change_text (told change)) }
{
    let mut digits = Buffer::new();
    match change {
        Change::Without { square } => ["without ", digits.format(square.number())].concat(alloc),
        Change::With { square, piece } => [
            "with ",
            side_letter(piece.side),
            kind_mark(piece.kind),
            digits.format(square.number()),
        ]
        .concat(alloc),
        Change::Set { from, to } => [
            digits.format(from.number()),
            " to ",
            Buffer::new().format(to.number()),
        ]
        .concat(alloc),
        Change::Made { square, kind } => {
            [digits.format(square.number()), " as ", kind_word(kind)].concat(alloc)
        }
    }
}

/// Makes the last line: how many neighbours are sound, of how many, and how many stayed undecided, if any.
pub fn count_line(alloc: Global, mended: &Mended) -> Result<String, AllocError>
    ensures { IfOk result (λ line. string_bytes line
        ≡ count_line mended.now.all mended.now.sound mended.now.undecided) }
{
    let mut sound = Buffer::new();
    let mut all = Buffer::new();
    if mended.undecided == 0 {
        return [
            "sound ",
            sound.format(mended.sound),
            " of ",
            all.format(mended.all),
            "\n",
        ]
        .concat(alloc);
    }
    [
        "sound ",
        sound.format(mended.sound),
        " of ",
        all.format(mended.all),
        ", ",
        Buffer::new().format(mended.undecided),
        " undecided\n",
    ]
    .concat(alloc)
}

/// Returns the letter of a side.
fn side_letter(side: Side) -> &'static str
    ensures { result.now ≡ side_text side }
{
    match side {
        Side::White => "W",
        Side::Black => "B",
    }
}

/// Returns the mark of a king, and none for a man.
fn kind_mark(kind: Kind) -> &'static str
    ensures { result.now ≡ kind_mark kind }
{
    match kind {
        Kind::Man => "",
        Kind::King => "K",
    }
}

/// Returns the word for a kind of piece.
fn kind_word(kind: Kind) -> &'static str
    ensures { result.now ≡ kind_word kind }
{
    match kind {
        Kind::Man => "man",
        Kind::King => "king",
    }
}
