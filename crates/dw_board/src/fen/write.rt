//! Writing FEN texts.
ghost use Rattle.std.specs.Prelude.{◌≡◌, ◌≤◌, ◌<◌, ◌+◌, ◌++◌, ◌∷◌, [], decimal, codes, if◌then◌else◌};
ghost use Rattle.arrayvec.specs.ArrayString.{array_string_len};
ghost use Rattle.dw_board.specs.Placement.{IsPosition};
ghost use Rattle.dw_board.specs.FenText.{written, items_text, side_text};

use crate::board::Board;
use crate::piece::{Kind, Side};
use crate::position::Position;
use crate::square::Square;
use arrayvec::ArrayString;
use std::fmt;

/// Enough bytes for the FEN text of any position.
pub const FEN_ROOM: usize = 192;

/// Returns the FEN text of a position, as `W:WK7,31:B`: the turn, White's pieces and Black's, the squares of each
/// ascending, and a `K` before a king.
#[tactic(auto, unfolding(crate::specs::FenText::written))]
pub fn fen_text<B: Board>(position: &Position<B>) -> ArrayString<FEN_ROOM>
    ensures { result.bytes ≡ written B.geometry position.now }
{
    let mut text = ArrayString::new();
    let side = position.turn();
    text.push(letter(side));
    text.push_str(":W");
    push_items(&mut text, position, Side::White);
    text.push_str(":B");
    push_items(&mut text, position, Side::Black);
    text
}

fn letter(side: Side) -> char
    ensures ascii { result < 128 }
    ensures value { result ∷ [] ≡ side_text side }
{
    match side {
        Side::White => 'W',
        Side::Black => 'B',
    }
}

/// Appends a side's pieces, joined by commas: at most four bytes each.
fn push_items<B: Board>(text: &mut ArrayString<FEN_ROOM>, position: &Position<B>, side: Side)
    requires position { IsPosition B.geometry position.now.cells }
    requires room { array_string_len text.old + 80 ≤ 192 }
    ensures bytes { text.new.bytes ≡ text.old.bytes ++ items_text B.geometry position.now side }
    ensures few { array_string_len text.new ≤ array_string_len text.old + 80 }
{
    let kings = position.squares(side, Kind::King);
    let mut left = position.all_of(side);
    let mut is_first = true;
    'squares: while let Some((square, rest)) = left.split() {
        push_item(text, square, kings.has(square), is_first);
        is_first = false;
        left = rest;
    }
}

/// Appends a piece on its square, and a comma before it unless it is the first.
fn push_item<B: Board>(
    text: &mut ArrayString<FEN_ROOM>,
    square: Square<B>,
    is_king: bool,
    is_first: bool,
)
    requires room { array_string_len text.old + 4 ≤ 192 }
    ensures bytes { text.new.bytes ≡ text.old.bytes ++ (if is_first then [] else codes ",")
        ++ (if is_king then codes "K" else []) ++ decimal square }
    ensures few { array_string_len text.new ≤ array_string_len text.old + 4 }
{
    if !is_first {
        text.push(',');
    }
    if is_king {
        text.push('K');
    }
    push_number(text, square.number());
}

/// Appends a number, which must have at most two digits.
fn push_number(text: &mut ArrayString<FEN_ROOM>, number: u8)
    requires small { number < 100 }
    requires room { array_string_len text.old + 2 ≤ 192 }
    ensures bytes { text.new.bytes ≡ text.old.bytes ++ decimal number }
    ensures few { array_string_len text.new ≤ array_string_len text.old + 2 }
{
    if 10 <= number {
        push_digit(text, number / 10);
    }
    push_digit(text, number % 10);
}

fn push_digit(text: &mut ArrayString<FEN_ROOM>, digit: u8)
    requires small { digit < 10 }
    requires room { array_string_len text.old < 192 }
    ensures { text.new.bytes ≡ text.old.bytes ++ (48 + digit) ∷ [] }
{
    text.push((b'0' + digit) as char);
}

/// The FEN text.
impl<B: Board> fmt::Debug for Position<B> {
    fn fmt<W: fmt::Write>(&self, f: &mut fmt::Formatter<W>) -> fmt::Result {
        f.write_str(fen_text(self).as_str())
    }
}
