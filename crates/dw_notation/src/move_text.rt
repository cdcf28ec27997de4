//! The texts of moves.
ghost use Rattle.std.specs.Prelude.{◌≡◌, ◌≤◌, ◌<◌, ◌+◌, ◌++◌, [], ◌∷◌, length, decimal, HoldsAt, IfOk, IfSome};
ghost use Rattle.arrayvec.specs.ArrayString.{array_string_len};
ghost use Rattle.dw_moves.specs.Moves.{Legal};
ghost use Rattle.dw_notation.specs.Text.{IsMoveText, squares_text, text_among, shares_ends as are_shared};
ghost use Rattle.dw_notation.specs.inner.LineWords.{HasStep};

use arrayvec::ArrayString;
use dw_board::{Board, Position, Square};
use dw_moves::listed::listed;
use dw_moves::{LONGEST_PATH, Listed, Move, shares_ends};
use std::alloc::{AllocError, Global};

/// The most bytes of a move's text, 62: two digits for each square of a path, and a sign between each two of them.
pub const MAX_MOVE_TEXT: usize = 3 * LONGEST_PATH - 1;

/// Enough bytes for any move's text, with one byte before and one after it.
pub const MOVE_ROOM: usize = MAX_MOVE_TEXT + 2;

/// Returns the text of the move at a place, which must be in the list. Places count from 0, and the list has all legal
/// moves of a position.
///
/// A quiet move is written `32-28`. A capture is written `32x23`, unless another legal move has the same start and end:
/// then each of these is written with all squares of its path, as `47x36x27x18x9x20`.
pub fn move_text<B: Board>(list: &[Listed<B>], place: usize) -> ArrayString<MOVE_ROOM>
    requires { place < length list.now }
    ensures text { HoldsAt (λ item. result.bytes ≡ text_among list.now item) list.now place }
    ensures short { length result.bytes ≤ 62 }
{
    let item = &list[place];
    let ends = [item.step.from, item.step.to];
    if item.step.taken.count() == 0 {
        squares_text(&ends, '-')
    } else if is_shared(list, &item.step) {
        squares_text(item.path.as_slice(), 'x')
    } else {
        squares_text(&ends, 'x')
    }
}

/// Returns the text of a move, which must be legal, or an error if out of memory. Only a capture that shares its ends
/// with another one allocates.
pub fn text_in<B: Board>(
    alloc: Global,
    position: &Position<B>,
    mv: &Move<B>,
) -> Result<ArrayString<MOVE_ROOM>, AllocError>
    requires { Legal B.geometry position.now mv.now }
    ensures text { IfOk result (λ text. IsMoveText B.geometry position.now mv.now text.bytes) }
    ensures short { IfOk result (λ text. length text.bytes ≤ 62) }
{
    match mark_of(position, mv) {
        Some(mark) => Ok(squares_text(&[mv.from, mv.to], mark)),
        None => listed_text(alloc, position, mv),
    }
}

/// Returns the mark between start and end of a move, which must be legal, or `None` if its text has all squares of its
/// path, because another capture shares its ends.
#[inline(always)]
pub(crate) fn mark_of<B: Board>(position: &Position<B>, mv: &Move<B>) -> Option<char>
    requires { Legal B.geometry position.now mv.now }
    ensures text { IfSome result (λ mark.
        IsMoveText B.geometry position.now mv.now (squares_text mark (mv.now.from ∷ mv.now.to ∷ []))) }
    ensures ascii { IfSome result (λ mark. mark < 128) }
{
    crate::laws::ends_tell();
    match mv.taken.count() {
        0 => Some('-'),
        1 => Some('x'),
        _ if shares_ends(position, mv) => None,
        _ => Some('x'),
    }
}

/// Returns the text of a legal move, as it is written among all legal moves.
pub(crate) fn listed_text<B: Board>(
    alloc: Global,
    position: &Position<B>,
    mv: &Move<B>,
) -> Result<ArrayString<MOVE_ROOM>, AllocError>
    requires { Legal B.geometry position.now mv.now }
    ensures text { IfOk result (λ text. IsMoveText B.geometry position.now mv.now text.bytes) }
    ensures short { IfOk result (λ text. length text.bytes ≤ 62) }
{
    let list = listed(alloc, position)?;
    let place = place_of(list.as_slice(), mv);
    Ok(move_text(list.as_slice(), place))
}

/// Returns the place of a move in a list, which must have it.
fn place_of<B: Board>(list: &[Listed<B>], mv: &Move<B>) -> usize
    requires { HasStep list.now mv.now }
    ensures within { result < length list.now }
    ensures there { HoldsAt (λ l. l.step ≡ mv.now) list.now result }
{
    let mut place = 0;
    'places: loop {
        let item = &list[place];
        if item.step == *mv {
            return place;
        }
        place += 1;
    }
}

/// Returns whether more than one of these moves has this one's start and end.
fn is_shared<B: Board>(list: &[Listed<B>], mv: &Move<B>) -> bool
    ensures { result ≡ are_shared list.now mv.now }
{
    let mut count: usize = 0;
    'list: for other in list {
        if other.step.from == mv.from && other.step.to == mv.to {
            count += 1;
        }
    }
    count > 1
}

/// Returns the numbers of at most 21 squares, with a mark between them.
fn squares_text<B: Board>(squares: &[Square<B>], mark: char) -> ArrayString<MOVE_ROOM>
    requires few { length squares.now ≤ 21 }
    requires ascii { mark < 128 }
    ensures text { result.bytes ≡ squares_text mark squares.now }
    ensures short { length result.bytes ≤ 62 }
{
    let mut text = ArrayString::new();
    let Some((first, rest)) = squares.split_first() else {
        return text;
    };
    push_square(&mut text, *first);
    'rest: for square in rest {
        text.push(mark);
        push_square(&mut text, *square);
    }
    text
}

/// Appends the number of a square, of at most two digits.
#[inline(always)]
pub(crate) fn push_square<B: Board, const CAP: usize>(
    text: &mut ArrayString<CAP>,
    square: Square<B>,
)
    requires room { array_string_len text.old + 2 ≤ CAP }
    ensures bytes { text.new.bytes ≡ text.old.bytes ++ decimal square }
    ensures few { array_string_len text.new ≤ array_string_len text.old + 2 }
{
    push_number(text, square.number());
}

/// Appends a number of at most two digits.
#[inline(always)]
pub(crate) fn push_number<const CAP: usize>(text: &mut ArrayString<CAP>, number: u8)
    requires room { array_string_len text.old + 2 ≤ CAP }
    requires two { number < 100 }
    ensures bytes { text.new.bytes ≡ text.old.bytes ++ decimal number }
    ensures few { array_string_len text.new ≤ array_string_len text.old + 2 }
{
    if number >= 10 {
        text.push(char::from(b'0' + number / 10));
    }
    text.push(char::from(b'0' + number % 10));
}
