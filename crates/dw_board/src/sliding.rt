//! Slides on padded words: the squares of a set go on together over free squares, in four doublings.
ghost use Rattle.std.specs.Prelude.{◌≡◌, ◌<◌, ◌≤◌, ℕ};
ghost use Rattle.dw_board.specs.inner.Sliding as inner;

use crate::board::{Board, Dir};

/// Returns the word of the squares that those of `word` reach by 0 to 15 steps over free squares only. No board has
/// longer diagonals.
#[inline]
pub(crate) fn slid_word<B: Board>(word: u64, free: u64, direction: Dir) -> u64
    ensures { result ≡ inner.slid_word B.geometry direction word free }
{
    let down = direction.is_down();
    let by = stride::<B>(direction);
    let two_clear = clearer(down, by, free);
    let four_clear = clearer(down, 2 * by, two_clear);
    let eight_clear = clearer(down, 4 * by, four_clear);
    let seven = near_word::<B>(word, free, direction);
    further(down, 8 * by, seven, eight_clear)
}

/// Returns the word of the squares that those of `word` reach by 0 to 7 steps over free squares only, in three
/// doublings.
#[inline]
pub(crate) fn near_word<B: Board>(word: u64, free: u64, direction: Dir) -> u64
    ensures { result ≡ inner.near_word B.geometry direction word free }
{
    let down = direction.is_down();
    let by = stride::<B>(direction);
    let one = further(down, by, word, free);
    let two_clear = clearer(down, by, free);
    let three = further(down, 2 * by, one, two_clear);
    let four_clear = clearer(down, 2 * by, two_clear);
    further(down, 4 * by, three, four_clear)
}

/// Returns the number of bits by which a step moves the bit of a square, at most 6.
#[inline]
fn stride<B: Board>(direction: Dir) -> u8
    ensures value { result ≡ inner.stride B.geometry direction }
    ensures few { result ≤ 6 }
{
    match direction {
        Dir::UpLeft | Dir::DownRight => B::PER_ROW + 1,
        Dir::UpRight | Dir::DownLeft => B::PER_ROW,
    }
}

/// Returns the squares reached and those one shift by `by` bits further, if all squares on the way are free, as `clear`
/// tells.
#[inline]
fn further(down: bool, by: u8, reached: u64, clear: u64) -> u64
    requires { by < 64 }
    ensures { result ≡ inner.further down by reached clear }
{
    reached | (clear & moved_word(down, by, reached))
}

/// Returns the squares that end a free run of twice the length, if those of `clear` end one as long as `by` bits.
#[inline]
fn clearer(down: bool, by: u8, clear: u64) -> u64
    requires { by < 64 }
    ensures { result ≡ inner.clearer down by clear }
{
    clear & moved_word(down, by, clear)
}

/// Returns the word shifted by less than 64 bits, to the left if `down` and else to the right.
#[inline]
fn moved_word(down: bool, by: u8, word: u64) -> u64
    requires { by < 64 }
    ensures { result ≡ inner.moved_word down by word }
{
    if down { word << by } else { word >> by }
}
