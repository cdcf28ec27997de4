//! The numbers of squares in texts.
ghost use Rattle.std.specs.Prelude.{◌≡◌, ◌≤◌, false, length, take, drop};
ghost use Rattle.dw_board.specs.FenTokens.{AreDigits, begins_with_digit, number_named};

use crate::board::Board;
use crate::square::Square;

/// Returns the number of digits that the text begins with.
pub fn digits_at(text: &[u8]) -> usize
    ensures within { result ≤ length text.now }
    ensures digits { AreDigits (take result text.now) }
    ensures all { begins_with_digit (drop result text.now) ≡ false }
{
    let mut count = 0;
    'digits: while count < text.len() && text[count].is_ascii_digit() {
        count += 1;
    }
    count
}

/// Returns the square numbered by one or two digits, or `None` if the bytes are others or the board has no such square.
pub fn square_named<B: Board>(digits: &[u8]) -> Option<Square<B>>
    ensures { result ≡ number_named B.geometry digits.now }
{
    match digits {
        [ones] if ones.is_ascii_digit() => Square::new(*ones - b'0'),
        [tens, ones] if tens.is_ascii_digit() && ones.is_ascii_digit() => {
            Square::new(10 * (*tens - b'0') + (*ones - b'0'))
        }
        _ => None,
    }
}
