//! Signs of one to three bytes, and rows of them.
ghost use Rattle.std.specs.Prelude.{◌≡◌, ◌≤◌, ◌<◌, ◌∷◌, [], length, take, drop};
ghost use Rattle.dw_games.specs.Signs.{IsRow, crosses, dashes, marks, width, written_width};
ghost use Rattle.dw_games.specs.inner.Classes.{width_of};

/// A kind of sign.
#[derive(Clone, Copy)]
pub(crate) enum Signs {
    /// A mark, such as `!` or `+`.
    Mark,
    /// A cross, as in captures.
    Cross,
    /// The signs of moves and results: digits, dashes, crosses and `/`.
    Written,
}

impl Signs {
    /// Returns how many bytes the sign of this kind at the front of a text has, or 0.
    pub(crate) fn width(self, text: &[u8]) -> usize
        ensures { result ≡ width_of self text.now }
    {
        match self {
            Signs::Mark => mark(text),
            Signs::Cross => cross(text),
            Signs::Written => written(text),
        }
    }
}

/// Returns how many bytes the mark at the front of a text has, or 0.
fn mark(text: &[u8]) -> usize
    ensures { result ≡ width marks text.now }
{
    match text {
        [b'!' | b'?' | b'+' | b'#' | b'=' | 0xB1, ..] => 1,
        [0xC2, 0xB1, ..] => 2,
        _ => 0,
    }
}

/// Returns how many bytes the dash at the front of a text has, or 0.
fn dash(text: &[u8]) -> usize
    ensures { result ≡ width dashes text.now }
{
    match text {
        [b'-' | 0x96, ..] => 1,
        [0xE2, 0x80, 0x91 | 0x93, ..] | [0xE2, 0x88, 0x92, ..] => 3,
        _ => 0,
    }
}

/// Returns how many bytes the cross at the front of a text has, or 0.
fn cross(text: &[u8]) -> usize
    ensures { result ≡ width crosses text.now }
{
    match text {
        [b'x' | b'X' | b':' | 0xD7, ..] => 1,
        [0xC3, 0x97, ..] => 2,
        _ => 0,
    }
}

/// Returns how many bytes the digit, dash, cross or slash at the front of a text has, or 0.
fn written(text: &[u8]) -> usize
    ensures { result ≡ written_width text.now }
{
    match text {
        [b'0'..=b'9' | b'/', ..] => 1,
        _ => match dash(text) {
            0 => cross(text),
            width => width,
        },
    }
}

/// Returns how many bytes the signs of a kind at the front of a text have.
pub(crate) fn row_of(text: &[u8], signs: Signs) -> usize
    ensures within { result ≤ length text.now }
    ensures row { IsRow (width_of signs) (take result text.now) (drop result text.now) }
{
    let mut count = 0;
    'signs: loop {
        let (_, rest) = text.split_at(count);
        let more = signs.width(rest);
        if more == 0 {
            return count;
        }
        count += more;
    }
}
