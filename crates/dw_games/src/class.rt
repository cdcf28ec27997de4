//! Classes of bytes.
ghost use Rattle.std.specs.Prelude.{◌≡◌};
ghost use Rattle.dw_games.specs.inner.Classes.{test_of};

use dw_notation::bytes::{ends_line, is_blank, is_space};

/// A class of bytes. Runs of one class make up the tokens of a movetext and the space between tags.
#[derive(Clone, Copy)]
pub(crate) enum Class {
    /// A space or a tab.
    Blank,
    Digit,
    Dot,
    /// All but `}`.
    Inside,
    /// All but the end of a line.
    InLine,
    /// A byte between tags.
    Space,
}

impl Class {
    /// Returns whether a byte is of this class.
    pub(crate) fn has(self, byte: u8) -> bool
        ensures { result ≡ test_of self byte }
    {
        match self {
            Class::Blank => is_blank(byte),
            Class::Digit => byte.is_ascii_digit(),
            Class::Dot => byte == b'.',
            Class::Inside => byte != b'}',
            Class::InLine => !ends_line(byte),
            Class::Space => is_space(byte),
        }
    }
}
