//! Why a text is no FEN text.

use std::fmt;
use thiserror::Error;

/// The kinds of faults in a FEN text, numbered from 1 in this order.
#[derive(Clone, Copy, Debug, PartialEq, Eq)]
pub enum FenFaultKind {
    Turn,
    Colon,
    Colour,
    Number,
    Twice,
    SameColour,
    LastRow,
    TooMany,
    Rest,
    TooLong,
    RangeBackwards,
}

impl FenFaultKind {
    /// Returns its name in texts.
    fn name(self) -> &'static str {
        match self {
            FenFaultKind::Turn => "turn",
            FenFaultKind::Colon => "colon",
            FenFaultKind::Colour => "colour",
            FenFaultKind::Number => "number",
            FenFaultKind::Twice => "twice",
            FenFaultKind::SameColour => "same colour",
            FenFaultKind::LastRow => "last row",
            FenFaultKind::TooMany => "too many",
            FenFaultKind::Rest => "rest",
            FenFaultKind::TooLong => "too long",
            FenFaultKind::RangeBackwards => "range backwards",
        }
    }
}

impl fmt::Display for FenFaultKind {
    fn fmt<W: fmt::Write>(&self, f: &mut fmt::Formatter<W>) -> fmt::Result {
        f.write_str(self.name())
    }
}

/// The earliest fault of a text, and the place of the token where it is found. A place is the number, from 1 on, of the
/// token's first byte. It is one more than the length at the text's end, and `MAX_FEN + 1` for a text that is too long.
#[derive(Clone, Copy, Debug, PartialEq, Eq, Error)]
#[error("{what} at {place}")]
pub struct FenFault {
    pub what: FenFaultKind,
    pub place: u16,
}
