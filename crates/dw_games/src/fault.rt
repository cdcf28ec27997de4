//! The faults of movetexts and of written lines.
ghost use Rattle.std.specs.Prelude.{◌≡◌, Some};
ghost use Rattle.dw_games.specs.declared.fault.MovetextFault.TheVariants.{Memory};
ghost use Rattle.dw_games.specs.Faults.{name_of, number_of};
ghost use Rattle.dw_games.specs.Lines.{line_fault_of, line_name_of, line_number_of};

use std::alloc::AllocError;
use std::fmt;
use thiserror::Error;

/// The kind of fault in a movetext. Its number is the place of the variant in this list, from 1 on, but 12 for `Reply`.
#[derive(Clone, Copy, Debug, PartialEq, Eq)]
pub enum MovetextFaultKind {
    /// A byte that begins no token, a token that ends too soon, or one that is neither a result nor written like a
    /// move.
    Token,
    /// The move is not legal there.
    NoSuchMove,
    /// Several legal moves have this text.
    Ambiguous,
    /// A `(` before the first move of its line, or a `)` while no parenthesis is open.
    Variation,
    /// The text ends, or its result comes, within parentheses.
    Unclosed,
    /// Something else than a comment follows the result.
    Rest,
    /// More than 40 parentheses are open.
    TooDeep,
    /// The 40th move of a path.
    TooLong,
    /// More than 1,048,576 bytes.
    TooLarge,
    /// No move at all.
    Empty,
    /// A reply is left out, and the defender has others.
    Reply,
}

impl MovetextFaultKind {
    /// Returns its number, from 1 on.
    pub fn number(self) -> u8
        ensures { result ≡ number_of self }
    {
        match self {
            MovetextFaultKind::Token => 1,
            MovetextFaultKind::NoSuchMove => 2,
            MovetextFaultKind::Ambiguous => 3,
            MovetextFaultKind::Variation => 4,
            MovetextFaultKind::Unclosed => 5,
            MovetextFaultKind::Rest => 6,
            MovetextFaultKind::TooDeep => 7,
            MovetextFaultKind::TooLong => 8,
            MovetextFaultKind::TooLarge => 9,
            MovetextFaultKind::Empty => 10,
            MovetextFaultKind::Reply => 12,
        }
    }

    /// Returns its name in texts.
    pub fn name(self) -> &'static str
        ensures { result.now ≡ name_of self }
    {
        match self {
            MovetextFaultKind::Token => "token",
            MovetextFaultKind::NoSuchMove => "no such move",
            MovetextFaultKind::Ambiguous => "ambiguous",
            MovetextFaultKind::Variation => "variation",
            MovetextFaultKind::Unclosed => "unclosed",
            MovetextFaultKind::Rest => "rest",
            MovetextFaultKind::TooDeep => "too deep",
            MovetextFaultKind::TooLong => "too long",
            MovetextFaultKind::TooLarge => "too large",
            MovetextFaultKind::Empty => "empty",
            MovetextFaultKind::Reply => "reply",
        }
    }
}

impl fmt::Display for MovetextFaultKind {
    ghost output = { λ kind. Some (name_of kind) };

    fn fmt<W: fmt::Write>(&self, f: &mut fmt::Formatter<W>) -> fmt::Result {
        f.write_str(self.name())
    }
}

/// The error of a text without a tree: its first fault, or that memory was refused.
#[derive(Clone, Copy, Debug, PartialEq, Eq, Error)]
pub enum MovetextFault {
    /// The first fault of the text, and its place: the first byte of the token at fault, counted from 1. A fault at the
    /// end of the text has the place after its last byte, and `TooLarge` has 1,048,577.
    #[error("{what} at {place}")]
    Refused { what: MovetextFaultKind, place: u32 },
    /// Memory was refused.
    #[error("memory")]
    Memory,
}

impl From<AllocError> for MovetextFault {
    ghost from_gives = { λ _ e. e ≡ Memory };

    fn from(_refused: AllocError) -> MovetextFault {
        MovetextFault::Memory
    }
}

/// The kind of fault in a written line. The number of `Even` is 11, and others have that of the fault of a movetext.
#[derive(Clone, Copy, Debug, PartialEq, Eq)]
pub enum LineFaultKind {
    /// A fault that movetexts have too. `Variation` stands for any variation, as a line has none.
    Movetext(MovetextFaultKind),
    /// An even number of moves, but not none.
    Even,
}

impl LineFaultKind {
    /// Returns its number, from 1 on.
    pub fn number(self) -> u8
        ensures { result ≡ line_number_of self }
    {
        match self {
            LineFaultKind::Movetext(what) => what.number(),
            LineFaultKind::Even => 11,
        }
    }

    /// Returns its name in texts.
    pub fn name(self) -> &'static str
        ensures { result.now ≡ line_name_of self }
    {
        match self {
            LineFaultKind::Movetext(what) => what.name(),
            LineFaultKind::Even => "even",
        }
    }
}

impl fmt::Display for LineFaultKind {
    ghost output = { λ kind. Some (line_name_of kind) };

    fn fmt<W: fmt::Write>(&self, f: &mut fmt::Formatter<W>) -> fmt::Result {
        f.write_str(self.name())
    }
}

/// The error of a text without a line: its first fault, or that memory was refused.
#[derive(Clone, Copy, Debug, PartialEq, Eq, Error)]
pub enum LineFault {
    /// The first fault of the text, and its place, as in `MovetextFault`.
    #[error("{what} at {place}")]
    Refused { what: LineFaultKind, place: u32 },
    /// Memory was refused.
    #[error("memory")]
    Memory,
}

impl From<MovetextFault> for LineFault {
    ghost from_gives = { λ why e. e ≡ line_fault_of why };

    fn from(why: MovetextFault) -> LineFault {
        match why {
            MovetextFault::Refused { what, place } => LineFault::Refused {
                what: LineFaultKind::Movetext(what),
                place,
            },
            MovetextFault::Memory => LineFault::Memory,
        }
    }
}
