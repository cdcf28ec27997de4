//! The problems of a byte text, cut out of the bytes as they are read.
//!
//! A reader holds at most 2,048 bytes of its last read, and beside them at most 4,101 bytes of a line, or at most 1,025
//! bytes of a FEN tag's value and 9 of a tag's name.

mod fens;
mod numbering;
pub(crate) mod pdn;
mod reader;
mod section_finder;
mod section_reader;

use dw_board::{Board, FenFault, MAX_FEN, Position};
pub use numbering::Numbering;
pub use reader::Problems;
pub use section_finder::SectionFinder;
pub use section_reader::SectionReader;
use thiserror::Error;

/// The most problems of one text. If there are more, the next one is `TooManyProblems`, and it is the last.
pub const MAX_PROBLEMS: u32 = 1_000_000;

/// The most bytes of a line, without the carriage return at its end.
pub const MAX_LINE: usize = 4096;

/// The most bytes of a section, from its first bracket to the end of its last tag.
pub const MAX_SECTION: usize = 65536;

/// The most bytes of one read.
pub const MAX_READ: usize = 2048;

/// One byte more than the longest FEN text. A reader keeps this much of a FEN tag's value, to see if it is too long.
const PAST_FEN: usize = MAX_FEN + 1;

/// The form in which a text holds its problems.
#[derive(Clone, Copy, Debug, PartialEq, Eq)]
pub enum Form {
    /// One FEN text a line. Lines of blanks alone are passed over.
    Fens,
    /// Sections of tags, as those before the games of a file. Each section is a problem.
    ///
    /// A section is a row of tags with blanks and line ends alone between them, and any other byte ends it.
    /// A tag is a name and a value in quotation marks, in brackets and in one line; one that breaks this is
    /// unclosed, and reaches to the end of its line. Between sections stand comments in braces, which don't
    /// nest, and movetext, which is passed over. Names are compared without regard to the case of letters.
    ///
    /// A section is refused by the first of these that holds: it has more than `MAX_SECTION` bytes up to the
    /// end of its last tag; a tag of it is unclosed; a GameType tag names another game than 20, the number at
    /// the front of its value, or any game on a board without ten rows; it has two FEN tags, or none; the
    /// value of its FEN tag is refused, at the place in the value. Otherwise the problem is the position.
    /// A comment that the end of the text leaves open is one more problem.
    Pdn,
}

/// Why a problem was refused. Its number is that of the variant, from 1 on.
#[derive(Clone, Copy, Debug, PartialEq, Eq, Error)]
pub enum ProblemFault {
    #[error("fen: {0}")]
    Fen(FenFault),
    #[error("no fen")]
    NoFen,
    #[error("two fens")]
    TwoFens,
    #[error("wrong game")]
    WrongGame,
    #[error("line too long")]
    LineTooLong,
    #[error("section too long")]
    SectionTooLong,
    #[error("unclosed tag")]
    UnclosedTag,
    #[error("unclosed comment")]
    UnclosedComment,
    #[error("too many problems")]
    TooManyProblems,
}

/// A problem of a text: its number, from 1 on, and its position, or why it was refused.
#[derive(Clone, Copy)]
pub struct Problem<B: Board> {
    pub number: u32,
    pub found: Result<Position<B>, ProblemFault>,
}

/// Why a problem could not be read. It says nothing of the text.
#[derive(Clone, Copy, Debug, PartialEq, Eq, Error)]
pub enum ReadFault {
    #[error("the source failed")]
    Failed,
}
