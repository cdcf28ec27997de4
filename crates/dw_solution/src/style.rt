//! The ways of writing the words of a movetext.
ghost use Rattle.std.specs.Prelude.{◌≡◌, ◌++◌, ℕ, List, OnOk};
ghost use Rattle.dw_solution.specs.Movetext.{in_movetext};
ghost use Rattle.dw_solution.specs.Words.{Part, mark, move_text, plain_text};

use dw_board::{Board, Position};
use std::alloc::AllocError;

/// A mark in a movetext.
#[derive(Clone, Copy)]
pub enum Mark {
    /// The gap before a word.
    Gap,
    /// The beginning of a variation.
    Opening,
    /// The end of a variation.
    Closing,
    /// The comment that there are more lines.
    MoreLines,
}

/// A way of writing the words of a movetext.
pub trait MovetextStyle<B: Board>: Copy {
    /// The text for each part of the words.
    ghost shown: { Self → Part → List ℕ };

    /// Appends a mark.
    fn push_mark(self, text: &mut Vec<u8>, kind: Mark) -> Result<(), AllocError>
        ensures { OnOk result (text.new.items ≡ text.old.items ++ shown self (mark kind)) };

    /// Appends the digits of a number, dots or a result.
    fn push_text(self, text: &mut Vec<u8>, part: &str) -> Result<(), AllocError>
        ensures { OnOk result (text.new.items ≡ text.old.items ++ shown self (plain_text part.now)) };

    /// Appends a move, given its text and the position after it.
    fn push_move(
        self,
        text: &mut Vec<u8>,
        part: &str,
        after: &Position<B>,
    ) -> Result<(), AllocError>
        ensures { OnOk result (text.new.items ≡ text.old.items ++ shown self (move_text part.now after.now)) };
}

/// The words as they stand in a movetext, with a line feed for each gap.
#[derive(Clone, Copy)]
pub(crate) struct InMovetext;

impl<B: Board> MovetextStyle<B> for InMovetext {
    ghost shown = { λ _. in_movetext };

    fn push_mark(self, text: &mut Vec<u8>, kind: Mark) -> Result<(), AllocError> {
        let part = match kind {
            Mark::Gap => "\n",
            Mark::Opening => "(",
            Mark::Closing => ")",
            Mark::MoreLines => "{more}",
        };
        text.extend_from_slice(part.as_bytes())
    }

    fn push_text(self, text: &mut Vec<u8>, part: &str) -> Result<(), AllocError> {
        text.extend_from_slice(part.as_bytes())
    }

    fn push_move(self, text: &mut Vec<u8>, part: &str, _: &Position<B>) -> Result<(), AllocError> {
        text.extend_from_slice(part.as_bytes())
    }
}
