//! The moves of a solution, each with the position after it.
ghost use Rattle.std.specs.Prelude.{◌≡◌, ◌++◌, ℕ, List, OnOk};
ghost use Rattle.dw_page.specs.SolutionMoves.{AreMovesShown, in_page, move_shown};

use crate::escape::{push_all, push_text};
use dw_board::{Board, Position, fen_text};
use dw_solution::{FirstLines, Mark, MovetextStyle, write_styled};
use std::alloc::{AllocError, Global};

/// Appends the words of the first `lines` lines, or of all if there are fewer. Each move is an element that has the FEN
/// text of the position after it, and a variation is an element too. `more` says that there are more lines.
pub(crate) fn push_moves<B: Board>(
    alloc: Global,
    page: &mut Vec<u8>,
    first: &FirstLines<B>,
    lines: usize,
    more: &str,
) -> Result<(), AllocError>
    ensures { OnOk result ((text : List ℕ) × AreMovesShown B.geometry more.now first.now lines text
        × (page.new.items ≡ page.old.items ++ text)) }
{
    write_styled(alloc, InPage { alloc, more }, first, lines, page)
}

/// The words of a movetext as they stand in a page.
#[derive(Clone, Copy)]
struct InPage<'a> {
    alloc: Global,
    /// The words that say that there are more lines.
    more: &'a str,
}

impl<B: Board> MovetextStyle<B> for InPage<'_> {
    ghost shown = { λ style. in_page B.geometry style.more.now };

    fn push_mark(self, text: &mut Vec<u8>, kind: Mark) -> Result<(), AllocError> {
        match kind {
            Mark::Gap => text.extend_from_slice(b" "),
            Mark::Opening => text.extend_from_slice(b"<span class=\"variation\">("),
            Mark::Closing => text.extend_from_slice(b")</span>"),
            Mark::MoreLines => push_text(text, self.more.as_bytes()),
        }
    }

    fn push_text(self, text: &mut Vec<u8>, part: &str) -> Result<(), AllocError> {
        push_text(text, part.as_bytes())
    }

    fn push_move(
        self,
        text: &mut Vec<u8>,
        part: &str,
        after: &Position<B>,
    ) -> Result<(), AllocError> {
        push_move(self.alloc, text, part, after)
    }
}

/// Appends the element of a move that leads to a position.
fn push_move<B: Board>(
    alloc: Global,
    page: &mut Vec<u8>,
    word: &str,
    after: &Position<B>,
) -> Result<(), AllocError>
    ensures { OnOk result (page.new.items ≡ page.old.items ++ move_shown B.geometry after.now word.now) }
{
    push_all(
        alloc,
        page,
        &[
            "<span class=\"move\" data-fen=\"",
            fen_text(after).as_str(),
            "\">",
        ],
    )?;
    push_text(page, word.as_bytes())?;
    push_all(alloc, page, &["</span>"])?;
    Ok(())
}
