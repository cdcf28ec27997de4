//! The movetext of a solution.
ghost use Rattle.std.specs.Prelude.{◌≡◌, length, IfOk};
ghost use Rattle.dw_solution.specs.Movetext.{IsMovetext};
ghost use Rattle.dw_solution.specs.Movetext.{verdict_comment};
ghost use Rattle.dw_solution.specs.inner.Drafts.{IsDraftOf, IsPassed};

use crate::fill::fill;
use crate::heading::Heading;
use crate::listed::FirstLines;
use crate::style::InMovetext;
use crate::writer::write_styled;
use dw_board::Board;
use itoa::Buffer;
use std::alloc::{AllocError, Global};

/// The most bytes of a movetext that is written.
pub const MAX_WRITTEN: usize = 1_000_000;

/// The most bytes of a line, if no word is longer.
pub const MAX_COLUMN: usize = 79;

/// A movetext, and how many of the first lines it has.
#[derive(Drop)]
pub struct SolutionText {
    pub text: Vec<u8>,
    pub lines: usize,
}

/// Writes first lines as a movetext: the verdict as a comment, the tree of the lines, `{more}` if lines are left out,
/// and the result. If that would pass 1,000,000 bytes, it writes as many first lines as fit.
pub fn movetext<B: Board>(
    alloc: Global,
    first: &FirstLines<B>,
    heading: Heading,
) -> Result<SolutionText, AllocError>
    ensures { IfOk result (λ written. IsMovetext B.geometry heading first.now written.lines written.text.items) }
{
    let draft = Draft {
        alloc,
        first,
        heading,
    };
    let lines = first.len();
    let text = draft.text(lines)?;
    if text.as_slice().len() <= MAX_WRITTEN {
        return Ok(SolutionText { text, lines });
    }
    draft.cut_text()
}

/// First lines whose movetext is being written.
#[derive(Clone, Copy)]
struct Draft<'a, B: Board> {
    alloc: Global,
    first: &'a FirstLines<B>,
    heading: Heading,
}

impl<B: Board> Draft<'_, B> {
    /// Writes as many first lines as fit in 1,000,000 bytes. The text of all lines must be longer.
    fn cut_text(&self) -> Result<SolutionText, AllocError>
        requires { IsPassed B.geometry self.now (length self.now.first.now.lines) }
        ensures { IfOk result (λ written. IsMovetext B.geometry self.now.heading self.now.first.now written.lines
            written.text.items) }
    {
        self.heading.keeps_its_range();
        let mut text = self.text(0)?;
        let mut many = 0;
        let mut too_many = self.first.len();
        'cuts: while too_many - many > 1 {
            let middle = many + (too_many - many) / 2;
            let longer = self.text(middle)?;
            if longer.as_slice().len() <= MAX_WRITTEN {
                text = longer;
                many = middle;
            } else {
                too_many = middle;
            }
        }
        Ok(SolutionText { text, lines: many })
    }

    /// Writes the first `lines` lines.
    fn text(&self, lines: usize) -> Result<Vec<u8>, AllocError>
        ensures { IfOk result (λ text. IsDraftOf B.geometry self.now lines text.items) }
    {
        dw_notation::laws::written_moves_are_read();
        dw_moves::laws::play_stays();
        self.first.position().keeps_its_rules();
        let mut text = self.comment()?;
        write_styled(self.alloc, InMovetext, self.first, lines, &mut text)?;
        fill(text.as_mut_slice());
        Ok(text)
    }

    /// Makes the comment before the moves.
    fn comment(&self) -> Result<Vec<u8>, AllocError>
        ensures { IfOk result (λ text. text.items ≡ verdict_comment self.now.heading) }
    {
        let mut digits = Buffer::new();
        let comment = [
            "{",
            self.heading.kind.word(),
            " in ",
            digits.format(self.heading.moves),
            "}",
        ]
        .concat(self.alloc)?;
        Ok(comment.into_bytes())
    }
}
