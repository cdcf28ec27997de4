//! FEN texts, one a line: the content of a line, line ends, and the byte-order mark.
ghost use Rattle.std.specs.Prelude.{◌≡◌, ℕ, ◌+◌, ◌<◌, ◌≤◌, Bool, true, false, IfSome, IfNone};
ghost use Rattle.std.specs.Prelude.{List, [], ◌∷◌, ◌++◌, length, drop, option_to_list};
ghost use Rattle.std.specs.List.{list_all, position};
ghost use Rattle.dw_board.specs.FenTokens.{is_blank};
ghost use Rattle.dw_notation.specs.TextLines.{without_mark, without_return};
ghost use Rattle.dw_notation.specs.inner.TextLines.{line_of, line_found, is_line_feed};
ghost use Rattle.dw_board.specs.Geometry.{Geometry};

use super::{MAX_LINE, ProblemFault};
use crate::bytes::is_blank;
use arrayvec::ArrayVec;
use dw_board::{Board, Position, read_fen};

/// The byte-order mark of UTF-8, which may stand at the front of a text.
const BYTE_ORDER_MARK: &[u8] = b"\xEF\xBB\xBF";

/// The number of bytes held of a line: a mark, and enough to tell that the line is too long, with a carriage return
/// too.
const LINE_HELD: usize = 3 + MAX_LINE + 2;

fn is_blank_text(text: &[u8]) -> bool
    ensures { result ≡ list_all is_blank text.now }
{
    text.iter().all(|byte| is_blank(*byte))
}

/// Returns the text without a byte-order mark at its front.
fn without_mark(text: &[u8]) -> &[u8]
    ensures { result.now ≡ without_mark text.now }
{
    text.strip_prefix(BYTE_ORDER_MARK).unwrap_or(text)
}

/// Returns the line without one carriage return at its end.
fn without_return(line: &[u8]) -> &[u8]
    ensures { result.now ≡ without_return line.now }
{
    let len = line.len();
    if len > 0 && line[len - 1] == b'\r' {
        &line[..len - 1]
    } else {
        line
    }
}

/// Returns the problem of a line, if the line is not blank.
#[tactic(auto, unfolding(crate::specs::inner::TextLines::line_found))]
fn read_line<B: Board>(line: &[u8]) -> Option<Result<Position<B>, ProblemFault>>
    ensures { result ≡ line_found B.geometry line.now }
{
    let text = without_return(line);
    if text.len() > MAX_LINE {
        return Some(Err(ProblemFault::LineTooLong));
    }
    if is_blank_text(text) {
        return None;
    }
    match read_fen(text) {
        Ok(position) => Some(Ok(position)),
        Err(fault) => Some(Err(ProblemFault::Fen(fault))),
    }
}

/// Returns the place of the first line feed.
fn line_feed_at(bytes: &[u8]) -> Option<usize>
    ensures { result ≡ position is_line_feed bytes.now }
{
    bytes.iter().position(|byte| *byte == b'\n')
}

/// The progress of reading a text of lines.
#[derive(Drop)]
pub(super) struct TextLines {
    /// Whether the line is the first one, before which a byte-order mark may stand.
    is_first: bool,
    /// The bytes read of the line, as far as they are held.
    line: ArrayVec<u8, LINE_HELD>,
}

impl TextLines {
    ghost use Rattle.dw_notation.specs.inner.TextLines.{SaysSame};
    ghost use Rattle.dw_notation.specs.inner.Pieces.{lines_ahead, lines_behind, lines_cut};

    pub(super) fn new() -> TextLines
        ensures first { result.is_first ≡ true }
        ensures line { result.line.items ≡ [] }
    {
        TextLines {
            is_first: true,
            line: ArrayVec::new(),
        }
    }

    /// Adds a piece to the line, as far as the line is held.
    fn push(&mut self, piece: &[u8])
        ensures line { SaysSame self.old.is_first (self.old.line.items ++ piece.now) self.new.line.items }
        ensures first { self.new.is_first ≡ self.old.is_first }
    {
        let count = piece.len().min(LINE_HELD - self.line.len());
        let _fits = self.line.try_extend_from_slice(&piece[..count]);
    }

    /// Reads up to the first line feed, and returns its place, or `None` after all bytes.
    pub(super) fn cut(&mut self, bytes: &[u8]) -> Option<usize>
        ensures some { IfSome result (λ k. (k < length bytes.now) × ((g : Geometry) (at_end : Bool) (more : List ℕ) →
            lines_ahead at_end g self.old (bytes.now ++ more)
            ≡ option_to_list (lines_cut g self.new)
            ++ lines_behind at_end g self.new (drop (k + 1) bytes.now ++ more))) }
        ensures none { IfNone result ((g : Geometry) (at_end : Bool) (more : List ℕ) →
            lines_ahead at_end g self.old (bytes.now ++ more) ≡ lines_ahead at_end g self.new more) }
    {
        match line_feed_at(bytes) {
            Some(place) => {
                self.push(&bytes[..place]);
                Some(place)
            }
            None => {
                self.push(bytes);
                None
            }
        }
    }

    /// Returns the problem of the line, if the line is not blank.
    pub(super) fn found<B: Board>(&self) -> Option<Result<Position<B>, ProblemFault>>
        ensures { result ≡ lines_cut B.geometry self.now }
    {
        let line = self.line.as_slice();
        read_line(if self.is_first {
            without_mark(line)
        } else {
            line
        })
    }

    /// Forgets the line that was cut off.
    pub(super) fn clear(&mut self)
        ensures { (g : Geometry) (at_end : Bool) (more : List ℕ)
            → lines_behind at_end g self.old more ≡ lines_ahead at_end g self.new more }
    {
        self.is_first = false;
        self.line.clear();
    }
}
