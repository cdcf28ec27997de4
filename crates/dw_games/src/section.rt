//! A section of tags, and the spaces after it.
ghost use Rattle.std.specs.Prelude.{◌≡◌, ◌-◌, ◌<◌, ◌≤◌, ℕ, List, ◌∷◌, drop, length, slice_index, true, false, OnOk};
ghost use Rattle.std.specs.List.{list_all};
ghost use Rattle.dw_notation.specs.Tags.{open_bracket, is_space as is_space_byte};
ghost use Rattle.dw_notation.specs.Buffering.{unread_in, input_of};
ghost use Rattle.dw_games.specs.inner.Keeping.{IsKept, spaces_on};
ghost use Rattle.dw_games.specs.inner.Sectioning.{ReadsSection};

use crate::bounded_buf::BoundedBuf;
use crate::games::GameFault;
use dw_board::{Board, Position};
use dw_notation::bytes::is_space;
use dw_notation::{Buffer, ProblemFault, SectionReader, Source};
use std::alloc::AllocError;

/// Updates the kept spaces at the end of a text by its next piece.
fn keep_spaces(spaces: &mut BoundedBuf, piece: &[u8]) -> Result<(), AllocError>
    ensures { (limit : ℕ) (text : List ℕ) → IsKept limit text spaces.old
        → OnOk result (IsKept limit (spaces_on text piece.now) spaces.new) }
{
    let start = spaces_at(piece);
    if start > 0 {
        spaces.clear();
    }
    let (_, rest) = piece.split_at(start);
    spaces.extend(rest)
}

/// Returns the place where the spaces at the end of a text begin.
fn spaces_at(text: &[u8]) -> usize
    ensures within { result ≤ length text.now }
    ensures spaces { list_all is_space_byte (drop result text.now) ≡ true }
    ensures before { 0 < result → is_space_byte (slice_index text.now (result - 1)) ≡ false }
{
    let mut start = text.len();
    'spaces: while start > 0 && is_space(text[start - 1]) {
        start -= 1;
    }
    start
}

/// Reads a section and the spaces after it, and returns its problem. It keeps all these bytes in `row`, and the spaces
/// alone in `spaces`.
pub(crate) fn read_section<B: Board, S: Source>(
    source: &mut S,
    buffer: &mut Buffer,
    row: &mut BoundedBuf,
    spaces: &mut BoundedBuf,
) -> Result<Option<Result<Position<B>, ProblemFault>>, GameFault>
    requires { unread_in buffer.old ≡ open_bracket ∷ drop 1 (unread_in buffer.old) }
    ensures { ReadsSection B.geometry S.supply S.is_failed S.pulls_left (input_of source.old buffer.old)
        (input_of source.new buffer.new) row.old row.new spaces.old spaces.new result }
{
    dw_notation::laws::texts_of_tags_say();
    let mut reader = SectionReader::<B>::new();
    'pieces: loop {
        buffer.fill(source)?;
        let bytes = buffer.unread();
        if bytes.is_empty() {
            return Ok(reader.finish());
        }
        let end = reader.cut(bytes);
        let count = end.unwrap_or(bytes.len());
        row.extend(&bytes[..count])?;
        keep_spaces(spaces, &bytes[..count])?;
        buffer.consume(count);
        if end.is_some() {
            return Ok(reader.found());
        }
    }
}
