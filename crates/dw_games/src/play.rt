//! The movetext after the tags of a section, up to the next section.
ghost use Rattle.std.specs.Prelude.{◌≡◌};
ghost use Rattle.dw_notation.specs.Buffering.{input_of};
ghost use Rattle.dw_games.specs.inner.Playing.{ReadsPlay, end_of_text};

use crate::bounded_buf::BoundedBuf;
use crate::games::GameFault;
use dw_notation::{Buffer, SectionFinder, Source};

/// Where a stretch of text without a section ends.
#[derive(Clone, Copy)]
pub(crate) enum PlayEnd {
    /// The bracket that begins a section.
    Section,
    /// The end of the text.
    Text,
    /// The end of the text, in a comment.
    Open,
}

/// Passes the bytes up to a section or the end of the text, and adds them to `kept`.
pub(crate) fn scan_to_section<S: Source>(
    source: &mut S,
    buffer: &mut Buffer,
    kept: &mut BoundedBuf,
) -> Result<PlayEnd, GameFault>
    ensures { ReadsPlay S.supply S.is_failed S.pulls_left (input_of source.old buffer.old)
        (input_of source.new buffer.new) kept.old kept.new result }
{
    let mut finder = SectionFinder::new();
    'pieces: loop {
        buffer.fill(source)?;
        let bytes = buffer.unread();
        if bytes.is_empty() {
            return Ok(end_of_text(finder));
        }
        let begin = finder.find(bytes);
        let count = begin.unwrap_or(bytes.len());
        kept.extend(&bytes[..count])?;
        buffer.consume(count);
        if begin.is_some() {
            return Ok(PlayEnd::Section);
        }
    }
}

/// Returns `Open` if the text ends within a comment, else `Text`.
fn end_of_text(finder: SectionFinder) -> PlayEnd
    ensures { result ≡ end_of_text finder }
{
    if finder.is_in_comment() {
        PlayEnd::Open
    } else {
        PlayEnd::Text
    }
}
