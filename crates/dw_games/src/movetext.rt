//! Reading the movetext of an author's solution.
ghost use Rattle.std.specs.Prelude.{◌≡◌, ◌≤◌, ◌<◌, ◌+◌, [], length, MatchResult};
ghost use Rattle.dw_games.specs.Faults.{IsAnswer};
ghost use Rattle.dw_games.specs.inner.Reading.{IsReading, HasRead, HasEnded, AreLast};

use crate::fault::{MovetextFault, MovetextFaultKind};
use crate::reader::Reader;
use crate::tokens::{TokenKind, Tokens};
use crate::tree::Tree;
use dw_board::{Board, Position};
use dw_notation::MAX_MOVES;
use std::alloc::Global;

/// The most bytes of a movetext.
pub const MAX_MOVETEXT: usize = 1_048_576;

/// The most moves of a path, 39: those of the longest line.
pub const MAX_PATH: usize = MAX_MOVES;

/// The most parentheses that may be open at once.
pub const MAX_OPEN: usize = 40;

/// Reads the movetext of a solution to a position: the tree of its moves, or the first fault. By `laws::one_answer` a
/// text has no other tree or first fault there.
///
/// # Errors
///
/// The first fault of the text with its place; `Memory` if memory is refused.
pub fn read_movetext<B: Board>(
    alloc: Global,
    position: &Position<B>,
    text: &[u8],
) -> Result<Tree<B>, MovetextFault>
    ensures { IsAnswer B.geometry position.now text.now result }
{
    if text.len() > MAX_MOVETEXT {
        return Err(behind(MovetextFaultKind::TooLarge, MAX_MOVETEXT));
    }
    let mut tokens = Tokens::new(text);
    let mut reader = Reader::new(alloc, *position);
    if reads_result(&mut reader, &mut tokens)? {
        read_comments(&mut tokens)?;
    } else if reader.is_within() {
        return Err(behind(MovetextFaultKind::Unclosed, text.len()));
    }
    tree_of(reader, text.len())
}

/// Returns the tree of a text of `bytes` bytes, if it has a move.
fn tree_of<B: Board>(reader: Reader<B>, bytes: usize) -> Result<Tree<B>, MovetextFault>
    requires { bytes ≤ MAX_MOVETEXT }
    ensures { MatchResult result (λ tree. (tree ≡ reader.tree) × (0 < length tree.paths))
        (λ why. (why ≡ MovetextFault.Refused MovetextFaultKind.Empty (bytes + 1)) × (reader.tree.paths ≡ [])) }
{
    let tree = reader.into_tree();
    if tree.is_empty() {
        Err(behind(MovetextFaultKind::Empty, bytes))
    } else {
        Ok(tree)
    }
}

/// Returns a fault whose place is after a number of bytes.
pub(crate) fn behind(what: MovetextFaultKind, bytes: usize) -> MovetextFault
    requires { bytes ≤ MAX_MOVETEXT }
    ensures { result ≡ MovetextFault.Refused what (bytes + 1) }
{
    MovetextFault::Refused {
        what,
        place: bytes as u32 + 1,
    }
}

/// Reads the play of a text up to its result or the end of the text, and returns whether there is a result.
fn reads_result<B: Board>(
    reader: &mut Reader<B>,
    tokens: &mut Tokens<'_>,
) -> Result<bool, MovetextFault>
    requires { IsReading B.geometry reader.old }
    ensures { (p : _) → HasRead B.geometry p [] reader.old
        → HasEnded B.geometry p tokens.old tokens.new reader.new result }
{
    'tokens: while let Some(token) = tokens.next() {
        if reader.take(token)? {
            return Ok(true);
        }
    }
    Ok(false)
}

/// Reads the text after a result: comments only.
pub(crate) fn read_comments(tokens: &mut Tokens<'_>) -> Result<(), MovetextFault>
    ensures { AreLast tokens.old result }
{
    'tokens: while let Some(token) = tokens.next() {
        match token.what {
            TokenKind::Comment => {}
            TokenKind::CutOff => return Err(token.fault(MovetextFaultKind::Token)),
            _ => return Err(token.fault(MovetextFaultKind::Rest)),
        }
    }
    Ok(())
}
