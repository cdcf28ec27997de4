//! Reading a written line: a movetext without variations, of an odd number of moves.
ghost use Rattle.std.specs.Prelude.{◌≡◌, ◌≤◌, ◌↔◌, ◌%◌, [], length, MatchResult, IsTrue};
ghost use Rattle.dw_games.specs.Lines.{IsWrittenLine, IsLineRefusal};
ghost use Rattle.dw_games.specs.inner.Reading.{IsReading, HasRead};
ghost use Rattle.dw_games.specs.Play.{beginnings_after};
ghost use Rattle.dw_games.specs.inner.LineReading.{LineHasEnded, IsNoOddNumber};

use crate::fault::{LineFault, LineFaultKind, MovetextFault, MovetextFaultKind};
use crate::movetext::{MAX_MOVETEXT, MAX_PATH, behind, read_comments};
use crate::reader::Reader;
use crate::tokens::{TokenKind, Tokens};
use crate::tree::{Node, Tree};
use arrayvec::ArrayVec;
use dw_board::{Board, Position};
use dw_moves::Move;
use std::alloc::Global;

/// Parses a line from a position: the moves of a movetext without variations, 1 to 39 and odd in number, or the first
/// fault. By `laws::one_line` a text has no other moves or first fault there.
///
/// # Errors
///
/// The first fault of the text with its place; `Variation` at any `(` before the result; `Even` after the text if the
/// number of moves is even; `Memory` if memory is refused.
pub fn read_line<B: Board>(
    alloc: Global,
    position: &Position<B>,
    text: &[u8],
) -> Result<ArrayVec<Move<B>, MAX_PATH>, LineFault>
    ensures { MatchResult result
        (λ line. IsWrittenLine B.geometry position.now text.now line.items)
        (λ why. IsLineRefusal B.geometry position.now text.now why) }
{
    if text.len() > MAX_MOVETEXT {
        return Err(LineFault::from(behind(MovetextFaultKind::TooLarge, MAX_MOVETEXT)));
    }
    let mut tokens = Tokens::new(text);
    let mut reader = Reader::new(alloc, *position);
    if reads_line(&mut reader, &mut tokens)? {
        read_comments(&mut tokens)?;
    }
    odd_line(&reader.into_tree(), text.len())
}

/// Reads the moves of a line up to its result or the end of the text, and returns whether there is a result.
fn reads_line<B: Board>(
    reader: &mut Reader<B>,
    tokens: &mut Tokens<'_>,
) -> Result<bool, MovetextFault>
    requires { IsReading B.geometry reader.old }
    ensures { (p : _) → HasRead B.geometry p [] reader.old
        → LineHasEnded B.geometry p tokens.old tokens.new reader.new result }
{
    'tokens: while let Some(token) = tokens.next() {
        if is_opening(token.what) {
            return Err(token.fault(MovetextFaultKind::Variation));
        }
        if reader.take(token)? {
            return Ok(true);
        }
    }
    Ok(false)
}

/// Returns whether a token of a kind begins a variation.
fn is_opening(what: TokenKind) -> bool
    ensures { IsTrue result ↔ (what ≡ TokenKind.Opens) }
{
    matches!(what, TokenKind::Opens)
}

/// Returns the moves of a text of `bytes` bytes, if they are odd in number.
fn odd_line<B: Board>(
    tree: &Tree<B>,
    bytes: usize,
) -> Result<ArrayVec<Move<B>, MAX_PATH>, LineFault>
    requires few { length tree.now.paths ≤ MAX_PATH }
    requires bytes { bytes ≤ MAX_MOVETEXT }
    ensures { (moves : _) → tree.now.paths ≡ beginnings_after [] moves → MatchResult result
        (λ line. (line.items ≡ moves) × (length moves % 2 ≡ 1)) (λ why. IsNoOddNumber moves bytes why) }
{
    let moves = moves_of(tree);
    if moves.is_empty() {
        return Err(LineFault::from(behind(MovetextFaultKind::Empty, bytes)));
    }
    if moves.len() % 2 == 0 {
        return Err(LineFault::Refused {
            what: LineFaultKind::Even,
            place: bytes as u32 + 1,
        });
    }
    Ok(moves)
}

/// Returns the moves of a tree without variations.
fn moves_of<B: Board>(tree: &Tree<B>) -> ArrayVec<Move<B>, MAX_PATH>
    requires { length tree.now.paths ≤ MAX_PATH }
    ensures { (moves : _) → tree.now.paths ≡ beginnings_after [] moves → result.items ≡ moves }
{
    let mut moves = ArrayVec::new();
    'moves: while let Some(mv) = tree.mv(Node(moves.len())) {
        moves.push(mv);
    }
    moves
}
