//! Reading the text of a move.
ghost use Rattle.std.specs.Prelude.{◌≡◌, ◌≤◌, ◌<◌, ◌∷◌, [], List, ℕ, length, MatchOption, IsTrue};
ghost use Rattle.std.specs.Prelude.{◌↔◌};
ghost use Rattle.dw_board.specs.Lists.{NoRepeat};
ghost use Rattle.dw_notation.specs.declared.read_move.MoveFault.TheVariants.{Memory};
ghost use Rattle.dw_notation.specs.MoveReading.{Names, QuietMove, Capture, IsAnswer, IsRead, is_cross};
ghost use Rattle.dw_notation.specs.inner.MoveReader.{Begins, BeginsNowhere, IsOnly, Takes};

use arrayvec::ArrayVec;
use dw_board::fen::numbers::{digits_at, square_named};
use dw_board::{Board, Position, Square};
use dw_moves::follow::follow;
use dw_moves::legal::legal;
use dw_moves::{LONGEST_PATH, Move, is_legal};
use std::alloc::{AllocError, Global};
use thiserror::Error;

/// Why no move was read from a text. Its number is that of the variant, from 1 on.
#[derive(Clone, Copy, Debug, PartialEq, Eq, Error)]
pub enum MoveFault {
    /// The text names no squares as a move does, or none of this board.
    #[error("syntax")]
    Syntax,
    /// No legal move fits the text.
    #[error("no such move")]
    NoSuchMove,
    /// Several legal captures have the two squares of the text.
    #[error("ambiguous")]
    Ambiguous,
    /// Memory was refused.
    #[error("memory")]
    Memory,
}

impl From<AllocError> for MoveFault {
    ghost from_gives = { λ _ e. e ≡ Memory };

    fn from(_refused: AllocError) -> MoveFault {
        MoveFault::Memory
    }
}

/// Returns the legal move that a text names.
///
/// A text is a number, then either `-` and a number, or one to twenty times `x` or `X` and a number, and nothing else.
/// A number is one or two digits that give the number of a square: `07` is 7, `007` is none.
///
/// - `-` means the quiet move between its two squares, never a capture.
/// - Two squares joined by `x` mean the capture between them. If there are several, the text is ambiguous.
/// - Three or more squares mean the capture that has exactly this path: its start, and then each landing square. It
///   need not be the least path of the move.
///
/// # Errors
///
/// `NoSuchMove` if no legal move fits, `Ambiguous` if several do, `Memory` if memory is refused, which only two squares
/// joined by `x` need, and `Syntax` for any other text.
pub fn read_move<B: Board>(
    alloc: Global,
    position: &Position<B>,
    text: &[u8],
) -> Result<Move<B>, MoveFault>
    ensures { IsRead B.geometry position.now text.now result }
{
    if let Some((from, to)) = quiet_named(text) {
        return quiet_move(position, from, to);
    }
    let Some(squares) = capture_named(text) else {
        return Err(MoveFault::Syntax);
    };
    capture(alloc, position, squares.as_slice())
}

/// Returns the two squares of a quiet move, or `None` if a text names none.
fn quiet_named<B: Board>(text: &[u8]) -> Option<(Square<B>, Square<B>)>
    ensures { MatchOption result ((from to : ℕ) → Names B.geometry text.now (QuietMove from to)
        → ⊥) (λ r. Names B.geometry text.now (QuietMove r.0 r.1)) }
{
    let Some((from, behind)) = first_square(text) else {
        return None;
    };
    let (sign, rest) = behind.split_first()?;
    if *sign != b'-' {
        return None;
    }
    Some((from, square_named(rest)?))
}

/// Returns the start of a capture and the squares on which it lands, or `None` if a text names none.
fn capture_named<B: Board>(text: &[u8]) -> Option<ArrayVec<Square<B>, LONGEST_PATH>>
    ensures { MatchOption result
        ((squares : List ℕ) → Names B.geometry text.now (Capture squares) → ⊥)
        (λ squares. Names B.geometry text.now (Capture squares.items)) }
{
    let mut squares = ArrayVec::new();
    let mut rest = text;
    'numbers: loop {
        let Some((square, behind)) = first_square(rest) else {
            return None;
        };
        if squares.is_full() {
            return None;
        }
        squares.push(square);
        let Some((sign, next)) = behind.split_first() else {
            return if squares.len() > 1 {
                Some(squares)
            } else {
                None
            };
        };
        if !is_cross(*sign) {
            return None;
        }
        rest = next;
    }
}

/// Returns whether a byte joins the squares of a capture.
fn is_cross(byte: u8) -> bool
    ensures { result ≡ is_cross byte }
{
    byte == b'x' || byte == b'X'
}

/// Returns the square numbered by the digits at the front of a text, and the rest of the text; or `None` if they number
/// none.
fn first_square<B: Board>(text: &[u8]) -> Option<(Square<B>, &[u8])>
    ensures { MatchOption result (BeginsNowhere B.geometry text.now) (λ r. Begins B.geometry text.now r.0 r.1.now) }
{
    let (digits, rest) = text.split_at(digits_at(text));
    Some((square_named(digits)?, rest))
}

/// Returns the legal quiet move between two squares, or the fault `NoSuchMove`.
fn quiet_move<B: Board>(
    position: &Position<B>,
    from: Square<B>,
    to: Square<B>,
) -> Result<Move<B>, MoveFault>
    ensures { IsAnswer B.geometry position.now (QuietMove from to) result }
{
    let mv = Move::quiet(from, to);
    if is_legal(position, &mv) {
        Ok(mv)
    } else {
        Err(MoveFault::NoSuchMove)
    }
}

/// Returns the legal capture named by its start and squares on which it lands, of which there must be two or more in
/// all; or a fault.
fn capture<B: Board>(
    alloc: Global,
    position: &Position<B>,
    squares: &[Square<B>],
) -> Result<Move<B>, MoveFault>
    requires { 2 ≤ length squares.now }
    ensures { IsAnswer B.geometry position.now (Capture squares.now) result }
{
    match squares {
        [from, to] => capture_between(alloc, position, *from, *to),
        _ => follow(position, squares).ok_or(MoveFault::NoSuchMove),
    }
}

/// Returns the only legal capture between two squares, or a fault.
fn capture_between<B: Board>(
    alloc: Global,
    position: &Position<B>,
    from: Square<B>,
    to: Square<B>,
) -> Result<Move<B>, MoveFault>
    ensures { IsAnswer B.geometry position.now (Capture (from ∷ to ∷ [])) result }
{
    let moves = legal(alloc, position)?;
    only_capture(moves.as_slice(), from, to)
}

/// Returns the only capture between two squares among these moves, which must be different; or a fault.
fn only_capture<B: Board>(
    moves: &[Move<B>],
    from: Square<B>,
    to: Square<B>,
) -> Result<Move<B>, MoveFault>
    requires { NoRepeat moves.now }
    ensures { IsOnly moves.now from to result }
{
    let mut found = None;
    'moves: for mv in moves {
        if is_capture_between(mv, from, to) {
            if found.is_some() {
                return Err(MoveFault::Ambiguous);
            }
            found = Some(*mv);
        }
    }
    found.ok_or(MoveFault::NoSuchMove)
}

fn is_capture_between<B: Board>(mv: &Move<B>, from: Square<B>, to: Square<B>) -> bool
    ensures { IsTrue result ↔ Takes from to mv.now }
{
    mv.from == from && mv.to == to && mv.taken.count() > 0
}
