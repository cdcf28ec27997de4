//! Tokens: lines as hexadecimal text.
ghost use Rattle.std.specs.Prelude.{◌≡◌, ◌<◌, ◌≤◌, ◌+◌, ◌*◌, ◌%◌, ◌^◌, ◌++◌, ◌⊎◌, ◌↔◌, ◌∷◌};
ghost use Rattle.std.specs.Prelude.{List, false, true, length, Some};
ghost use Rattle.std.specs.Prelude.{MatchOption, MatchResult, OnOk, OnErr, IfErr, IsErr};
ghost use Rattle.dw_notation.specs.Streams.{Appends};
ghost use Rattle.arrayvec.specs.ArrayVec.{array_vec_len};
ghost use Rattle.dw_board.specs.Geometry.{squares};
ghost use Rattle.dw_moves.specs.Moves.{Move as AnyMove};
ghost use Rattle.dw_notation.specs.Writes.{StopsShort};
ghost use Rattle.dw_list.specs.Tokens as tokens;

use arrayvec::ArrayVec;
use dw_board::{Board, Square, Squares};
use dw_moves::Move;
use dw_notation::{MAX_MOVES, Sink, WriteFault, write_all};
use hex::{decode_to_slice, encode_to_slice};
use thiserror::Error;

/// The bytes of a move.
const MOVE_BYTES: usize = 10;

/// The most bytes of a token: its version, the rows of the board, the number of moves, and the moves.
const MAX_BYTES: usize = 3 + MAX_MOVES * MOVE_BYTES;

/// The most digits of a token.
pub const MAX_DIGITS: usize = 2 * MAX_BYTES;

/// Why a text is no token. Its number is that of the variant, from 1 on.
#[derive(Clone, Copy, Debug, PartialEq, Eq, Error)]
pub enum TokenFault {
    /// An odd number of digits, or a byte that is no digit.
    #[error("not hex")]
    NotHex,
    /// The first byte is no version.
    #[error("version")]
    Version,
    /// Too many digits, no bytes, a missing or wrong number of moves, or another number of bytes than it needs.
    #[error("length")]
    Length,
    /// A move begins or ends at no square of the board.
    #[error("square")]
    Square,
    /// A move takes a piece on a square that the board does not have.
    #[error("taken")]
    Taken,
    /// The token is not for this board, or names none.
    #[error("board")]
    Board,
}

/// Writes the token of a line, in version 2 and in lower case. The line must have an odd number of moves, at most 39,
/// and the board 10 or 8 rows. The sink must not have failed before.
///
/// # Errors
///
/// The sink failed; it has taken a beginning of the token.
pub fn write_token<B: Board, K: Sink>(line: &[Move<B>], sink: &mut K) -> Result<(), WriteFault>
    requires odd { length line.now % 2 ≡ 1 }
    requires most { length line.now ≤ 39 }
    requires rows { (B.geometry.rows ≡ 10) ⊎ (B.geometry.rows ≡ 8) }
    requires works { K.is_failed sink.old ≡ false }
    ensures ok { OnOk result (Appends (K.accepted sink.old) (K.accepted sink.new)
        (tokens.token_of B.geometry line.now)) }
    ensures err { OnErr result
        (StopsShort (K.accepted sink.old) (K.accepted sink.new) (tokens.token_of B.geometry line.now)) }
    ensures failed { IsErr result → K.is_failed sink.new ≡ true }
    ensures kept { OnOk result (K.is_failed sink.new ≡ false) }
{
    let bytes = bytes_of(line);
    let mut room = [0; MAX_DIGITS];
    let digits = &mut room[..2 * bytes.len()];
    if encode_to_slice(bytes.as_slice(), digits).is_err() {
        unreachable!();
    }
    write_all(sink, digits)
}

/// Returns the bytes of a line, which must have at most 39 moves, in version 2.
fn bytes_of<B: Board>(line: &[Move<B>]) -> ArrayVec<u8, MAX_BYTES>
    requires { length line.now ≤ 39 }
    ensures { result.items ≡ tokens.line_bytes B.geometry line.now }
{
    let mut bytes = ArrayVec::new();
    bytes.push(2);
    bytes.push(B::ROWS);
    bytes.push(line.len() as u8);
    'line: for mv in line {
        push_move(&mut bytes, mv);
    }
    bytes
}

/// Appends the bytes of a move.
fn push_move<B: Board>(bytes: &mut ArrayVec<u8, MAX_BYTES>, mv: &Move<B>)
    requires { array_vec_len bytes.old + 10 ≤ 393 }
    ensures items { bytes.new.items ≡ bytes.old.items ++ tokens.move_bytes B.geometry mv.now }
    ensures len { array_vec_len bytes.new ≡ array_vec_len bytes.old + 10 }
{
    bytes.push(mv.from.number());
    bytes.push(mv.to.number());
    let number = number_of(mv.taken).to_be_bytes();
    if bytes.try_extend_from_slice(&number).is_err() {
        unreachable!();
    }
}

/// Returns the square at an index from 0, which must be below the number of squares.
fn square_behind<B: Board>(index: u8) -> Square<B>
    requires { index < squares B.geometry }
    ensures { result ≡ index + 1 }
{
    let Some(square) = Square::new(index + 1) else {
        unreachable!();
    };
    square
}

/// Returns the number whose bit `s - 1` is set for each square s of a set.
fn number_of<B: Board>(taken: Squares<B>) -> u64
    ensures { result ≡ tokens.number_of B.geometry taken }
{
    let mut number = 0;
    'bits: for index in 0..B::ROWS * B::PER_ROW {
        if taken.has(square_behind(index)) {
            number |= 1 << index;
        }
    }
    number
}

/// Reads the line of a token of either version, or returns the first fault of a text that is no token on this board.
///
/// # Errors
///
/// In this order: too long; no hexadecimal text; no byte; no version; another board; a wrong number of moves or of
/// bytes; and move by move a start or an end that is no square, and then a taken square that is none.
pub fn read_token<B: Board>(text: &[u8]) -> Result<ArrayVec<Move<B>, MAX_MOVES>, TokenFault>
    ensures token { (line : List AnyMove) → tokens.IsToken B.geometry text.now line ↔
        MatchResult result (λ read. read.items ≡ line) (λ _. ⊥) }
    ensures fault { IfErr result (λ fault. tokens.token_fault B.geometry text.now ≡ Some fault) }
{
    if text.len() > MAX_DIGITS {
        return Err(TokenFault::Length);
    }
    let mut room = [0; MAX_BYTES];
    let bytes = &mut room[..text.len() / 2];
    if decode_to_slice(text, bytes).is_err() {
        return Err(TokenFault::NotHex);
    }
    read_bytes(bytes)
}

/// Reads the bytes of a token.
fn read_bytes<B: Board>(bytes: &[u8]) -> Result<ArrayVec<Move<B>, MAX_MOVES>, TokenFault>
    ensures { MatchResult result
        (λ line. tokens.IsVersion B.geometry line.items bytes.now)
        (λ fault. tokens.bytes_fault B.geometry bytes.now ≡ Some fault) }
{
    let Some((version, rest)) = bytes.split_first() else {
        return Err(TokenFault::Length);
    };
    match *version {
        1 if B::ROWS == 10 => read_counted(rest),
        1 => Err(TokenFault::Board),
        2 => read_version_2(rest),
        _ => Err(TokenFault::Version),
    }
}

/// Reads the bytes after that of version 2.
fn read_version_2<B: Board>(bytes: &[u8]) -> Result<ArrayVec<Move<B>, MAX_MOVES>, TokenFault>
    ensures { MatchResult result
        (λ line. tokens.IsVersion2 B.geometry line.items (2 ∷ bytes.now))
        (λ fault. tokens.board_fault B.geometry bytes.now ≡ Some fault) }
{
    let Some((rows, rest)) = bytes.split_first() else {
        return Err(TokenFault::Board);
    };
    if names_board::<B>(*rows) {
        read_counted(rest)
    } else {
        Err(TokenFault::Board)
    }
}

/// Reads the number of moves and the moves.
fn read_counted<B: Board>(bytes: &[u8]) -> Result<ArrayVec<Move<B>, MAX_MOVES>, TokenFault>
    ensures { MatchResult result
        (λ line. tokens.IsCounted B.geometry line.items bytes.now)
        (λ fault. tokens.counted_fault B.geometry bytes.now ≡ Some fault) }
{
    let Some((count, moves)) = bytes.split_first() else {
        return Err(TokenFault::Length);
    };
    let count = *count as usize;
    if are_moves(count, moves.len()) {
        read_moves(count, moves)
    } else {
        Err(TokenFault::Length)
    }
}

/// Returns whether a byte names the board, by its rows.
fn names_board<B: Board>(rows: u8) -> bool
    ensures { result ≡ tokens.names_board B.geometry rows }
{
    (rows == 10 || rows == 8) && rows == B::ROWS
}

/// Returns whether this number of bytes holds `count` moves, and this is an odd number of at most 39.
fn are_moves(count: usize, bytes: usize) -> bool
    requires { count < 256 }
    ensures { result ≡ tokens.are_moves count bytes }
{
    count % 2 == 1 && count <= MAX_MOVES && bytes == MOVE_BYTES * count
}

/// Reads `count` moves from as many times ten bytes. The number must be odd and at most 39.
fn read_moves<B: Board>(
    count: usize,
    bytes: &[u8],
) -> Result<ArrayVec<Move<B>, MAX_MOVES>, TokenFault>
    requires odd { count % 2 ≡ 1 }
    requires most { count ≤ 39 }
    requires whole { length bytes.now ≡ 10 * count }
    ensures { MatchResult result
        (λ line. tokens.IsCounted B.geometry line.items (count ∷ bytes.now))
        (λ fault. tokens.moves_fault B.geometry count bytes.now ≡ Some fault) }
{
    let mut line = ArrayVec::new();
    let mut rest = bytes;
    'moves: for _place in 0..count {
        let (front, behind) = rest.split_at(MOVE_BYTES);
        match read_move(front) {
            Ok(mv) => line.push(mv),
            Err(fault) => return Err(fault),
        }
        rest = behind;
    }
    Ok(line)
}

/// Reads the ten bytes of a move.
fn read_move<B: Board>(bytes: &[u8]) -> Result<Move<B>, TokenFault>
    requires { length bytes.now ≡ 10 }
    ensures { MatchResult result
        (λ mv. tokens.IsMove B.geometry mv bytes.now)
        (λ fault. tokens.move_fault B.geometry bytes.now ≡ Some fault) }
{
    let Some(from) = Square::new(bytes[0]) else {
        return Err(TokenFault::Square);
    };
    let Some(to) = Square::new(bytes[1]) else {
        return Err(TokenFault::Square);
    };
    let Some(taken) = taken_of(number_in(bytes)) else {
        return Err(TokenFault::Taken);
    };
    Ok(Move { from, to, taken })
}

/// Returns the number that the bytes of a move hold, after its two squares.
fn number_in(bytes: &[u8]) -> u64
    requires { length bytes.now ≡ 10 }
    ensures { result ≡ tokens.number_in bytes.now }
{
    let eight = [
        bytes[2], bytes[3], bytes[4], bytes[5], bytes[6], bytes[7], bytes[8], bytes[9],
    ];
    u64::from_be_bytes(eight)
}

/// Returns the set of the squares s whose bit `s - 1` is set, or `None` if a bit is set for no square.
fn taken_of<B: Board>(number: u64) -> Option<Squares<B>>
    ensures { MatchOption result
        (2 ^ squares B.geometry ≤ number)
        (λ taken. (number < 2 ^ squares B.geometry) × tokens.IsNumberOf B.geometry taken number) }
{
    if number >> (B::ROWS * B::PER_ROW) != 0 {
        return None;
    }
    let mut taken = Squares::none();
    'bits: for index in 0..B::ROWS * B::PER_ROW {
        if (number >> index) & 1 == 1 {
            taken = taken.with(square_behind(index));
        }
    }
    Some(taken)
}
