//! The texts of lines.
ghost use Rattle.std.specs.Prelude.{◌≡◌, ◌≤◌, ◌<◌, ◌+◌, ◌++◌, [], ◌∷◌, length, take, IfOk, OnOk, OnErr, ◌%◌, ◌*◌};
ghost use Rattle.std.specs.Prelude.{ℕ, List};
ghost use Rattle.arrayvec.specs.ArrayString.{array_string_len};
ghost use Rattle.dw_moves.specs.Moves.{Legal};
ghost use Rattle.dw_notation.specs.Text.{IsLineText, ArePlayable, numbered};
ghost use Rattle.dw_notation.specs.inner.LineWords.{onto, IsPushed};
ghost use Rattle.dw_notation.specs.inner.WrittenMoves.{after_moves, len_to, end_from};

use crate::move_text::{MOVE_ROOM, listed_text, mark_of, push_number, push_square};
use arrayvec::{ArrayString, ArrayVec};
use dw_board::{Board, Position, Side};
use dw_moves::play::play as played;
use dw_moves::{Move, same_move};
use std::alloc::{AllocError, Global};
use std::marker::Model;

/// The most moves of a line: 20 of the attacker, and 19 of the defender between them.
pub const MAX_MOVES: usize = 20 + 19;

/// Enough bytes for the text of any line, with room for one more move number.
pub const LINE_ROOM: usize = (MAX_MOVES + 1) * MOVE_ROOM;

/// A move of a line, the position after it, and the length of the text up to its end.
#[derive(Drop)]
struct WrittenMove<B: Board> {
    mv: Move<B>,
    after: Position<B>,
    len: usize,
}

/// A value to fill an array with.
impl<B: Board> Default for WrittenMove<B> {
    ghost is_default = { λ ply. ply.len ≡ 0 };

    fn default() -> Self {
        WrittenMove {
            mv: Move::default(),
            after: Position::empty(Side::White),
            len: 0,
        }
    }
}

/// The text of a line, kept beside its moves.
#[derive(Drop)]
pub struct LineText<B: Board> {
    start: Position<B>,
    plies: ArrayVec<WrittenMove<B>, MAX_MOVES>,
    text: ArrayString<LINE_ROOM>,
}

impl<B: Board> Model for LineText<B> {
    ghost use Rattle.std.specs.Prelude.{[], map};
    ghost use Rattle.dw_notation.specs.LineTexts.{LineFrom};
    ghost use Rattle.dw_notation.specs.inner.LineCodes.{line_code};

    ghost Value = { LineFrom };

    ghost coded = { line_code };

    ghost use Rattle.dw_notation.specs.inner.WrittenMoves.{AreWritten};

    ghost view = { λ t. record { start = t.start; moves = map (λ x. x.mv) t.plies.items } };

    ghost invariant = { λ t. AreWritten B.geometry t.start 0 [] t.plies.items t.text.bytes };
}

impl<B: Board> LineText<B> {
    /// Returns the text of a line without moves, which starts from this position.
    pub fn new(start: &Position<B>) -> Self
        ensures { result ≡ record { start = start.now; moves = [] } }
    {
        LineText {
            start: *start,
            plies: ArrayVec::new(),
            text: ArrayString::new(),
        }
    }

    /// Switches to another line, which must have at most 39 moves, each legal after those before it. Only the text
    /// after the shared moves is written again. If out of memory, the text is that of some first moves of the line.
    pub fn switch_to(&mut self, alloc: Global, line: &[Move<B>]) -> Result<(), AllocError>
        requires few { length line.now ≤ 39 }
        requires legal { ArePlayable B.geometry self.old.start line.now }
        ensures start { self.new.start ≡ self.old.start }
        ensures moves { OnOk result (self.new.moves ≡ line.now) }
        ensures begun { OnErr result ((k : ℕ) × (self.new.moves ≡ take k line.now)) }
    {
        let shared = self.shared(line);
        self.keep(shared);
        let rest = &line[shared..];
        'moves: for mv in rest {
            self.push(alloc, mv)?;
        }
        Ok(())
    }

    /// Returns the text.
    pub fn as_str(&self) -> &str
        ensures text { IsLineText B.geometry self.now.start self.now.moves result.now }
        ensures fits { length result.now ≤ 2560 }
    {
        self.text.as_str()
    }

    /// Returns the number of first moves that a line shares with the present one.
    fn shared(&self, line: &[Move<B>]) -> usize
        ensures fits { result ≤ length line.now }
        ensures same { take result line.now ≡ take result self.now.moves }
    {
        let plies = self.plies.as_slice();
        'moves: for (place, mv) in line.iter().enumerate() {
            if place >= plies.len() || !same_move(&plies[place].mv, mv) {
                return place;
            }
        }
        line.len()
    }

    /// Removes all moves but the first `moves`.
    fn keep(&mut self, moves: usize)
        ensures start { self.new.start ≡ self.old.start }
        ensures moves { self.new.moves ≡ take moves self.old.moves }
    {
        let len = len_to(self.plies.as_slice(), moves);
        self.plies.truncate(moves);
        self.text.truncate(len);
    }

    /// Adds a move, which must be legal after fewer than 39 others. If out of memory, it changes nothing.
    fn push(&mut self, alloc: Global, mv: &Move<B>) -> Result<(), AllocError>
        requires few { length self.old.moves < 39 }
        requires legal { Legal B.geometry (after_moves B.geometry self.old.start self.old.moves) mv.now }
        ensures start { self.new.start ≡ self.old.start }
        ensures moves { OnOk result (self.new.moves ≡ self.old.moves ++ mv.now ∷ []) }
        ensures same { OnErr result (self.new ≡ self.old) }
    {
        let current = end_of(&self.start, self.plies.as_slice());
        push_move(alloc, &mut self.text, self.plies.len(), &current, mv)?;
        self.plies.push(WrittenMove {
            mv: *mv,
            after: played(&current, mv),
            len: self.text.len(),
        });
        Ok(())
    }
}

/// Returns the position after some plies.
fn end_of<B: Board>(start: &Position<B>, plies: &[WrittenMove<B>]) -> Position<B>
    ensures { result ≡ end_from start.now plies.now }
{
    let count = plies.len();
    if count == 0 {
        *start
    } else {
        let ply = &plies[count - 1];
        ply.after
    }
}

/// Returns the length of the text of the first `moves` plies.
fn len_to<B: Board>(plies: &[WrittenMove<B>], moves: usize) -> usize
    ensures { result ≡ len_to 0 moves plies.now }
{
    let count = moves.min(plies.len());
    if count == 0 {
        0
    } else {
        let ply = &plies[count - 1];
        ply.len
    }
}

/// Returns the text of a line, or an error if out of memory. The line must have at most 39 moves, each legal after
/// those before it.
///
/// The attacker is the side to move in the position. Its moves are numbered, whichever colour it has, and all is joined
/// by blanks: `1. 45-40 16-21 2. 27x16`. The text of no move is empty.
pub fn line_text<B: Board>(
    alloc: Global,
    position: &Position<B>,
    moves: &[Move<B>],
) -> Result<ArrayString<LINE_ROOM>, AllocError>
    requires few { length moves.now ≤ 39 }
    requires legal { ArePlayable B.geometry position.now moves.now }
    ensures { IfOk result (λ text. IsLineText B.geometry position.now moves.now text.bytes) }
{
    let mut text = LineText::new(position);
    text.switch_to(alloc, moves)?;
    Ok(text.text)
}

/// Appends the text of a legal move at a ply, with its number before it if it is the attacker's. If out of memory, it
/// changes nothing.
#[inline(always)]
fn push_move<B: Board>(
    alloc: Global,
    text: &mut ArrayString<LINE_ROOM>,
    ply: usize,
    position: &Position<B>,
    mv: &Move<B>,
) -> Result<(), AllocError>
    requires legal { Legal B.geometry position.now mv.now }
    requires room { array_string_len text.old ≤ 65 * ply + 2 * (ply % 2) }
    requires few { ply < 39 }
    ensures ok { OnOk result (IsPushed B.geometry position.now ply mv.now text.old.bytes text.new.bytes) }
    ensures err { OnErr result (text.new ≡ text.old) }
{
    match mark_of(position, mv) {
        Some(mark) => {
            push_lead(text, ply);
            push_square(text, mv.from);
            text.push(mark);
            push_square(text, mv.to);
        }
        None => {
            let word = listed_text(alloc, position, mv)?;
            push_lead(text, ply);
            text.push_str(word.as_str());
        }
    }
    Ok(())
}

/// Appends what stands before the text of a move at a ply: a blank after other moves, and the number of an attacker's
/// move.
#[inline(always)]
fn push_lead(text: &mut ArrayString<LINE_ROOM>, ply: usize)
    requires room { array_string_len text.old ≤ 65 * ply + 2 * (ply % 2) }
    requires few { ply < 39 }
    ensures lead { (word : List ℕ) → text.new.bytes ++ word ≡ text.old.bytes ++ onto ply (numbered ply (word ∷ [])) }
    ensures short { array_string_len text.new ≤ array_string_len text.old + 5 }
{
    if ply > 0 {
        text.push(' ');
    }
    if ply % 2 == 0 {
        push_number(text, (ply / 2 + 1) as u8);
        text.push_str(". ");
    }
}
