//! Reading a movetext token by token.
ghost use Rattle.std.specs.Prelude.{◌≡◌, ◌↔◌, ◌≤◌, ◌<◌, [], true, false, Bool};
ghost use Rattle.std.specs.Prelude.{Result, Ok, Err, MatchOption, IfOk, length, ◌%◌, ◌∷◌, ◌++◌, Some, None};
ghost use Rattle.std.specs.Prelude.{IsTrue};
ghost use Rattle.dw_board.specs.Lists.{Member};
ghost use Rattle.dw_notation.specs.MoveReading.{IsRead};
ghost use Rattle.dw_moves.specs.Moves.{Legal};
ghost use Rattle.dw_moves.specs.Moves as of;
ghost use Rattle.dw_games.specs.inner.Ahead.{token_value};
ghost use Rattle.dw_games.specs.inner.Reading.{CanNote, CanNoteStep, HasNoted, HasNotedStep, IsAt, IsCursor, is_reply};
ghost use Rattle.dw_games.specs.inner.Reading.{IsForcedOr, IsFoundOr, IsMissedAt, IsSearched, IsStepAt, moves_of};
ghost use Rattle.dw_games.specs.Printed.{begins, goes_on};
ghost use Rattle.dw_games.specs.inner.Refusals.{refusal_of, searched_of};
ghost use Rattle.dw_games.specs.Play.{IsResult, IsOnlyMove, is_leading, plain, plain_byte, results};

use crate::fault::{MovetextFault, MovetextFaultKind};
use crate::movetext::{MAX_OPEN, MAX_PATH};
use crate::tokens::{Token, TokenKind};
use crate::tree::{Node, Tree};
use arrayvec::ArrayVec;
use dw_board::{Board, Position, Side};
use dw_moves::Move;
use dw_moves::legal::legal;
use dw_moves::play::play;
use dw_notation::read_move::read_move;
use dw_notation::{MAX_MOVE_TEXT, MoveFault};
use std::alloc::{AllocError, Global};

/// The place of a reader in the tree: its node, the position there, and the number of moves before it.
#[derive(Clone, Copy)]
struct Cursor<B: Board> {
    node: Option<Node>,
    position: Position<B>,
    moves: usize,
}

/// An open line: the main line, or one in parentheses.
#[derive(Clone, Copy)]
struct OpenLine<B: Board> {
    /// The place after its last move, or where it begins.
    now: Cursor<B>,
    /// The place before its last move, if it has one.
    before: Option<Cursor<B>>,
    /// In parentheses without a move so far, the place after the move that they follow. `now` is before that move.
    behind: Option<Cursor<B>>,
    /// The place after a reply in parentheses that follows the last move, if that reply is one move token.
    answer: Option<Cursor<B>>,
    /// Whether it is a reply in parentheses.
    is_reply: bool,
    /// In parentheses, whether exactly one move token was read.
    is_single: bool,
}

/// What a token stands for: the move that it names, or the only reply, which it leaves out, and the move after that.
#[derive(Clone, Copy)]
enum Step<B: Board> {
    Played(Move<B>),
    Forced(Move<B>, Move<B>),
}

/// How a token goes on with a line: from a place, by a step, and whether the line is a reply in parentheses.
#[derive(Clone, Copy)]
struct Found<B: Board> {
    from: Cursor<B>,
    step: Step<B>,
    is_reply: bool,
}

impl<B: Board> OpenLine<B> {
    ghost use Rattle.dw_games.specs.inner.Reading.{answer_after, line_after};

    /// Returns the main line without moves.
    fn main(now: Cursor<B>) -> Self
        ensures { result ≡ record {
          now = now;
          before = None;
          behind = None;
          answer = None;
          is_reply = false;
          is_single = false;
        } }
    {
        OpenLine {
            now,
            before: None,
            behind: None,
            answer: None,
            is_reply: false,
            is_single: false,
        }
    }

    /// Returns a line in parentheses without moves, between the places before and after the move that they follow.
    fn in_parentheses(now: Cursor<B>, behind: Cursor<B>) -> Self
        ensures { result ≡ record {
          now = now;
          before = None;
          behind = Some behind;
          answer = None;
          is_reply = false;
          is_single = false;
        } }
    {
        OpenLine {
            now,
            before: None,
            behind: Some(behind),
            answer: None,
            is_reply: false,
            is_single: false,
        }
    }

    /// Returns the line after one in parentheses. The last reply counts, and parentheses without a move say nothing.
    fn after(&self, inner: &OpenLine<B>) -> Self
        ensures { result ≡ line_after self.entry.now inner.entry.now }
    {
        if inner.behind.is_some() {
            return *self;
        }
        OpenLine {
            now: self.now,
            before: self.before,
            behind: self.behind,
            answer: self.answer_after(inner),
            is_reply: self.is_reply,
            is_single: false,
        }
    }

    /// Returns the place after the reply that counts after parentheses with a move.
    fn answer_after(&self, inner: &OpenLine<B>) -> Option<Cursor<B>>
        ensures { result ≡ answer_after self.entry.now inner.entry.now }
    {
        if !inner.is_reply {
            return self.answer;
        }
        if inner.is_single {
            Some(inner.now)
        } else {
            None
        }
    }
}

/// A line on the empty board, to fill an array with.
impl<B: Board> Default for OpenLine<B> {
    fn default() -> Self {
        OpenLine::main(Cursor {
            node: None,
            position: Position::empty(Side::White),
            moves: 0,
        })
    }
}

/// The tree of the moves that were read, the innermost line that is open, and those around it.
#[derive(Drop)]
pub(crate) struct Reader<B: Board> {
    alloc: Global,
    tree: Tree<B>,
    line: OpenLine<B>,
    outer: ArrayVec<OpenLine<B>, MAX_OPEN>,
}

impl<B: Board> Reader<B> {
    ghost use Rattle.dw_games.specs.inner.Reading.{HasRead, IsReading, IsFoundOr, IsTaken};

    /// Makes a reader at the start, with no open parenthesis.
    pub(crate) fn new(alloc: Global, position: Position<B>) -> Self
        ensures { HasRead B.geometry position [] result }
    {
        Reader {
            alloc,
            tree: Tree::new(alloc, position),
            line: OpenLine::main(Cursor {
                node: None,
                position,
                moves: 0,
            }),
            outer: ArrayVec::new(),
        }
    }

    /// Returns whether a parenthesis is open.
    pub(crate) fn is_within(&self) -> bool
        ensures { IsTrue result ↔ (0 < length self.now.outer.items) }
    {
        !self.outer.is_empty()
    }

    /// Returns the moves that were read.
    pub(crate) fn into_tree(self) -> Tree<B>
        ensures { result ≡ self.tree }
    {
        let Reader {
            alloc: _,
            tree,
            line: _,
            outer: _,
        } = self;
        tree
    }

    /// Reads a token, and says whether it is the result.
    pub(crate) fn take(&mut self, token: Token<'_>) -> Result<bool, MovetextFault>
        requires reading { IsReading B.geometry self.old }
        ensures { (p : _) (ts : _) → HasRead B.geometry p ts self.old
            → IsTaken B.geometry p ts (token_value token.entry) self.new result }
    {
        match token.what {
            TokenKind::Comment | TokenKind::Passed => Ok(false),
            TokenKind::Opens => self.open(token),
            TokenKind::Closes => self.close(token),
            TokenKind::Written if is_result(token.text) => self.end(token),
            TokenKind::Written => self.play(token),
            TokenKind::CutOff | TokenKind::Unknown => Err(token.fault(MovetextFaultKind::Token)),
        }
    }

    /// Begins a parenthesis after the last move.
    fn open(&mut self, token: Token<'_>) -> Result<bool, MovetextFault>
        requires { token.what ≡ TokenKind.Opens }
        ensures { (p : _) (ts : _) → HasRead B.geometry p ts self.old
            → IsTaken B.geometry p ts (token_value token.entry) self.new result }
    {
        let Some(before) = self.line.before else {
            return Err(token.fault(MovetextFaultKind::Variation));
        };
        if self.outer.is_full() {
            return Err(token.fault(MovetextFaultKind::TooDeep));
        }
        self.outer.push(self.line);
        self.line = OpenLine::in_parentheses(before, self.line.now);
        Ok(false)
    }

    /// Goes back to the line around this one.
    fn close(&mut self, token: Token<'_>) -> Result<bool, MovetextFault>
        requires { token.what ≡ TokenKind.Closes }
        ensures { (p : _) (ts : _) → HasRead B.geometry p ts self.old
            → IsTaken B.geometry p ts (token_value token.entry) self.new result }
    {
        let Some(line) = self.outer.pop() else {
            return Err(token.fault(MovetextFaultKind::Variation));
        };
        self.line = line.after(&self.line);
        Ok(false)
    }

    /// Ends the play with its result, or refuses a result within parentheses.
    fn end(&self, token: Token<'_>) -> Result<bool, MovetextFault>
        requires { IsResult (token_value token) }
        ensures { (p : _) (ts : _) → HasRead B.geometry p ts self.now
            → IsTaken B.geometry p ts (token_value token.entry) self.now result }
    {
        if self.is_within() {
            Err(token.fault(MovetextFaultKind::Unclosed))
        } else {
            Ok(true)
        }
    }

    /// Plays the move that a token names, or the reply that it leaves out and then its move.
    fn play(&mut self, token: Token<'_>) -> Result<bool, MovetextFault>
        requires reading { IsReading B.geometry self.old }
        requires written { token.what ≡ TokenKind.Written }
        requires no_result { IsResult (token_value token) → ⊥ }
        ensures { (p : _) (ts : _) → HasRead B.geometry p ts self.old
            → IsTaken B.geometry p ts (token_value token.entry) self.new result }
    {
        let found = self.step_of(token)?;
        let (before, now) = note_step(&mut self.tree, &found.from, &found.step)?;
        self.line = OpenLine {
            now,
            before: Some(before),
            behind: None,
            answer: None,
            is_reply: found.is_reply,
            is_single: self.line.behind.is_some(),
        };
        Ok(false)
    }

    /// Returns how a token goes on with the innermost line.
    fn step_of(&self, token: Token<'_>) -> Result<Found<B>, MovetextFault>
        requires reading { IsReading B.geometry self.now }
        requires written { token.what ≡ TokenKind.Written }
        requires no_result { IsResult (token_value token) → ⊥ }
        ensures { (p : _) (ts : _) (h : HasRead B.geometry p ts self.now)
            → IsFoundOr B.geometry p self.now.tree.paths h.line (token_value token.entry) result }
    {
        let line = &self.line;
        if let Some(behind) = line.behind {
            return first_step(self.alloc, &line.now, &behind, token);
        }
        if let Some(answer) = line.answer {
            return step_behind(self.alloc, line, &answer, token);
        }
        Ok(Found {
            from: line.now,
            step: step_at(self.alloc, &line.now, token)?,
            is_reply: line.is_reply,
        })
    }
}

/// Notes the moves of a step after a place of a tree, and returns the places before and after the last one.
fn note_step<B: Board>(
    tree: &mut Tree<B>,
    from: &Cursor<B>,
    step: &Step<B>,
) -> Result<(Cursor<B>, Cursor<B>), AllocError>
    requires { CanNoteStep B.geometry tree.old from.now step.now }
    ensures { IfOk result (λ places. (p : _) (path : _) → tree.old.start ≡ p
        → IsCursor B.geometry p tree.old.paths from.now path
        → HasNotedStep B.geometry tree.old tree.new path (moves_of step.now) places.0 places.1) }
{
    match step {
        Step::Played(mv) => Ok((*from, note(tree, from, mv)?)),
        Step::Forced(reply, mv) => {
            let middle = note(tree, from, reply)?;
            let now = note(tree, &middle, mv)?;
            Ok((middle, now))
        }
    }
}

/// Notes a legal move after a place of a tree, and returns the place after it.
fn note<B: Board>(
    tree: &mut Tree<B>,
    from: &Cursor<B>,
    mv: &Move<B>,
) -> Result<Cursor<B>, AllocError>
    requires { CanNote B.geometry tree.old from.now mv.now }
    ensures { IfOk result (λ to. (p : _) (path : _) → tree.old.start ≡ p
        → IsCursor B.geometry p tree.old.paths from.now path
        → HasNoted B.geometry tree.old tree.new path mv.now to) }
{
    let position = play(&from.position, mv);
    let node = tree.note(from.node, mv, &position)?;
    Ok(Cursor {
        node: Some(node),
        position,
        moves: from.moves + 1,
    })
}

/// Returns how the first move token in parentheses goes on: as a variation, from the place before the move that they
/// follow, or else as a reply, from the place after it.
fn first_step<B: Board>(
    alloc: Global,
    before: &Cursor<B>,
    behind: &Cursor<B>,
    token: Token<'_>,
) -> Result<Found<B>, MovetextFault>
    requires short { before.now.moves < MAX_PATH }
    requires room { behind.now.moves ≤ MAX_PATH }
    requires written { token.what ≡ TokenKind.Written }
    requires no_result { IsResult (token_value token) → ⊥ }
    ensures { (p : _) (tree : _) (front : _) (last : _) → IsCursor B.geometry p tree before.now front
        → IsCursor B.geometry p tree behind.now (front ++ last ∷ [])
        → IsFoundOr B.geometry p tree (begins front last) (token_value token.entry) result }
{
    match move_named(alloc, &before.position, token.text) {
        Ok(mv) => Ok(Found {
            from: *before,
            step: Step::Played(mv),
            is_reply: false,
        }),
        Err(MoveFault::NoSuchMove) => Ok(Found {
            from: *behind,
            step: step_at(alloc, behind, token)?,
            is_reply: true,
        }),
        Err(MoveFault::Ambiguous) => Err(token.fault(MovetextFaultKind::Ambiguous)),
        Err(MoveFault::Syntax) => Err(token.fault(MovetextFaultKind::Token)),
        Err(MoveFault::Memory) => Err(MovetextFault::Memory),
    }
}

/// Returns how a token goes on after a reply in parentheses of one move token: from the last move of the line, and the
/// reply was by-play, or from the end of the reply.
fn step_behind<B: Board>(
    alloc: Global,
    line: &OpenLine<B>,
    answer: &Cursor<B>,
    token: Token<'_>,
) -> Result<Found<B>, MovetextFault>
    requires short { line.now.now.moves < MAX_PATH }
    requires room { answer.now.moves ≤ MAX_PATH }
    requires written { token.what ≡ TokenKind.Written }
    requires no_result { IsResult (token_value token) → ⊥ }
    ensures { (p : _) (tree : _) (kind : _) (before : _) (moves : _) (answers : _)
        → IsCursor B.geometry p tree line.entry.now.now (before ++ moves)
        → IsCursor B.geometry p tree answer.now (before ++ (moves ++ answers)) → line.entry.now.is_reply ≡ is_reply kind
        → IsFoundOr B.geometry p tree (goes_on kind before moves (Some answers)) (token_value token.entry) result }
{
    match move_named(alloc, &line.now.position, token.text) {
        Ok(mv) => Ok(Found {
            from: line.now,
            step: Step::Played(mv),
            is_reply: line.is_reply,
        }),
        Err(MoveFault::NoSuchMove) => {
            step_past(alloc, line, answer, token, MoveFault::NoSuchMove)
        }
        Err(MoveFault::Ambiguous) => step_past(alloc, line, answer, token, MoveFault::Ambiguous),
        Err(MoveFault::Syntax) => Err(token.fault(MovetextFaultKind::Token)),
        Err(MoveFault::Memory) => Err(MovetextFault::Memory),
    }
}

/// Returns how a token that names no move after the line goes on: from the end of the reply in parentheses, or else
/// from the last move of the line, after a reply that is left out.
fn step_past<B: Board>(
    alloc: Global,
    line: &OpenLine<B>,
    answer: &Cursor<B>,
    token: Token<'_>,
    why: MoveFault,
) -> Result<Found<B>, MovetextFault>
    requires short { line.now.now.moves < MAX_PATH }
    requires room { answer.now.moves ≤ MAX_PATH }
    requires written { token.what ≡ TokenKind.Written }
    requires no_result { IsResult (token_value token) → ⊥ }
    requires none { IsRead B.geometry line.now.now.position (plain token.text.now) (Err why) }
    requires kept { why ≡ MoveFault.Memory → ⊥ }
    ensures { (p : _) (tree : _) (kind : _) (before : _) (moves : _) (answers : _)
        → IsCursor B.geometry p tree line.entry.now.now (before ++ moves)
        → IsCursor B.geometry p tree answer.now (before ++ (moves ++ answers)) → line.entry.now.is_reply ≡ is_reply kind
        → IsFoundOr B.geometry p tree (goes_on kind before moves (Some answers)) (token_value token.entry) result }
{
    match step_at(alloc, answer, token) {
        Ok(step) => Ok(Found {
            from: *answer,
            step,
            is_reply: line.is_reply,
        }),
        Err(MovetextFault::Memory) => Err(MovetextFault::Memory),
        Err(MovetextFault::Refused { what, place }) => match step_missed(
            alloc, &line.now, token, why,
        ) {
            Ok(step) => Ok(Found {
                from: line.now,
                step,
                is_reply: line.is_reply,
            }),
            Err(MovetextFault::Memory) => Err(MovetextFault::Memory),
            Err(MovetextFault::Refused { what: _, place: _ }) => {
                Err(MovetextFault::Refused { what, place })
            }
        },
    }
}

/// Returns the moves that a token stands for after a place, if the path may have more.
fn step_at<B: Board>(
    alloc: Global,
    place: &Cursor<B>,
    token: Token<'_>,
) -> Result<Step<B>, MovetextFault>
    requires room { place.now.moves ≤ MAX_PATH }
    requires written { token.what ≡ TokenKind.Written }
    requires no_result { IsResult (token_value token) → ⊥ }
    ensures { (p : _) (path : _) → IsAt B.geometry p place.now path
        → IsStepAt B.geometry p path (token_value token.entry) result }
{
    match move_named(alloc, &place.position, token.text) {
        Ok(mv) if place.moves < MAX_PATH => Ok(Step::Played(mv)),
        Ok(_) => Err(token.fault(MovetextFaultKind::TooLong)),
        Err(why) => step_missed(alloc, place, token, why),
    }
}

/// Returns the moves of a token that names no single move after a place: the only reply, and the move after it.
fn step_missed<B: Board>(
    alloc: Global,
    place: &Cursor<B>,
    token: Token<'_>,
    why: MoveFault,
) -> Result<Step<B>, MovetextFault>
    requires room { place.now.moves ≤ MAX_PATH }
    requires written { token.what ≡ TokenKind.Written }
    requires no_result { IsResult (token_value token) → ⊥ }
    requires none { IsRead B.geometry place.now.position (plain token.text.now) (Err why) }
    ensures { (p : _) (path : _) → IsAt B.geometry p place.now path
        → IsMissedAt B.geometry p path (token_value token.entry) result }
{
    let is_full = place.moves >= MAX_PATH;
    if may_be_left_out(why, is_full, place.moves) {
        forced_step(alloc, &place.position, token)
    } else {
        Err(refusal(token, is_full, why))
    }
}

/// Returns whether a reply may be left out: before a token that names no legal move of the defender, who moves after an
/// odd number of moves, on a path that may have more.
fn may_be_left_out(why: MoveFault, is_full: bool, moves: usize) -> bool
    ensures { IsTrue result ↔ ((why ≡ MoveFault.NoSuchMove) × (is_full ≡ false) × (moves % 2 ≡ 1)) }
{
    matches!(why, MoveFault::NoSuchMove) && !is_full && moves % 2 == 1
}

/// Returns the moves of a token that names no legal move of the defender: his only reply, and the move after it.
fn forced_step<B: Board>(
    alloc: Global,
    position: &Position<B>,
    token: Token<'_>,
) -> Result<Step<B>, MovetextFault>
    requires { IsRead B.geometry position.now (plain token.text.now) (Err MoveFault.NoSuchMove) }
    ensures { IsForcedOr B.geometry position.now (token_value token.entry) result }
{
    let replies = legal(alloc, position)?;
    let moves = replies.as_slice();
    if moves.len() == 1 {
        return step_after(alloc, position, &moves[0], token);
    }
    if names_behind(alloc, position, moves, token.text)? {
        Err(token.fault(MovetextFaultKind::Reply))
    } else {
        Err(token.fault(MovetextFaultKind::NoSuchMove))
    }
}

/// Returns the only reply and the legal move that a token names after it.
fn step_after<B: Board>(
    alloc: Global,
    position: &Position<B>,
    reply: &Move<B>,
    token: Token<'_>,
) -> Result<Step<B>, MovetextFault>
    requires form { IsRead B.geometry position.now (plain token.text.now) (Err MoveFault.NoSuchMove) }
    requires only { IsOnlyMove B.geometry position.now reply.now }
    ensures { IsForcedOr B.geometry position.now (token_value token.entry) result }
{
    match move_named(alloc, &play(position, reply), token.text) {
        Ok(mv) => Ok(Step::Forced(*reply, mv)),
        Err(why) => Err(refusal(token, false, why)),
    }
}

/// Returns whether a text names a legal move after one of these replies.
fn names_behind<B: Board>(
    alloc: Global,
    position: &Position<B>,
    replies: &[Move<B>],
    text: &[u8],
) -> Result<bool, MovetextFault>
    requires form { IsRead B.geometry position.now (plain text.now) (Err MoveFault.NoSuchMove) }
    requires legal { (m : _) → Member m replies.now → Legal B.geometry position.now m }
    ensures { IsSearched B.geometry position.now (plain text.now) replies.now result }
{
    'replies: for reply in replies {
        if names_after(alloc, position, reply, text)? {
            return Ok(true);
        }
    }
    Ok(false)
}

/// Returns whether a text names a legal move after a reply.
fn names_after<B: Board>(
    alloc: Global,
    position: &Position<B>,
    reply: &Move<B>,
    text: &[u8],
) -> Result<bool, MovetextFault>
    requires form { IsRead B.geometry position.now (plain text.now) (Err MoveFault.NoSuchMove) }
    requires legal { Legal B.geometry position.now reply.now }
    ensures { IsSearched B.geometry position.now (plain text.now) (reply.now ∷ []) result }
{
    match move_named(alloc, &play(position, reply), text) {
        Ok(_mv) => Ok(true),
        Err(why) => names_several(why),
    }
}

/// Returns whether a text that names no single move names several.
fn names_several(why: MoveFault) -> Result<bool, MovetextFault>
    ensures { result ≡ searched_of why }
{
    match why {
        MoveFault::Ambiguous => Ok(true),
        MoveFault::NoSuchMove | MoveFault::Syntax => Ok(false),
        MoveFault::Memory => Err(MovetextFault::Memory),
    }
}

/// Returns the fault of a token that is no legal move. `is_full` says whether the path has as many moves as it may.
fn refusal(token: Token<'_>, is_full: bool, why: MoveFault) -> MovetextFault
    ensures { result ≡ refusal_of token.entry.place is_full why }
{
    match why {
        MoveFault::Memory => MovetextFault::Memory,
        MoveFault::Syntax => token.fault(MovetextFaultKind::Token),
        _ if is_full => token.fault(MovetextFaultKind::TooLong),
        MoveFault::NoSuchMove => token.fault(MovetextFaultKind::NoSuchMove),
        MoveFault::Ambiguous => token.fault(MovetextFaultKind::Ambiguous),
    }
}

/// Returns the legal move that a text names, in any of the signs for dashes and crosses.
fn move_named<B: Board>(
    alloc: Global,
    position: &Position<B>,
    text: &[u8],
) -> Result<Move<B>, MoveFault>
    ensures { IsRead B.geometry position.now (plain text.now) result }
{
    match plain(text) {
        Some(text) => read_move(alloc, position, text.as_slice()),
        None => Err(MoveFault::Syntax),
    }
}

/// Returns whether a text is a result.
fn is_result(text: &[u8]) -> bool
    ensures { IsTrue result ↔ Member (plain text.now) results }
{
    match plain(text) {
        Some(text) => is_plain_result(text.as_slice()),
        None => false,
    }
}

/// Returns whether a text with one byte for each sign is a result.
fn is_plain_result(text: &[u8]) -> bool
    ensures { IsTrue result ↔ Member text.now results }
{
    matches!(
        text,
        b"2-0" | b"0-2" | b"1-1" | b"0-0" | b"1-0" | b"0-1" | b"1/2-1/2" | b"*"
    )
}

/// Returns a text with one byte for each sign, or `None` if these are more than any move has.
fn plain(text: &[u8]) -> Option<ArrayVec<u8, MAX_MOVE_TEXT>>
    ensures { MatchOption result (MAX_MOVE_TEXT < length (plain text.now)) (λ bytes. bytes.items ≡ plain text.now) }
{
    let mut plain = ArrayVec::new();
    'bytes: for byte in text {
        if is_leading(*byte) {
            continue;
        }
        if plain.is_full() {
            return None;
        }
        plain.push(plain_byte(*byte));
    }
    Some(plain)
}

/// Returns whether a byte is the first of a dash or cross of several bytes, whose last byte says which of both it is.
fn is_leading(byte: u8) -> bool
    ensures { result ≡ is_leading byte }
{
    matches!(byte, 0xE2 | 0x80 | 0x88 | 0xC3)
}

/// Returns `-` for the last byte of a dash, `x` for that of a cross other than `X`, and other bytes as they are.
fn plain_byte(byte: u8) -> u8
    ensures { result ≡ plain_byte byte }
{
    match byte {
        0x96 | 0x91 | 0x93 | 0x92 => b'-',
        b':' | 0xD7 | 0x97 => b'x',
        _ => byte,
    }
}
