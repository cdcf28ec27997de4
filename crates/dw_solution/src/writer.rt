//! Writing the words of a tree, each with a gap before it.
ghost use Rattle.std.specs.Prelude.{◌≡◌, ◌+◌, ◌^◌, ◌<◌, ◌++◌, OnOk, IfOk, length, List, ℕ};
ghost use Rattle.dw_moves.specs.Moves as of;
ghost use Rattle.dw_moves.specs.Moves.{Legal};
ghost use Rattle.dw_solution.specs.Movetext as movetext;
ghost use Rattle.dw_solution.specs.Movetext.{AreWordsOfFirst, last_words};
ghost use Rattle.dw_solution.specs.FirstLines.{is_cut};
ghost use Rattle.dw_solution.specs.Words.{AreWords, AreVariations, has_move, number_word, number_words, spaced};
ghost use Rattle.dw_solution.specs.Words as words;
ghost use Rattle.dw_solution.specs.declared.style.Mark.TheVariants.{Gap, Opening};
ghost use Rattle.dw_solution.specs.inner.Steps.{tree_at, IsPlayable};
ghost use Rattle.dw_solution.specs.inner.Feeds.{IsAdded, IsMoveAdded};

use crate::listed::FirstLines;
use crate::step::{TreeStep, first_at};
use crate::style::{Mark, MovetextStyle};
use dw_board::{Board, Position, Side};
use dw_moves::Move;
use dw_moves::play::play;
use dw_notation::text_in;
use itoa::Buffer;
use std::alloc::{AllocError, Global};

/// Appends the words of the first `lines` lines, or of all if there are fewer: those of their tree, the comment that
/// there are more lines, if there are, and the result. Each word has a gap before it.
pub fn write_styled<B: Board, S: MovetextStyle<B>>(
    alloc: Global,
    style: S,
    first: &FirstLines<B>,
    lines: usize,
    text: &mut Vec<u8>,
) -> Result<(), AllocError>
    ensures { OnOk result ((words : List (List ℕ)) × AreWordsOfFirst (S.shown style) B.geometry first.now lines words
        × (text.new.items ≡ text.old.items ++ spaced (S.shown style) words)) }
{
    let writer = Writer { alloc, style };
    let position = first.position();
    let start = WriteState {
        position,
        depth: 0,
        half: first_half(position.turn()),
    };
    let steps = first.steps(lines.min(first.len()));
    writer.write_play(text, steps, &start, true)?;
    writer.write_last(text, first, lines)
}

/// Returns the half turn of the first move: 0 for White, 1 for Black.
fn first_half(side: Side) -> usize
    ensures { result ≡ movetext.first_half side }
{
    match side {
        Side::White => 0,
        Side::Black => 1,
    }
}

/// Returns the result: a win of the side to move if there is a line, else `*`.
fn result_of<B: Board>(first: &FirstLines<B>) -> &'static str
    ensures { result.now ≡ movetext.result_of first.now.start.turn first.now.lines }
{
    if first.len() == 0 {
        return "*";
    }
    match first.position().turn() {
        Side::White => "2-0",
        Side::Black => "0-2",
    }
}

/// A place in a tree: the position there, the number of moves before it, and its half turn, counted from 0 at a move of
/// White's.
#[derive(Clone, Copy)]
struct WriteState<B: Board> {
    position: Position<B>,
    depth: usize,
    half: usize,
}

/// Returns the place after a move.
fn behind<B: Board>(state: &WriteState<B>, mv: &Move<B>) -> WriteState<B>
    requires legal { Legal B.geometry state.now.position mv.now }
    requires depth { state.now.depth + 1 < 2 ^ 64 }
    requires half { state.now.half + 1 < 2 ^ 64 }
    ensures { result ≡ record {
      position = of.play B.geometry state.now.position mv.now;
      depth = state.now.depth + 1;
      half = state.now.half + 1;
    } }
{
    WriteState {
        position: play(&state.position, mv),
        depth: state.depth + 1,
        half: state.half + 1,
    }
}

/// Writes words in a style.
#[derive(Clone, Copy)]
struct Writer<S> {
    alloc: Global,
    style: S,
}

impl<S> Writer<S> {
    /// Writes the play at a place: the first move, the others in its place as variations, and the play after the first.
    #[cycle(play)]
    fn write_play<B: Board>(
        &self,
        text: &mut Vec<u8>,
        steps: &[TreeStep<B>],
        state: &WriteState<B>,
        due: bool,
    ) -> Result<(), AllocError>
    where
        S: MovetextStyle<B>,
        requires depth { state.now.depth + length steps.now < 2 ^ 64 }
        requires half { state.now.half + length steps.now < 2 ^ 64 }
        requires playable { IsPlayable B.geometry state.now.position (tree_at steps.now state.now.depth) }
        ensures { OnOk result (IsAdded (S.shown self.now.style) (AreWords (S.shown self.now.style) B.geometry
            state.now.position state.now.half due (tree_at steps.now state.now.depth)) text.old.items text.new.items) }
    {
        let Some(first) = first_at(steps, state.depth) else {
            return Ok(());
        };
        let next = behind(state, &first.mv);
        self.write_due_number(text, state, due)?;
        self.write_move(text, &first.mv, &state.position, &next.position)?;
        let branches = self.write_variations(text, first.rest, state)?;
        self.write_play(text, first.rest, &next, branches)
    }

    /// Writes the moves at a place as variations, each with the play after it, and returns whether there are any.
    #[cycle(play)]
    fn write_variations<B: Board>(
        &self,
        text: &mut Vec<u8>,
        steps: &[TreeStep<B>],
        state: &WriteState<B>,
    ) -> Result<bool, AllocError>
    where
        S: MovetextStyle<B>,
        requires depth { state.now.depth + length steps.now + 1 < 2 ^ 64 }
        requires half { state.now.half + length steps.now + 1 < 2 ^ 64 }
        requires playable { IsPlayable B.geometry state.now.position (tree_at steps.now state.now.depth) }
        ensures some { IfOk result (λ some. some ≡ has_move (tree_at steps.now state.now.depth)) }
        ensures words { OnOk result (IsAdded (S.shown self.now.style) (AreVariations (S.shown self.now.style) B.geometry
            state.now.position state.now.half (tree_at steps.now state.now.depth)) text.old.items text.new.items) }
    {
        let mut some = false;
        let mut left = steps;
        'moves: while let Some(first) = first_at(left, state.depth) {
            let next = behind(state, &first.mv);
            self.open(text, state)?;
            self.write_move(text, &first.mv, &state.position, &next.position)?;
            self.write_play(text, first.rest, &next, false)?;
            self.style.push_mark(text, Mark::Closing)?;
            some = true;
            left = first.rest;
        }
        Ok(some)
    }

    /// Begins a variation with the number of its first move.
    fn open<B: Board>(&self, text: &mut Vec<u8>, state: &WriteState<B>) -> Result<(), AllocError>
    where
        S: MovetextStyle<B>,
        ensures { OnOk result (text.new.items ≡ text.old.items ++ (S.shown self.now.style (words.mark Gap)
            ++ (S.shown self.now.style (words.mark Opening) ++ number_word (S.shown self.now.style) state.now.half))) }
    {
        self.style.push_mark(text, Mark::Gap)?;
        self.style.push_mark(text, Mark::Opening)?;
        self.write_number(text, state)
    }

    /// Writes the number of a move at a half turn: of one of White's always, of one of Black's if it is due.
    fn write_due_number<B: Board>(
        &self,
        text: &mut Vec<u8>,
        state: &WriteState<B>,
        due: bool,
    ) -> Result<(), AllocError>
    where
        S: MovetextStyle<B>,
        ensures { OnOk result (text.new.items ≡ text.old.items
            ++ spaced (S.shown self.now.style) (number_words (S.shown self.now.style) state.now.half due)) }
    {
        if due || state.half % 2 == 0 {
            self.style.push_mark(text, Mark::Gap)?;
            self.write_number(text, state)?;
        }
        Ok(())
    }

    /// Writes the number of a turn with its dots.
    fn write_number<B: Board>(
        &self,
        text: &mut Vec<u8>,
        state: &WriteState<B>,
    ) -> Result<(), AllocError>
    where
        S: MovetextStyle<B>,
        ensures { OnOk result (text.new.items ≡ text.old.items ++ number_word (S.shown self.now.style) state.now.half) }
    {
        let mut digits = Buffer::new();
        let number = digits.format(state.half / 2 + 1);
        self.style.push_text(text, number)?;
        self.style.push_text(text, dots(state.half))
    }

    /// Writes a move, given the positions before and after it.
    fn write_move<B: Board>(
        &self,
        text: &mut Vec<u8>,
        mv: &Move<B>,
        before: &Position<B>,
        after: &Position<B>,
    ) -> Result<(), AllocError>
    where
        S: MovetextStyle<B>,
        requires legal { Legal B.geometry before.now mv.now }
        requires after { after.now ≡ of.play B.geometry before.now mv.now }
        ensures { OnOk result (IsMoveAdded (S.shown self.now.style) B.geometry before.now mv.now text.old.items
            text.new.items) }
    {
        let word = text_in(self.alloc, before, mv)?;
        self.style.push_mark(text, Mark::Gap)?;
        self.style.push_move(text, word.as_str(), after)
    }

    /// Writes the words after the play.
    fn write_last<B: Board>(
        &self,
        text: &mut Vec<u8>,
        first: &FirstLines<B>,
        lines: usize,
    ) -> Result<(), AllocError>
    where
        S: MovetextStyle<B>,
        ensures { OnOk result (text.new.items ≡ text.old.items
            ++ spaced (S.shown self.now.style) (last_words (S.shown self.now.style) (is_cut first.now lines)
            (movetext.result_of first.now.start.turn first.now.lines))) }
    {
        if first.is_cut(lines) {
            self.style.push_mark(text, Mark::Gap)?;
            self.style.push_mark(text, Mark::MoreLines)?;
        }
        self.style.push_mark(text, Mark::Gap)?;
        self.style.push_text(text, result_of(first))
    }
}

/// Returns the dots after the number of a turn.
fn dots(half: usize) -> &'static str
    ensures { result.now ≡ words.dots half }
{
    if half % 2 == 0 { "." } else { "..." }
}
