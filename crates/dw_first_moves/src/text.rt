//! The texts of first moves.
ghost use Rattle.std.specs.Prelude.{◌≡◌, ℕ, List, length, map, IfOk};
ghost use Rattle.std.specs.String.{string_bytes};
ghost use Rattle.dw_board.specs.Lists.{Member};
ghost use Rattle.dw_moves.specs.Moves as of;
ghost use Rattle.dw_first_moves.specs.FirstMoves.{HasEffect};
ghost use Rattle.dw_first_moves.specs.FirstMovesText.{AreEffectLines, IsEffectLine, IsEffectText, IsFirstMovesText};
ghost use Rattle.dw_first_moves.specs.FirstMovesText as of_text;
ghost use Rattle.dw_first_moves.specs.Telling.{effect_of, told_by};

use crate::first_move::{Effect, FirstMove, FirstMoves};
use dw_board::{Board, Position};
use dw_moves::Move;
use dw_moves::play::play;
use dw_notation::text_in;
use dw_report::joined_text;
use itoa::Buffer;
use std::alloc::{AllocError, Global};

/// Writes first moves with their effects: a line for each, and a last line with the number of those that win.
pub fn first_moves_text<B: Board>(
    alloc: Global,
    found: &FirstMoves<B>,
) -> Result<String, AllocError>
    ensures { IfOk result (λ text. IsFirstMovesText B.geometry found.now.start found.now.effects (string_bytes text)) }
{
    let position = found.position();
    let moves = found.as_slice();
    let mut text = String::new(alloc);
    'moves: for one in moves {
        let line = effect_line(alloc, &position, one)?;
        text.push_str(line.as_str())?;
    }
    let line = count_line(alloc, found.wins(), moves.len())?;
    text.push_str(line.as_str())?;
    Ok(text)
}

/// Writes the line of a first move.
fn effect_line<B: Board>(
    alloc: Global,
    position: &Position<B>,
    one: &FirstMove<B>,
) -> Result<String, AllocError>
    requires { (n : ℕ) × HasEffect B.geometry position.now n one.now.mv (effect_of one.now.effect) }
    ensures { IfOk result (λ line. IsEffectLine B.geometry position.now (told_by one.now) (string_bytes line)) }
{
    let mv = text_in(alloc, position, &one.mv)?;
    let effect = effect_text(alloc, &play(position, &one.mv), &one.effect)?;
    [mv.as_str(), effect.as_str(), "\n"].concat(alloc)
}

/// Writes the effect of a first move in words, by the position after the move.
fn effect_text<B: Board>(
    alloc: Global,
    after: &Position<B>,
    effect: &Effect<B>,
) -> Result<String, AllocError>
    requires { (p : _) × (n : ℕ) × (m : of.Move) × HasEffect B.geometry p n m (effect_of effect.now)
        × (after.now ≡ of.play B.geometry p m) }
    ensures { (p : _) (m : of.Move) → after.now ≡ of.play B.geometry p m
        → IfOk result (λ text. IsEffectText B.geometry p m (effect_of effect.now) (string_bytes text)) }
{
    match effect {
        Effect::WinsIn(moves) => [" wins in ", Buffer::new().format(*moves)].concat(alloc),
        Effect::RefutedBy(replies) => {
            let joined = joined_text(alloc, after, replies.as_slice(), ", ")?;
            [" refuted by ", joined.as_str()].concat(alloc)
        }
    }
}

/// Writes the last line: how many first moves win, of how many.
fn count_line(alloc: Global, wins: usize, all: usize) -> Result<String, AllocError>
    ensures { (done : _) → wins ≡ of_text.wins_among done → all ≡ length done
        → IfOk result (λ line. string_bytes line ≡ of_text.count_line done) }
{
    let mut digits = Buffer::new();
    let mut places = Buffer::new();
    [digits.format(wins), " of ", places.format(all), " win\n"].concat(alloc)
}
