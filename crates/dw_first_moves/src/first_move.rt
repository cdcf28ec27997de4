//! First moves and their effects.
ghost use Rattle.std.specs.Prelude.{◌≡◌, map};
ghost use Rattle.dw_first_moves.specs.FirstMoves.{HaveEffects};
ghost use Rattle.dw_first_moves.specs.FirstMovesText as of_text;
ghost use Rattle.dw_first_moves.specs.Telling.{told_by};

use dw_board::{Board, Position};
use dw_moves::Move;
use std::marker::Model;

/// The effect of a first move within some number of moves.
#[derive(Drop)]
pub enum Effect<B: Board> {
    /// It wins, within this number of moves and not within fewer.
    WinsIn(u8),
    /// It does not win: these are all replies after which there is no win within the moves then left, in order.
    RefutedBy(Vec<Move<B>>),
}

/// A first move and its effect.
#[derive(Drop)]
pub struct FirstMove<B: Board> {
    pub mv: Move<B>,
    pub effect: Effect<B>,
}

/// Some first moves of a position with their effects, in the order of moves.
#[derive(Drop)]
pub struct FirstMoves<B: Board> {
    pub(crate) position: Position<B>,
    pub(crate) moves: Vec<FirstMove<B>>,
}

impl<B: Board> Model for FirstMoves<B> {
    ghost use Rattle.std.specs.Prelude.{map};
    ghost use Rattle.dw_first_moves.specs.FirstMoves.{EffectsFrom, HaveEffects};
    ghost use Rattle.dw_first_moves.specs.Telling.{told_by};
    ghost use Rattle.dw_first_moves.specs.inner.EffectCodes.{effects_code};

    ghost Value = { EffectsFrom };

    ghost coded = { effects_code };

    ghost view = { λ f. record { start = f.position; effects = map told_by f.moves.items } };

    ghost invariant = { λ f. HaveEffects B.geometry f.position (map told_by f.moves.items) };
}

impl<B: Board> FirstMoves<B> {
    ghost use Rattle.dw_first_moves.specs.FirstMovesText.{wins_among};

    /// Returns the position in which the moves are played.
    pub fn position(&self) -> Position<B>
        ensures { result ≡ self.now.start }
    {
        self.position
    }

    /// Returns the moves with their effects.
    pub fn as_slice(&self) -> &[FirstMove<B>]
        ensures effects { map told_by result.now ≡ self.now.effects }
        ensures right { HaveEffects B.geometry self.now.start self.now.effects }
    {
        self.moves.as_slice()
    }

    /// Counts the moves that win.
    pub fn wins(&self) -> usize
        ensures { result ≡ wins_among self.now.effects }
    {
        wins_among(self.moves.as_slice())
    }
}

/// Counts the first moves that win.
fn wins_among<B: Board>(moves: &[FirstMove<B>]) -> usize
    ensures { result ≡ of_text.wins_among (map told_by moves.now) }
{
    let mut wins = 0;
    'moves: for one in moves {
        if matches!(one.effect, Effect::WinsIn(_)) {
            wins += 1;
        }
    }
    wins
}
