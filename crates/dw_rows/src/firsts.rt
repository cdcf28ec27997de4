//! The row of the effects of the first moves of a problem.
ghost use Rattle.std.specs.Prelude.{◌≡◌, ◌∷◌, [], ℕ, codes, IfOk, OnOk};
ghost use Rattle.std.specs.String.{string_bytes};
ghost use Rattle.dw_moves.specs.Moves as of;
ghost use Rattle.dw_first_moves.specs.FirstMoves.{HasEffect};
ghost use Rattle.dw_first_moves.specs.Telling.{effect_of, told_by};
ghost use Rattle.dw_json.specs.Rows.{Member};
ghost use Rattle.dw_json.specs.Writing.{WritesMembers};
ghost use Rattle.dw_rows.specs.FirstMovesRow.{IsEffectMember, IsFirstMoveObject, IsFirstMovesRow};

use dw_board::{Board, Position, fen_text};
use dw_first_moves::{Effect, FirstMove, FirstMoves};
use dw_json::{PutObject, begin_row, end_row, put_number, put_objects, put_text, put_texts};
use dw_moves::play::play;
use dw_notation::text_in;
use dw_report::each_move_text;
use json::Writer;
use std::alloc::{AllocError, Global};

/// Makes the row of first moves with their effects within `moves` moves.
pub fn first_moves_row<B: Board>(
    alloc: Global,
    number: u32,
    moves: u8,
    found: &FirstMoves<B>,
) -> Result<String, AllocError>
    ensures { IfOk result (λ line. IsFirstMovesRow B.geometry number found.now.start moves found.now.effects
        (string_bytes line)) }
{
    let position = found.position();
    let each = FirstMovesOf {
        alloc,
        position: &position,
    };
    let mut row = begin_row(alloc)?;
    put_number(&mut row, "problem", number.into())?;
    put_text(&mut row, "fen", fen_text(&position).as_str())?;
    put_number(&mut row, "n", moves.into())?;
    put_number(&mut row, "winning", found.wins() as u64)?;
    put_objects(&mut row, "moves", found.as_slice(), &each)?;
    end_row(row)
}

/// The first moves of a position, as objects.
#[derive(Clone, Copy)]
struct FirstMovesOf<'a, B: Board> {
    alloc: Global,
    position: &'a Position<B>,
}

impl<B: Board> PutObject<FirstMove<B>> for FirstMovesOf<'_, B> {
    ghost asks = { λ it one. (n : ℕ) × HasEffect B.geometry it.position.now n one.mv (effect_of one.effect) };

    ghost says = { λ it one members. IsFirstMoveObject B.geometry it.position.now (told_by one) members };

    fn put(&self, row: &mut Writer, item: &FirstMove<B>) -> Result<(), AllocError> {
        let text = text_in(self.alloc, self.position, &item.mv)?;
        let after = play(self.position, &item.mv);
        put_text(row, "move", text.as_str())?;
        put_text(row, "fen", fen_text(&after).as_str())?;
        put_effect(self.alloc, row, &after, &item.effect)
    }
}

/// Writes the member for the effect of a first move, by the position after the move.
fn put_effect<B: Board>(
    alloc: Global,
    row: &mut Writer,
    after: &Position<B>,
    effect: &Effect<B>,
) -> Result<(), AllocError>
    requires { (p : _) × (n : ℕ) × (m : of.Move) × HasEffect B.geometry p n m (effect_of effect.now)
        × (after.now ≡ of.play B.geometry p m) }
    ensures { (p : _) (m : of.Move) → after.now ≡ of.play B.geometry p m
        → OnOk result ((one : Member) × IsEffectMember B.geometry p m (effect_of effect.now) one
        × WritesMembers (one ∷ []) row.old row.new) }
{
    match effect {
        Effect::WinsIn(moves) => put_number(row, "wins_in", (*moves).into()),
        Effect::RefutedBy(replies) => {
            let texts = each_move_text(alloc, after, replies.as_slice())?;
            put_texts(row, "refuted_by", texts.as_slice())
        }
    }
}
