//! The rows of JSON of `show` and `moves`, each an object in a line.
ghost use Rattle.std.specs.Prelude.{◌≡◌, ◌<◌, [], HoldsAt, IfOk, IsOkAnd, length, map};
ghost use Rattle.std.specs.String.{string_bytes};
ghost use Rattle.dw_moves.specs.Order.{AreListed};
ghost use Rattle.dw_report.specs.JsonRows.{IsMovesRow, refused_row, shown_row as row_shown};
ghost use Rattle.dw_report.specs.inner.Rows.{move_pair};
ghost use Rattle.dw_report.specs.declared.problem.TextFault.TheVariants as because;
ghost use Rattle.dw_report.specs.inner.Running.{SinkEnds, TextEnds};
ghost use Rattle.dw_solve.specs.declared.stop.Stop.TheVariants as stops;

use crate::problem::TextFault;
use crate::text::refusal_text;
use dw_board::{Board, Position, fen_text};
use dw_json::{begin_row, end_row, put_number, put_pairs, put_text};
use dw_moves::Listed;
use dw_moves::best::best;
use dw_moves::listed::listed;
use dw_moves::play::play;
use dw_notation::move_text::move_text;
use dw_notation::{ProblemFault, Sink, write_all};
use dw_solve::Stop;
use std::alloc::{AllocError, Global};

/// Makes the row of a problem that is refused.
pub fn refused_line(alloc: Global, number: u32, fault: ProblemFault) -> Result<String, AllocError>
    ensures { IfOk result (λ line. string_bytes line ≡ refused_row number fault) }
{
    let mut row = begin_row(alloc)?;
    put_number(&mut row, "problem", number.into())?;
    put_text(&mut row, "refused", refusal_text(fault).as_str())?;
    end_row(row)
}

/// Makes the row of a position.
pub(crate) fn shown_row<B: Board>(
    alloc: Global,
    number: u32,
    position: &Position<B>,
) -> Result<String, AllocError>
    ensures { IfOk result (λ line. string_bytes line ≡ row_shown B.geometry number position.now) }
{
    let mut row = begin_row(alloc)?;
    put_number(&mut row, "problem", number.into())?;
    put_text(&mut row, "fen", fen_text(position).as_str())?;
    end_row(row)
}

/// Makes the row of the legal moves of a position.
pub(crate) fn moves_row<B: Board>(
    alloc: Global,
    number: u32,
    position: &Position<B>,
) -> Result<String, AllocError>
    ensures { IfOk result (λ line. IsMovesRow B.geometry number position.now (string_bytes line)) }
{
    let list = listed(alloc, position)?;
    let pairs = move_pairs(alloc, position, list.as_slice())?;
    let mut row = begin_row(alloc)?;
    put_number(&mut row, "problem", number.into())?;
    put_text(&mut row, "fen", fen_text(position).as_str())?;
    put_number(&mut row, "taking", best(position).into())?;
    put_pairs(&mut row, "moves", pairs.as_slice())?;
    end_row(row)
}

/// Returns the text of each move of a list, and the position after it. The list must have all legal moves in order.
fn move_pairs<B: Board>(
    alloc: Global,
    position: &Position<B>,
    list: &[Listed<B>],
) -> Result<Vec<(String, String)>, AllocError>
    requires { AreListed B.geometry position.now list.now }
    ensures { IfOk result (λ pairs. map (λ pair. (string_bytes pair.0, string_bytes pair.1)) pairs.items
        ≡ map (move_pair B.geometry position.now list.now) list.now) }
{
    let mut pairs = Vec::new(alloc);
    'moves: for place in 0..list.len() {
        pairs.push(move_words(alloc, position, list, place)?)?;
    }
    Ok(pairs)
}

/// Returns the text of the move at a place of a list, and the position after it.
fn move_words<B: Board>(
    alloc: Global,
    position: &Position<B>,
    list: &[Listed<B>],
    place: usize,
) -> Result<(String, String), AllocError>
    requires all { AreListed B.geometry position.now list.now }
    requires place { place < length list.now }
    ensures { IfOk result (λ words. HoldsAt (λ item. (string_bytes words.0, string_bytes words.1)
        ≡ move_pair B.geometry position.now list.now item) list.now place) }
{
    let item = &list[place];
    let after = play(position, &item.step);
    let text = String::from_str(alloc, move_text(list, place).as_str())?;
    let fen = String::from_str(alloc, fen_text(&after).as_str())?;
    Ok((text, fen))
}

/// Writes the row of a problem, unless memory was refused for it, and then returns whether the problem is refused.
pub(crate) fn write_row<K: Sink>(
    sink: &mut K,
    row: Result<String, AllocError>,
    is_refused: bool,
) -> Result<bool, TextFault>
    ensures text { TextEnds (λ text. IsOkAnd row (λ line. text ≡ string_bytes line)) (λ out. out ≡ [])
        (K.accepted sink.old) (K.accepted sink.new) result }
    ensures sink { SinkEnds (K.is_failed sink.old) (K.is_failed sink.new) result }
    ensures memory { (why : Stop) → result ≡ Err (because.Stopped why) → why ≡ stops.Memory }
    ensures refused { IfOk result (λ refused. refused ≡ is_refused) }
{
    match row {
        Ok(line) => {
            write_all(sink, line.as_str().as_bytes())?;
            Ok(is_refused)
        }
        Err(_) => Err(TextFault::Stopped(Stop::Memory)),
    }
}
