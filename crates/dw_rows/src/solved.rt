//! The row of the solution of a problem, and the members of a solution in a row.
ghost use Rattle.std.specs.Prelude.{◌≡◌, IfOk, List, OnOk};
ghost use Rattle.std.specs.String.{string_bytes};
ghost use Rattle.dw_json.specs.Rows.{Member};
ghost use Rattle.dw_json.specs.Writing.{WritesMembers};
ghost use Rattle.dw_moves.specs.Moves.{Legal};
ghost use Rattle.dw_rows.specs.SolutionRow.{AreLineMembers, IsPlacedObject, IsSolutionRow};
ghost use Rattle.dw_solution.specs.Telling.{placed_by};

use dw_board::{Board, fen_text};
use dw_json::{PutObject, begin_row, end_row, put_flag, put_number, put_objects, put_text};
use dw_moves::play::play;
use dw_notation::text_in;
use dw_solution::{FirstLines, Heading, PlacedMove, placed_moves};
use json::Writer;
use std::alloc::{AllocError, Global};

/// Makes the row of a solution: its verdict, and the moves of the tree of the first `lines` lines.
pub fn solution_row<B: Board>(
    alloc: Global,
    number: u32,
    heading: Heading,
    first: &FirstLines<B>,
    lines: usize,
) -> Result<String, AllocError>
    ensures { IfOk result (λ line. IsSolutionRow B.geometry number heading first.now lines (string_bytes line)) }
{
    let mut row = begin_row(alloc)?;
    put_number(&mut row, "problem", number.into())?;
    put_text(&mut row, "fen", fen_text(&first.position()).as_str())?;
    put_number(&mut row, "n", heading.moves.into())?;
    put_text(&mut row, "verdict", heading.kind.word())?;
    put_lines(alloc, &mut row, first, lines)?;
    end_row(row)
}

/// Writes the members of the first `lines` lines: whether there are more, and the moves of their tree.
pub fn put_lines<B: Board>(
    alloc: Global,
    row: &mut Writer,
    first: &FirstLines<B>,
    lines: usize,
) -> Result<(), AllocError>
    ensures { OnOk result ((members : List Member) × AreLineMembers B.geometry first.now lines members
        × WritesMembers members row.old row.new) }
{
    let moves = placed_moves(alloc, first, lines)?;
    put_flag(row, "more", first.is_cut(lines))?;
    put_objects(row, "moves", moves.as_slice(), &PlacedMoves { alloc })
}

/// Moves in their places, as objects.
#[derive(Clone, Copy)]
struct PlacedMoves {
    alloc: Global,
}

impl<B: Board> PutObject<PlacedMove<B>> for PlacedMoves {
    ghost asks = { λ it one. Legal B.geometry one.before one.mv };

    ghost says = { λ it one members. IsPlacedObject B.geometry (placed_by one) members };

    fn put(&self, row: &mut Writer, item: &PlacedMove<B>) -> Result<(), AllocError> {
        let text = text_in(self.alloc, &item.before, &item.mv)?;
        let after = play(&item.before, &item.mv);
        put_number(row, "depth", item.depth as u64)?;
        put_text(row, "move", text.as_str())?;
        put_text(row, "fen", fen_text(&after).as_str())
    }
}
