//! The rows of JSON of `find`, each an object in a line.
ghost use Rattle.std.specs.Prelude.{◌≡◌, ℕ, ◌∷◌, [], Bool, List, codes, IfOk, OnOk};
ghost use Rattle.std.specs.String.{string_bytes};
ghost use Rattle.json.specs.Json.{string};
ghost use Rattle.dw_desk_commands.specs.FindJson.{AreAfterKeys, AreFound, AreSolutionMembers, IsFoundRow};
ghost use Rattle.dw_desk_commands.specs.FindJson.{before_keys, verdict_word};
ghost use Rattle.dw_desk_commands.specs.FindLater.{member_of};
ghost use Rattle.dw_desk_commands.specs.inner.LaterTold.{later_told};
ghost use Rattle.dw_json.specs.Rows.{Member, count};
ghost use Rattle.dw_json.specs.Writing.{WritesMembers};
ghost use Rattle.dw_verdict.specs.Judging.{said_by};
ghost use Rattle.dw_verdict.specs.Verdict.{IsVerdict, Tries};
ghost use Rattle.dw_study.specs.Finding.{IsFinding, judged as found_judged};
ghost use Rattle.dw_study.specs.Telling.{told_by};

use dw_arguments::USUAL_LINES;
use dw_board::{Board, Position, fen_text};
use dw_json::{begin_row, end_row, put_counts, put_number, put_pairs, put_text, put_texts};
use dw_report::{dual_texts, key_texts, try_texts};
use dw_rows::put_lines;
use dw_solution::FirstLines;
use dw_study::Finding;
use dw_verdict::{Judged, Verdict};
use json::Writer;
use std::alloc::{AllocError, Global};

/// Makes the row of a position and of the result of the search, with the first lines of the solution and the texts of
/// later wins if they are there.
pub(crate) fn found_line<B: Board>(
    alloc: Global,
    number: u32,
    position: &Position<B>,
    finding: &Finding<B>,
    solution: &Option<FirstLines<B>>,
    later: &Option<Vec<(String, u8)>>,
) -> Result<String, AllocError>
    requires { (is_least : Bool) × (moves : ℕ)
        × IsFinding B.geometry position.now is_least moves (told_by finding.now) }
    ensures { IfOk result (λ line.
        IsFoundRow B.geometry number position.now (told_by finding.now) solution.now (later_told later.now)
        (string_bytes line)) }
{
    let mut row = begin_row(alloc)?;
    put_number(&mut row, "problem", number.into())?;
    put_text(&mut row, "fen", fen_text(position).as_str())?;
    put_found(alloc, &mut row, position, finding)?;
    put_solution(alloc, &mut row, solution)?;
    put_later(&mut row, later)?;
    end_row(row)
}

/// Writes the member for later wins, if they are there.
fn put_later(row: &mut Writer, later: &Option<Vec<(String, u8)>>) -> Result<(), AllocError>
    ensures { OnOk result (WritesMembers (member_of (later_told later.now)) row.old row.new) }
{
    match later {
        Some(texts) => put_counts(row, "later", texts.as_slice()),
        None => Ok(()),
    }
}

/// Writes the members for the first lines of the solution, if they are there.
fn put_solution<B: Board>(
    alloc: Global,
    row: &mut Writer,
    solution: &Option<FirstLines<B>>,
) -> Result<(), AllocError>
    ensures { OnOk result ((members : List Member) × AreSolutionMembers B.geometry solution.now members
        × WritesMembers members row.old row.new) }
{
    match solution {
        Some(first) => put_lines(alloc, row, first, USUAL_LINES),
        None => Ok(()),
    }
}

/// Writes the members for the result of the search.
fn put_found<B: Board>(
    alloc: Global,
    row: &mut Writer,
    position: &Position<B>,
    finding: &Finding<B>,
) -> Result<(), AllocError>
    requires { (is_least : Bool) × (moves : ℕ)
        × IsFinding B.geometry position.now is_least moves (told_by finding.now) }
    ensures { OnOk result ((members : List Member) × AreFound B.geometry position.now (told_by finding.now) members
        × WritesMembers members row.old row.new) }
{
    match finding {
        Finding::Judged { moves, judged } => put_judged(alloc, row, position, moves.value, judged),
        Finding::Undecided { no_win_in } => put_undecided(row, *no_win_in),
    }
}

/// Writes the members of a problem whose number of moves is not known.
fn put_undecided(row: &mut Writer, no_win_in: u8) -> Result<(), AllocError>
    ensures { OnOk result (WritesMembers ((codes "verdict", string (codes "undecided"))
        ∷ (codes "no_win_in", count no_win_in) ∷ []) row.old row.new) }
{
    put_text(row, "verdict", "undecided")?;
    put_number(row, "no_win_in", no_win_in.into())
}

/// Writes the members for a verdict and the tries.
fn put_judged<B: Board>(
    alloc: Global,
    row: &mut Writer,
    position: &Position<B>,
    moves: u8,
    judged: &Judged<B>,
) -> Result<(), AllocError>
    requires verdict { IsVerdict B.geometry position.now moves (said_by judged.now.verdict) }
    requires tries { Tries B.geometry position.now moves judged.now.tries.items }
    ensures { OnOk result ((members : List Member) × AreFound B.geometry position.now
        (found_judged moves (said_by judged.now.verdict) judged.now.tries.items) members
        × WritesMembers members row.old row.new) }
{
    let keys = key_texts(alloc, position, &judged.verdict)?;
    let tries = try_texts(alloc, position, judged.tries.as_slice())?;
    put_number(row, "n", moves.into())?;
    put_text(row, "verdict", name_of(&judged.verdict))?;
    put_shortest(row, &judged.verdict)?;
    put_texts(row, "keys", keys.as_slice())?;
    put_choice(alloc, row, position, &judged.verdict)?;
    put_pairs(row, "tries", tries.as_slice())
}

/// Writes the least number of moves, if a problem is cooked.
fn put_shortest<B: Board>(row: &mut Writer, verdict: &Verdict<B>) -> Result<(), AllocError>
    ensures { OnOk result (WritesMembers (before_keys (said_by verdict.now)) row.old row.new) }
{
    match verdict {
        Verdict::Cooked { shortest, .. } => put_number(row, "shortest", (*shortest).into()),
        Verdict::Unsolvable | Verdict::Dual { .. } | Verdict::Sound { .. } => Ok(()),
    }
}

/// Writes the line up to a choice and the choices, if there is a dual.
fn put_choice<B: Board>(
    alloc: Global,
    row: &mut Writer,
    position: &Position<B>,
    verdict: &Verdict<B>,
) -> Result<(), AllocError>
    requires { (n : ℕ) × IsVerdict B.geometry position.now n (said_by verdict.now) }
    ensures { OnOk result ((members : List Member) × AreAfterKeys B.geometry position.now (said_by verdict.now) members
        × WritesMembers members row.old row.new) }
{
    match verdict {
        Verdict::Dual { at, choices } => {
            let (line, moves) = dual_texts(alloc, position, at.as_slice(), choices.as_slice())?;
            put_text(row, "at", line.as_str())?;
            put_texts(row, "choices", moves.as_slice())
        }
        Verdict::Unsolvable | Verdict::Cooked { .. } | Verdict::Sound { .. } => Ok(()),
    }
}

/// Returns the word of a verdict.
fn name_of<B: Board>(verdict: &Verdict<B>) -> &'static str
    ensures { result.now ≡ verdict_word (said_by verdict.now) }
{
    match verdict {
        Verdict::Unsolvable => "unsolvable",
        Verdict::Cooked { .. } => "cooked",
        Verdict::Dual { .. } => "dual",
        Verdict::Sound { .. } => "sound",
    }
}
