//! The verdict and the tries of a problem, as rows of a page.
ghost use Rattle.std.specs.Prelude.{◌≡◌, ◌≤◌, ◌++◌, ℕ, IfOk, codes, decimal, length, map};
ghost use Rattle.std.specs.String.{string_bytes};
ghost use Rattle.dw_desk_commands.specs.Page.{AreRowsShown, AreTryRows, IsVerdictRow, shorter, try_row};
ghost use Rattle.dw_desk_commands.specs.Page as of;
ghost use Rattle.dw_page.specs.Words as words;
ghost use Rattle.dw_verdict.specs.Judging.{said_by};
ghost use Rattle.dw_verdict.specs.Verdict.{IsVerdict, Tries, dual};

use dw_arguments::PageTries;
use dw_board::{Board, Position};
use dw_moves::Move;
use dw_page::{Language, Phrase};
use dw_report::{dual_texts, key_texts, try_texts};
use dw_verdict::{Judged, Verdict};
use itoa::Buffer;
use std::alloc::{AllocError, Global};

/// Makes the row of a verdict, with the moves that it names.
pub(crate) fn verdict_row<B: Board>(
    alloc: Global,
    language: Language,
    position: &Position<B>,
    moves: u8,
    judged: &Judged<B>,
) -> Result<String, AllocError>
    requires { IsVerdict B.geometry position.now moves (said_by judged.now.verdict) }
    ensures { IfOk result (λ row. IsVerdictRow B.geometry language position.now moves (said_by judged.now.verdict)
        (string_bytes row)) }
{
    let keys = key_texts(alloc, position, &judged.verdict)?;
    let joined = keys.as_slice().join(alloc, ", ")?;
    let listed = joined.as_str();
    match &judged.verdict {
        Verdict::Unsolvable => no_win_row(alloc, language, moves),
        Verdict::Sound { .. } => sound_row(alloc, language, listed),
        Verdict::Cooked { shortest, .. } => cooked_row(alloc, language, listed, moves, *shortest),
        Verdict::Dual { at, choices } => {
            dual_row(alloc, language, position, at.as_slice(), choices.as_slice())
        }
    }
}

/// Makes the row of a verdict without a win.
fn no_win_row(alloc: Global, language: Language, moves: u8) -> Result<String, AllocError>
    ensures { IfOk result (λ row. string_bytes row
        ≡ words.phrase language Phrase.NoWin ++ (decimal moves ++ words.moves language moves)) }
{
    let mut digits = Buffer::new();
    [
        language.phrase(Phrase::NoWin),
        digits.format(moves),
        language.moves(moves),
    ]
    .concat(alloc)
}

/// Makes the row of the only first move that wins.
fn sound_row(alloc: Global, language: Language, keys: &str) -> Result<String, AllocError>
    ensures { IfOk result (λ row. string_bytes row
        ≡ words.phrase language Phrase.Sound ++ (codes ": " ++ keys.now)) }
{
    let mut row = String::from_str(alloc, language.phrase(Phrase::Sound))?;
    row.push_str(": ")?;
    row.push_str(keys)?;
    Ok(row)
}

/// Makes the row of the first moves that win, and of the number of moves in which there is a win already.
fn cooked_row(
    alloc: Global,
    language: Language,
    keys: &str,
    moves: u8,
    shortest: u8,
) -> Result<String, AllocError>
    ensures { IfOk result (λ row. string_bytes row
        ≡ words.phrase language Phrase.Cooked ++ (codes ": " ++ (keys.now ++ shorter language moves shortest))) }
{
    let mut row = String::from_str(alloc, language.phrase(Phrase::Cooked))?;
    row.push_str(": ")?;
    row.push_str(keys)?;
    row.push_str(shorter(alloc, language, moves, shortest)?.as_str())?;
    Ok(row)
}

/// Makes the text that there is a win in fewer moves already, if so.
fn shorter(alloc: Global, language: Language, moves: u8, shortest: u8) -> Result<String, AllocError>
    ensures { IfOk result (λ text. string_bytes text ≡ of.shorter language moves shortest) }
{
    if shortest >= moves {
        return Ok(String::new(alloc));
    }
    let mut digits = Buffer::new();
    [
        " (",
        language.phrase(Phrase::Shorter),
        digits.format(shortest),
        language.moves(shortest),
        ")",
    ]
    .concat(alloc)
}

/// Makes the row of the line up to a choice, and of the choices.
fn dual_row<B: Board>(
    alloc: Global,
    language: Language,
    position: &Position<B>,
    at: &[Move<B>],
    choices: &[Move<B>],
) -> Result<String, AllocError>
    requires few { length at.now ≤ 38 }
    requires dual { (n : ℕ) × IsVerdict B.geometry position.now n (dual at.now choices.now) }
    ensures { (n : ℕ) → IfOk result (λ row. IsVerdictRow B.geometry language position.now n
        (dual at.now choices.now) (string_bytes row)) }
{
    let (line, texts) = dual_texts(alloc, position, at, choices)?;
    let choices = texts.as_slice().join(alloc, " / ")?;
    let mut digits = Buffer::new();
    let row = [
        language.phrase(Phrase::Dual),
        ": ",
        line.as_str(),
        " ",
        digits.format(at.len() / 2 + 1),
        ". ",
        choices.as_str(),
    ]
    .concat(alloc)?;
    Ok(row)
}

/// Makes the rows of the tries that are shown: all, or none.
pub(crate) fn tries_shown<B: Board>(
    alloc: Global,
    which: PageTries,
    position: &Position<B>,
    judged: &Judged<B>,
) -> Result<Vec<String>, AllocError>
    requires { (n : ℕ) × Tries B.geometry position.now n judged.now.tries.items }
    ensures { IfOk result (λ rows. AreRowsShown B.geometry which position.now judged.now.tries.items
        (map string_bytes rows.items)) }
{
    match which {
        PageTries::All => tries_row(alloc, position, judged),
        PageTries::None => Ok(Vec::new(alloc)),
    }
}

/// Makes the rows of the tries, each with the reply that refutes it.
fn tries_row<B: Board>(
    alloc: Global,
    position: &Position<B>,
    judged: &Judged<B>,
) -> Result<Vec<String>, AllocError>
    requires { (n : ℕ) × Tries B.geometry position.now n judged.now.tries.items }
    ensures { IfOk result (λ rows. AreTryRows B.geometry position.now judged.now.tries.items
        (map string_bytes rows.items)) }
{
    let texts = try_texts(alloc, position, judged.tries.as_slice())?;
    rows_of(alloc, texts.as_slice())
}

/// Makes the rows of tries with these texts.
fn rows_of(alloc: Global, texts: &[(String, String)]) -> Result<Vec<String>, AllocError>
    ensures { IfOk result (λ rows. map string_bytes rows.items
        ≡ map try_row (map (λ t. (string_bytes t.0, string_bytes t.1)) texts.now)) }
{
    let mut rows = Vec::new(alloc);
    'tries: for (mv, reply) in texts {
        rows.push([mv.as_str(), "? ", reply.as_str()].concat(alloc)?)?;
    }
    Ok(rows)
}
