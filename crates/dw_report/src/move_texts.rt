//! The texts of the moves that a verdict and the tries name, one by one.
ghost use Rattle.std.specs.Prelude.{◌≡◌, ℕ, ◌∷◌, [], ◌≤◌, List, map, length, IfOk};
ghost use Rattle.std.specs.String.{string_bytes};
ghost use Rattle.dw_board.specs.Lists.{Member};
ghost use Rattle.dw_moves.specs.Moves.{Legal, play as after};
ghost use Rattle.dw_moves.specs.Moves as of;
ghost use Rattle.dw_notation.specs.Text.{AreJoined, AreMoveTexts, IsLineText, IsMoveText};
ghost use Rattle.dw_verdict.specs.Judging.{said_by};
ghost use Rattle.dw_report.specs.MoveTexts.{AreKeyTexts, AreTryTexts, AreChoices};
ghost use Rattle.dw_verdict.specs.Verdict.{IsVerdict, Tries, reach, dual};
ghost use Rattle.dw_report.specs.inner.MoveTexts.{IsTryWords};

use crate::judged::reached;
use dw_board::{Board, Position};
use dw_moves::Move;
use dw_moves::play::play;
use dw_notation::line_text::line_text;
use dw_notation::text_in;
use dw_verdict::Verdict;
use std::alloc::{AllocError, Global};
use std::slice;

/// Returns the texts of the keys that a verdict names: all first moves that win, in order. It must be the verdict on
/// the position for some number of moves.
pub fn key_texts<B: Board>(
    alloc: Global,
    position: &Position<B>,
    verdict: &Verdict<B>,
) -> Result<Vec<String>, AllocError>
    requires { (n : ℕ) × IsVerdict B.geometry position.now n (said_by verdict.now) }
    ensures { (n : ℕ) → IsVerdict B.geometry position.now n (said_by verdict.now)
        → IfOk result (λ texts. AreKeyTexts B.geometry position.now n (map string_bytes texts.items)) }
{
    match verdict {
        Verdict::Unsolvable => Ok(Vec::new(alloc)),
        Verdict::Cooked { keys, .. } => each_move_text(alloc, position, keys.as_slice()),
        Verdict::Dual { at, .. } => each_move_text(alloc, position, &at.as_slice()[..1]),
        Verdict::Sound { key } => each_move_text(alloc, position, slice::from_ref(key)),
    }
}

/// Returns the text of the line before a choice, and the texts of the choices. They must be those of a dual of the
/// position.
pub fn dual_texts<B: Board>(
    alloc: Global,
    position: &Position<B>,
    at: &[Move<B>],
    choices: &[Move<B>],
) -> Result<(String, Vec<String>), AllocError>
    requires few { length at.now ≤ 38 }
    requires dual { (n : ℕ) × IsVerdict B.geometry position.now n (dual at.now choices.now) }
    ensures { IfOk result (λ texts. AreChoices B.geometry position.now at.now choices.now (string_bytes texts.0)
        (map string_bytes texts.1.items)) }
{
    let line = line_text(alloc, position, at)?;
    let choices = each_move_text(alloc, &reached(position, at), choices)?;
    Ok((String::from_str(alloc, line.as_str())?, choices))
}

/// Returns the texts of tries, each with its reply. They must be all tries of the position for some number of moves.
pub fn try_texts<B: Board>(
    alloc: Global,
    position: &Position<B>,
    tries: &[(Move<B>, Move<B>)],
) -> Result<Vec<(String, String)>, AllocError>
    requires { (n : ℕ) × Tries B.geometry position.now n tries.now }
    ensures { IfOk result (λ texts. AreTryTexts B.geometry position.now tries.now
        (map (λ t. (string_bytes t.0, string_bytes t.1)) texts.items)) }
{
    let mut texts = Vec::new(alloc);
    'tries: for tried in tries {
        texts.push(try_words(alloc, position, &tried.0, &tried.1)?)?;
    }
    Ok(texts)
}

/// Returns the text of a move and of a reply to it, both of which must be legal.
pub(crate) fn try_words<B: Board>(
    alloc: Global,
    position: &Position<B>,
    mv: &Move<B>,
    reply: &Move<B>,
) -> Result<(String, String), AllocError>
    requires step { Legal B.geometry position.now mv.now }
    requires reply { Legal B.geometry (after B.geometry position.now mv.now) reply.now }
    ensures { IfOk result (λ words. IsTryWords B.geometry position.now (mv.now, reply.now) (string_bytes words.0)
        (string_bytes words.1)) }
{
    let first = text_in(alloc, position, mv)?;
    let second = text_in(alloc, &play(position, mv), reply)?;
    Ok((
        String::from_str(alloc, first.as_str())?,
        String::from_str(alloc, second.as_str())?,
    ))
}

/// Returns the text of each move, in their order. They must all be legal in the position.
pub fn each_move_text<B: Board>(
    alloc: Global,
    position: &Position<B>,
    moves: &[Move<B>],
) -> Result<Vec<String>, AllocError>
    requires { (m : of.Move) → Member m moves.now → Legal B.geometry position.now m }
    ensures { IfOk result (λ texts. AreMoveTexts B.geometry position.now moves.now (map string_bytes texts.items)) }
{
    let mut texts = Vec::new(alloc);
    'moves: for mv in moves {
        let text = text_in(alloc, position, mv)?;
        texts.push(String::from_str(alloc, text.as_str())?)?;
    }
    Ok(texts)
}

/// Returns the texts of moves, which must all be legal in the position, with a mark between them.
pub fn joined_text<B: Board>(
    alloc: Global,
    position: &Position<B>,
    moves: &[Move<B>],
    mark: &str,
) -> Result<String, AllocError>
    requires { (m : of.Move) → Member m moves.now → Legal B.geometry position.now m }
    ensures { IfOk result (λ text. AreJoined B.geometry position.now mark.now moves.now (string_bytes text)) }
{
    let texts = each_move_text(alloc, position, moves)?;
    let text = texts.as_slice().join(alloc, mark)?;
    Ok(text)
}
