//! The texts of verdicts and tries.
ghost use Rattle.std.specs.Prelude.{◌≡◌, ◌≤◌, [], length, IfOk};
ghost use Rattle.std.specs.String.{string_bytes};
ghost use Rattle.dw_moves.specs.Moves.{Legal};
ghost use Rattle.dw_board.specs.Lists.{Member};
ghost use Rattle.dw_moves.specs.Moves as of;
ghost use Rattle.dw_notation.specs.Text.{ArePlayable};
ghost use Rattle.dw_verdict.specs.Verdict.{IsVerdict, Tries, reach, cooked, dual};
ghost use Rattle.dw_verdict.specs.Judging.{said_by};
ghost use Rattle.dw_report.specs.JudgedText.{IsVerdictText, IsTryLine};
ghost use Rattle.dw_report.specs.inner.JudgedText.{IsVerdictLine, AreTriesListed};
ghost use Rattle.dw_report.specs.inner.JudgedText.{IsTryText};
ghost use Rattle.dw_report.specs.JudgedText.{IsJudgedText};
ghost use Rattle.dw_report.specs.Running.{AreLinesOf};
ghost use Rattle.dw_report.specs.inner.Running.{TextEnds, SinkEnds, Spends};
ghost use Rattle.dw_solve.specs.Questions.{moment_of};
ghost use Rattle.dw_solve.specs.Work.{Searched, cut_off};

use crate::move_texts::joined_text;
use crate::problem::TextFault;
use dw_board::{Board, Position};
use dw_memo::Memo;
use dw_moves::Move;
use dw_moves::listed::listed;
use dw_moves::play::play;
use dw_notation::line_text::line_text;
use dw_notation::{Sink, text_in, write_all};
use dw_solve::{Guide, Lineup, Solver};
use dw_verdict::judge::verdict;
use dw_verdict::tries::refutation;
use dw_verdict::{Judged, Verdict};
use itoa::Buffer;
use std::alloc::{AllocError, Global};

/// Writes the verdict on a position, for a win of the side to move within `moves` moves, which must be from 1 to 20,
/// and then its tries. Each line is written as soon as it is known.
pub(crate) fn write_judged<B: Board, K: Sink, M: Memo<B>, G: Guide<B>>(
    alloc: Global,
    sink: &mut K,
    solver: &mut Solver<B, M, G>,
    position: &Position<B>,
    moves: u8,
) -> Result<(), TextFault>
    requires some { 1 ≤ moves }
    requires few { moves ≤ 20 }
    ensures text { TextEnds (IsJudgedText B.geometry position.now moves)
        (AreLinesOf (IsJudgedText B.geometry position.now moves)) (K.accepted sink.old) (K.accepted sink.new) result }
    ensures sink { SinkEnds (K.is_failed sink.old) (K.is_failed sink.new) result }
    ensures spends { Spends solver.old solver.new result }
    ensures searched { Searched B.geometry moves (cut_off result moves) (moment_of M.content M.dropped solver.old)
        (moment_of M.content M.dropped solver.new) }
{
    crate::laws::one_verdict();
    crate::laws::tries_are_listed();
    dw_solve::laws::searches_add_up();
    dw_notation::laws::moves_have_texts();
    dw_notation::laws::lines_have_texts();
    write_verdict(alloc, sink, solver, position, moves)?;
    write_tries(alloc, sink, solver, position, moves)
}

/// Returns the text of a verdict and of tries, as `run` writes it after a problem's first line. They must be those of
/// the position for `moves` moves, as `judge` returns them.
pub fn judged_text<B: Board>(
    alloc: Global,
    position: &Position<B>,
    moves: u8,
    judged: &Judged<B>,
) -> Result<String, AllocError>
    requires verdict { IsVerdict B.geometry position.now moves (said_by judged.now.verdict) }
    requires tries { Tries B.geometry position.now moves judged.now.tries.items }
    ensures { IfOk result (λ text. IsJudgedText B.geometry position.now moves (string_bytes text)) }
{
    let mut text = verdict_line(alloc, position, moves, &judged.verdict)?;
    'tries: for tried in judged.tries.as_slice() {
        let line = try_line(alloc, position, &tried.0, &tried.1)?;
        text.push_str(line.as_str())?;
    }
    Ok(text)
}

/// Writes the line of the verdict. A stop comes before anything is written.
fn write_verdict<B: Board, K: Sink, M: Memo<B>, G: Guide<B>>(
    alloc: Global,
    sink: &mut K,
    solver: &mut Solver<B, M, G>,
    position: &Position<B>,
    moves: u8,
) -> Result<(), TextFault>
    requires some { 1 ≤ moves }
    requires few { moves ≤ 20 }
    ensures text { TextEnds (IsVerdictLine B.geometry position.now moves) (λ out. out ≡ []) (K.accepted sink.old)
        (K.accepted sink.new) result }
    ensures sink { SinkEnds (K.is_failed sink.old) (K.is_failed sink.new) result }
    ensures spends { Spends solver.old solver.new result }
    ensures searched { Searched B.geometry moves (cut_off result moves) (moment_of M.content M.dropped solver.old)
        (moment_of M.content M.dropped solver.new) }
{
    let verdict = verdict(alloc, solver, position, moves)?;
    let line = verdict_line(alloc, position, moves, &verdict)?;
    write_all(sink, line.as_str().as_bytes())?;
    Ok(())
}

/// Writes the lines of the tries in order, each as soon as it is known.
fn write_tries<B: Board, K: Sink, M: Memo<B>, G: Guide<B>>(
    alloc: Global,
    sink: &mut K,
    solver: &mut Solver<B, M, G>,
    position: &Position<B>,
    moves: u8,
) -> Result<(), TextFault>
    requires some { 1 ≤ moves }
    requires few { moves ≤ 20 }
    ensures text { TextEnds (AreTriesListed B.geometry position.now moves)
        (AreLinesOf (AreTriesListed B.geometry position.now moves)) (K.accepted sink.old) (K.accepted sink.new) result }
    ensures sink { SinkEnds (K.is_failed sink.old) (K.is_failed sink.new) result }
    ensures spends { Spends solver.old solver.new result }
    ensures searched { Searched B.geometry moves (cut_off result moves) (moment_of M.content M.dropped solver.old)
        (moment_of M.content M.dropped solver.new) }
{
    dw_solve::laws::searches_add_up();
    dw_solve::laws::wins_are_decided();
    dw_moves::laws::moves_in_order();
    dw_moves::laws::moves_have_keys();
    dw_notation::laws::moves_have_texts();
    solver.keeps_its_limit();
    let mut lineup = Lineup::new(alloc);
    let list = listed(alloc, position)?;
    'moves: for item in list.as_slice() {
        write_try(
            alloc,
            sink,
            solver,
            &mut lineup,
            position,
            &item.step,
            moves,
        )?;
    }
    Ok(())
}

/// Writes the line of a move if it is a try. A stop comes before anything is written.
fn write_try<B: Board, K: Sink, M: Memo<B>, G: Guide<B>>(
    alloc: Global,
    sink: &mut K,
    solver: &mut Solver<B, M, G>,
    lineup: &mut Lineup<B>,
    position: &Position<B>,
    mv: &Move<B>,
    moves: u8,
) -> Result<(), TextFault>
    requires some { 1 ≤ moves }
    requires few { moves ≤ 20 }
    requires legal { Legal B.geometry position.now mv.now }
    ensures text { TextEnds (IsTryText B.geometry position.now moves mv.now) (λ out. out ≡ []) (K.accepted sink.old)
        (K.accepted sink.new) result }
    ensures sink { SinkEnds (K.is_failed sink.old) (K.is_failed sink.new) result }
    ensures spends { Spends solver.old solver.new result }
    ensures searched { Searched B.geometry moves (cut_off result moves) (moment_of M.content M.dropped solver.old)
        (moment_of M.content M.dropped solver.new) }
{
    dw_solve::laws::searches_add_up();
    let after = play(position, mv);
    if let Some(reply) = refutation(alloc, solver, lineup, &after, moves - 1)? {
        let line = try_line(alloc, position, mv, &reply)?;
        write_all(sink, line.as_str().as_bytes())?;
    }
    Ok(())
}

/// Returns the line of a verdict.
fn verdict_line<B: Board>(
    alloc: Global,
    position: &Position<B>,
    moves: u8,
    verdict: &Verdict<B>,
) -> Result<String, AllocError>
    requires { IsVerdict B.geometry position.now moves (said_by verdict.now) }
    ensures { IfOk result (λ line. IsVerdictText B.geometry position.now moves (said_by verdict.now)
        (string_bytes line)) }
{
    match verdict {
        Verdict::Unsolvable => {
            ["unsolvable in ", Buffer::new().format(moves), "\n"].concat(alloc)
        }
        Verdict::Cooked { shortest, keys } => {
            cooked_line(alloc, position, moves, *shortest, keys.as_slice())
        }
        Verdict::Dual { at, choices } => {
            dual_line(alloc, position, moves, at.as_slice(), choices.as_slice())
        }
        Verdict::Sound { key } => {
            let key = text_in(alloc, position, key)?;
            [
                "sound in ",
                Buffer::new().format(moves),
                ": ",
                key.as_str(),
                "\n",
            ]
            .concat(alloc)
        }
    }
}

/// Returns the line of a cooked problem: several first moves win, or there is a win in fewer moves.
fn cooked_line<B: Board>(
    alloc: Global,
    position: &Position<B>,
    moves: u8,
    shortest: u8,
    keys: &[Move<B>],
) -> Result<String, AllocError>
    requires { IsVerdict B.geometry position.now moves (cooked shortest keys.now) }
    ensures { IfOk result (λ line. IsVerdictText B.geometry position.now moves (cooked shortest keys.now)
        (string_bytes line)) }
{
    let keys = joined_text(alloc, position, keys, ", ")?;
    [
        "cooked in ",
        Buffer::new().format(moves),
        ", shortest ",
        Buffer::new().format(shortest),
        ": ",
        keys.as_str(),
        "\n",
    ]
    .concat(alloc)
}

/// Returns the line of a problem with a dual: there is a choice after the first move.
fn dual_line<B: Board>(
    alloc: Global,
    position: &Position<B>,
    moves: u8,
    at: &[Move<B>],
    choices: &[Move<B>],
) -> Result<String, AllocError>
    requires few { length at.now ≤ 38 }
    requires verdict { IsVerdict B.geometry position.now moves (dual at.now choices.now) }
    ensures { IfOk result (λ line. IsVerdictText B.geometry position.now moves (dual at.now choices.now)
        (string_bytes line)) }
{
    let line = line_text(alloc, position, at)?;
    let choices = joined_text(alloc, &reached(position, at), choices, " / ")?;
    [
        "dual in ",
        Buffer::new().format(moves),
        ": ",
        line.as_str(),
        " ",
        Buffer::new().format(at.len() / 2 + 1),
        ". ",
        choices.as_str(),
        "\n",
    ]
    .concat(alloc)
}

/// Returns the line of a try: its move, and the reply that refutes it.
fn try_line<B: Board>(
    alloc: Global,
    position: &Position<B>,
    mv: &Move<B>,
    reply: &Move<B>,
) -> Result<String, AllocError>
    requires step { Legal B.geometry position.now mv.now }
    requires reply { Legal B.geometry (of.play B.geometry position.now mv.now) reply.now }
    ensures { IfOk result (λ line. IsTryLine B.geometry position.now (mv.now, reply.now) (string_bytes line)) }
{
    let first = text_in(alloc, position, mv)?;
    let second = text_in(alloc, &play(position, mv), reply)?;
    [
        "try ",
        first.as_str(),
        " refuted by ",
        second.as_str(),
        "\n",
    ]
    .concat(alloc)
}

/// Returns the position after moves, each of which must be legal after those before it.
pub(crate) fn reached<B: Board>(position: &Position<B>, moves: &[Move<B>]) -> Position<B>
    requires { ArePlayable B.geometry position.now moves.now }
    ensures { result ≡ reach B.geometry position.now moves.now }
{
    let mut current = *position;
    'moves: for mv in moves {
        current = play(&current, mv);
    }
    current
}
