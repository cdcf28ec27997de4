//! The texts of the report.
ghost use Rattle.std.specs.Prelude.{◌≡◌, ◌<◌, ◌++◌, length, codes, decimal, HoldsAt};
ghost use Rattle.dw_moves.specs.Order.{AreListed};
ghost use Rattle.dw_report.specs.inner.Running.{at_once};
ghost use Rattle.dw_report.specs.Refusals.{fen_fault_text, refusal_text};
ghost use Rattle.dw_report.specs.Report.{first_line as line_of, heading as heading_of};
ghost use Rattle.dw_report.specs.Report.{move_line as line_of_move};
ghost use Rattle.dw_report.specs.inner.Rows.{count_line as line_of_count};
ghost use Rattle.dw_notation.specs.Problems.{numbered};

use crate::settings::Command;
use arrayvec::ArrayString;
use dw_board::diagram::{DIAGRAM_ROOM, diagram};
use dw_board::{Board, FEN_ROOM, FenFault, FenFaultKind, Position, fen_text};
use dw_moves::Listed;
use dw_moves::play::play;
use dw_notation::move_text::move_text;
use dw_notation::{MOVE_ROOM, Problem, ProblemFault};
use itoa::Buffer;

/// Enough bytes for a few words and numbers.
pub(crate) const SHORT_ROOM: usize = 64;

/// Enough bytes for the reason of any refusal.
pub const REFUSAL_ROOM: usize = 192;

/// Enough bytes for `refused: ` and the reason.
const REFUSED_ROOM: usize = 9 + REFUSAL_ROOM;

/// Enough bytes for the line of any move: its text, a position, and the bytes around them.
const MOVE_LINE_ROOM: usize = MOVE_ROOM + FEN_ROOM + 8;

/// Enough bytes for the first line of any problem's text.
const LINE_ROOM: usize = 254;

/// Enough bytes for the part of any problem's text that is known at once.
const KNOWN_ROOM: usize = LINE_ROOM + DIAGRAM_ROOM;

/// Returns the part of a problem's text that is known at once: its heading, and the diagram if positions are shown.
pub(crate) fn known_text<B: Board>(
    problem: &Problem<B>,
    command: Command,
) -> ArrayString<KNOWN_ROOM>
    ensures { result.bytes ≡ heading_of B.geometry command (numbered problem.now)
        ++ at_once B.geometry (numbered problem.now).found command }
{
    let mut text = ArrayString::new();
    text.push_str(heading(problem, command).as_str());
    if let (Ok(position), Command::Show) = (&problem.found, command) {
        text.push_str(diagram(position).as_str());
    }
    text
}

/// Returns the line before the text of the command: the first line, and none before a row.
fn heading<B: Board>(problem: &Problem<B>, command: Command) -> ArrayString<LINE_ROOM>
    ensures { result.bytes ≡ heading_of B.geometry command (numbered problem.now) }
{
    if command.writes_rows() {
        ArrayString::new()
    } else {
        problem_line(problem)
    }
}

/// Returns the first line of a problem's text: its number, and its position or why it is refused.
pub fn problem_line<B: Board>(problem: &Problem<B>) -> ArrayString<LINE_ROOM>
    ensures { result.bytes ≡ line_of B.geometry (numbered problem.now) }
{
    let mut line = ArrayString::new();
    let mut digits = Buffer::new();
    line.push_str("problem ");
    line.push_str(digits.format(problem.number));
    line.push_str(": ");
    match &problem.found {
        Ok(position) => line.push_str(fen_text(position).as_str()),
        Err(fault) => line.push_str(refused_text(*fault).as_str()),
    }
    line.push_str("\n");
    line
}

/// Returns the line of a legal move: its text, and the position after it. `list` must have all legal moves in order,
/// and the place must be in it.
pub(crate) fn move_line<B: Board>(
    position: &Position<B>,
    list: &[Listed<B>],
    place: usize,
) -> ArrayString<MOVE_LINE_ROOM>
    requires all { AreListed B.geometry position.now list.now }
    requires place { place < length list.now }
    ensures { HoldsAt (λ item. result.bytes ≡ line_of_move B.geometry position.now list.now item) list.now place }
{
    let item = &list[place];
    let mut line = ArrayString::new();
    line.push_str(move_text(list, place).as_str());
    line.push_str(" ");
    line.push_str(fen_text(&play(position, &item.step)).as_str());
    line.push_str("\n");
    line
}

/// Returns the last line of a list of moves: their number, and the number of pieces that each of them takes.
pub(crate) fn count_line(moves: usize, taken: u8) -> ArrayString<SHORT_ROOM>
    ensures { result.bytes ≡ line_of_count moves taken }
{
    let mut line = ArrayString::new();
    line.push_str("moves ");
    line.push_str(Buffer::new().format(moves));
    line.push_str(" taking ");
    line.push_str(Buffer::new().format(taken));
    line.push_str("\n");
    line
}

fn refused_text(fault: ProblemFault) -> ArrayString<REFUSED_ROOM>
    ensures { result.bytes ≡ codes "refused: " ++ refusal_text fault }
{
    let mut text = ArrayString::new();
    text.push_str("refused: ");
    text.push_str(refusal_text(fault).as_str());
    text
}

/// Returns the reason for a refusal: the number and the name of its fault, and its place in a FEN text.
pub fn refusal_text(fault: ProblemFault) -> ArrayString<REFUSAL_ROOM>
    ensures { result.bytes ≡ refusal_text fault }
{
    let mut text = ArrayString::new();
    match fault {
        ProblemFault::Fen(fault) => text.push_str(fen_refusal(fault).as_str()),
        ProblemFault::NoFen => text.push_str("2 no fen"),
        ProblemFault::TwoFens => text.push_str("3 two fens"),
        ProblemFault::WrongGame => text.push_str("4 wrong game"),
        ProblemFault::LineTooLong => text.push_str("5 line too long"),
        ProblemFault::SectionTooLong => text.push_str("6 section too long"),
        ProblemFault::UnclosedTag => text.push_str("7 unclosed tag"),
        ProblemFault::UnclosedComment => text.push_str("8 unclosed comment"),
        ProblemFault::TooManyProblems => text.push_str("9 too many problems"),
    }
    text
}

/// Returns the number and the name of a fault of a FEN text, and its place.
fn fen_refusal(fault: FenFault) -> ArrayString<SHORT_ROOM>
    ensures { result.bytes ≡ codes "1 fen: " ++ fen_fault_text fault.what ++ codes " at " ++ decimal fault.place }
{
    let mut text = ArrayString::new();
    let mut digits = Buffer::new();
    text.push_str("1 fen: ");
    text.push_str(fault_name(fault.what));
    text.push_str(" at ");
    text.push_str(digits.format(fault.place));
    text
}

fn fault_name(what: FenFaultKind) -> &'static str
    ensures { result.now ≡ fen_fault_text what }
{
    match what {
        FenFaultKind::Turn => "1 turn",
        FenFaultKind::Colon => "2 colon",
        FenFaultKind::Colour => "3 colour",
        FenFaultKind::Number => "4 number",
        FenFaultKind::Twice => "5 twice",
        FenFaultKind::SameColour => "6 same colour",
        FenFaultKind::LastRow => "7 last row",
        FenFaultKind::TooMany => "8 too many",
        FenFaultKind::Rest => "9 rest",
        FenFaultKind::TooLong => "10 too long",
        FenFaultKind::RangeBackwards => "11 range backwards",
    }
}
