//! The text of a list of lines.
ghost use Rattle.std.specs.Prelude.{◌≡◌, ◌≤◌, ◌<◌, ◌%◌, ◌↔◌, ◌++◌, true, false, Err, List, length, codes};
ghost use Rattle.std.specs.Prelude.{decimal, reverse, min, IfOk, IsErr, IsErrOf, IsTrue, OnOk, OnErr, Some, ◌+◌, ℕ};
ghost use Rattle.dw_notation.specs.Streams.{Appends};
ghost use Rattle.dw_moves.specs.Moves.{Move as AnyMove};
ghost use Rattle.dw_notation.specs.Text.{ArePlayable};
ghost use Rattle.dw_notation.specs.Writes.{StopsShort};
ghost use Rattle.dw_solve.specs.Searching.{IsCounted};
ghost use Rattle.dw_list.specs.Listing.{lender, solver_of, stack_of};
ghost use Rattle.dw_list.specs.LineStack.{AreToCome};
ghost use Rattle.dw_list.specs.StackWalk.{SameToCome};
ghost use Rattle.dw_list.specs.inner.StackWalk.{GivesNext};
ghost use Rattle.dw_list.specs.Tokens as tokens;
ghost use Rattle.dw_report.specs.Request.{request_of};
ghost use Rattle.dw_report.specs.ListedText.{IsListing, IsListedText, more_after};
ghost use Rattle.dw_report.specs.inner.Rows.{has_tokens, refused_line};
ghost use Rattle.dw_report.specs.inner.Rows.{IsRow, StandsBefore, HasLines, SomeRows, TakesRows};
ghost use Rattle.dw_report.specs.declared.listing.TheConstants.{ROW_ROOM, PAGE_ROOM};
ghost use Rattle.dw_report.specs.Running.{AreLinesOf, IsNoLine};
ghost use Rattle.dw_report.specs.inner.Running.{TextEnds, SinkEnds, Spends, IsSound};
ghost use Rattle.dw_solve.specs.declared.stop.Stop.TheVariants.{Limit};
ghost use Rattle.dw_report.specs.declared.problem.TextFault.TheVariants as because;

use crate::problem::TextFault;
use crate::settings::{Command, Settings};
use crate::text::SHORT_ROOM;
use arrayvec::{ArrayString, ArrayVec};
use dw_board::{Board, Position};
use dw_list::{AfterFault, Lister, write_token};
use dw_memo::Memo;
use dw_moves::Move;
use dw_notation::{LINE_ROOM, LineText, MAX_MOVES, Sink, WriteFault, write_all};
use dw_solve::{Guide, Solver, Stop};
use itoa::Buffer;
use std::alloc::{AllocError, Global};

/// Enough bytes for any line's text and a line feed.
const ROW_ROOM: usize = LINE_ROOM + 1;

/// The bytes of rows that are written at once.
const PAGE_ROOM: usize = 8192;

/// The most positions that are expanded while a row waits to be written.
const PATIENCE: u64 = 1000;

/// Writes the lines of a position, soon after they are known: all of them, or those after the line in the settings, up
/// to the number in the settings. The last line says that the list is complete, or names the line after which it
/// goes on. Returns whether the line in the settings was refused, because it is none of the position's. Then only its
/// place is written.
pub(crate) fn write_lines<B: Board, K: Sink, M: Memo<B>, G: Guide<B>>(
    alloc: Global,
    sink: &mut K,
    solver: &mut Solver<B, M, G>,
    settings: &Settings<B>,
    position: &Position<B>,
) -> Result<bool, TextFault>
    requires works { K.is_failed sink.old ≡ false }
    requires lists { settings.now.command ≡ Command.List }
    requires sound { IsSound B.geometry (request_of settings.now) }
    ensures text { TextEnds (IsListedText B.geometry position.now settings.now.n settings.now.lines
        (request_of settings.now).after) (AreLinesOf
        (IsListedText B.geometry position.now settings.now.n settings.now.lines (request_of settings.now).after))
        (K.accepted sink.old) (K.accepted sink.new) result }
    ensures sink { SinkEnds (K.is_failed sink.old) (K.is_failed sink.new) result }
    ensures spends { Spends solver.old solver.new result }
    ensures refused { IfOk result (λ refused. IsTrue refused
        ↔ IsNoLine B.geometry position.now settings.now.n (request_of settings.now).after) }
{
    let mut lister = Lister::start(solver, position, settings.n);
    let result = write_requested(alloc, sink, &mut lister, settings, position);
    // A dropped lister would not tell how much its solver has spent.
    let _ = lister.into_solver();
    result
}

/// Writes the lines that the settings ask for, with a lister that has given none yet.
fn write_requested<B: Board, K: Sink, M: Memo<B>, G: Guide<B>>(
    alloc: Global,
    sink: &mut K,
    lister: &mut Lister<'_, B, M, G>,
    settings: &Settings<B>,
    position: &Position<B>,
) -> Result<bool, TextFault>
    requires works { K.is_failed sink.old ≡ false }
    requires some { 1 ≤ settings.now.lines }
    requires before { StandsBefore B.geometry position.now settings.now.n (stack_of lister.old) }
    ensures lender { lender lister.new ≡ lender lister.old }
    ensures text { TextEnds (IsListedText B.geometry position.now settings.now.n settings.now.lines
        (request_of settings.now).after) (AreLinesOf
        (IsListedText B.geometry position.now settings.now.n settings.now.lines (request_of settings.now).after))
        (K.accepted sink.old) (K.accepted sink.new) result }
    ensures sink { SinkEnds (K.is_failed sink.old) (K.is_failed sink.new) result }
    ensures spends { Spends (solver_of lister.old) (solver_of lister.new) result }
    ensures refused { IfOk result (λ refused. IsTrue refused
        ↔ IsNoLine B.geometry position.now settings.now.n (request_of settings.now).after) }
{
    dw_list::laws::lines_exist();
    match &settings.after {
        None => {
            write_listing(alloc, sink, lister, position, settings.lines)?;
            Ok(false)
        }
        Some(line) => write_after(
            alloc,
            sink,
            lister,
            position,
            line.as_slice(),
            settings.lines,
        ),
    }
}

/// Writes at most `most` lines of a position after a given line, and the end of the list. Returns whether that line is
/// refused.
fn write_after<B: Board, K: Sink, M: Memo<B>, G: Guide<B>>(
    alloc: Global,
    sink: &mut K,
    lister: &mut Lister<'_, B, M, G>,
    position: &Position<B>,
    line: &[Move<B>],
    most: u64,
) -> Result<bool, TextFault>
    requires works { K.is_failed sink.old ≡ false }
    requires some { 1 ≤ most }
    requires position { (stack_of lister.old).position ≡ position.now }
    ensures lender { lender lister.new ≡ lender lister.old }
    ensures text { TextEnds (IsListedText B.geometry position.now (stack_of lister.old).moves most (Some line.now))
        (AreLinesOf (IsListedText B.geometry position.now (stack_of lister.old).moves most (Some line.now)))
        (K.accepted sink.old) (K.accepted sink.new) result }
    ensures sink { SinkEnds (K.is_failed sink.old) (K.is_failed sink.new) result }
    ensures spends { Spends (solver_of lister.old) (solver_of lister.new) result }
    ensures refused { IfOk result (λ refused. IsTrue refused
        ↔ IsNoLine B.geometry position.now (stack_of lister.old).moves (Some line.now)) }
{
    dw_list::laws::lines_exist();
    dw_list::laws::line_or_place();
    dw_notation::laws::lines_have_texts();
    match lister.after(alloc, line) {
        Err(AfterFault::Stopped(stop)) => Err(TextFault::Stopped(stop)),
        Err(AfterFault::NotALine(place)) => {
            write_all(sink, refused_row(place).as_str().as_bytes())?;
            Ok(true)
        }
        Ok(()) => {
            write_listing(alloc, sink, lister, position, most)?;
            Ok(false)
        }
    }
}

/// Writes at most `most` of the lines still to come of a lister, and the end of the list. Lines that come soon after
/// one another are written together.
fn write_listing<B: Board, K: Sink, M: Memo<B>, G: Guide<B>>(
    alloc: Global,
    sink: &mut K,
    lister: &mut Lister<'_, B, M, G>,
    position: &Position<B>,
    most: u64,
) -> Result<(), TextFault>
    requires works { K.is_failed sink.old ≡ false }
    requires some { 1 ≤ most }
    requires ahead { HasLines B.geometry position.now (stack_of lister.old) }
    ensures lender { lender lister.new ≡ lender lister.old }
    ensures text { (lines : List (List AnyMove)) → AreToCome B.geometry (stack_of lister.old) lines
        → TextEnds (IsListing B.geometry position.now most lines)
        (AreLinesOf (IsListing B.geometry position.now most lines)) (K.accepted sink.old) (K.accepted sink.new) result }
    ensures sink { SinkEnds (K.is_failed sink.old) (K.is_failed sink.new) result }
    ensures spends { Spends (solver_of lister.old) (solver_of lister.new) result }
{
    dw_notation::laws::lines_have_texts();
    dw_list::laws::lines_in_turn();
    let mut page = Page::new(position);
    let mut written: u64 = 0;
    'pages: while written < most {
        let taken = fill_page(alloc, lister, &mut page, most - written);
        write_all(sink, page.rows.as_str().as_bytes())?;
        let count = taken?;
        if count == 0 {
            write_all(sink, complete_row(written).as_str().as_bytes())?;
            return Ok(());
        }
        written += count;
    }
    if has_more(alloc, lister)? {
        write_more(sink, page.last.as_slice())?;
    } else {
        write_all(sink, complete_row(written).as_str().as_bytes())?;
    }
    Ok(())
}

/// Rows of lines, up to some thousand bytes, and the line of the last row.
#[derive(Drop)]
struct Page<B: Board> {
    text: LineText<B>,
    last: ArrayVec<Move<B>, MAX_MOVES>,
    rows: ArrayString<PAGE_ROOM>,
}

impl<B: Board> Page<B> {
    /// Returns an empty page for the lines of a position.
    fn new(position: &Position<B>) -> Self
        ensures start { result.text.start ≡ position.now }
    {
        Page {
            text: LineText::new(position),
            last: ArrayVec::new(),
            rows: ArrayString::new(),
        }
    }
}

/// Fills a page with rows of the next lines, at most `room`, which must be at least 1, and returns how many there are:
/// none only if no line is left. It waits for a further line until `PATIENCE` more positions are expanded. After a stop
/// the page has the rows of lines that were known before.
fn fill_page<B: Board, M: Memo<B>, G: Guide<B>>(
    alloc: Global,
    lister: &mut Lister<'_, B, M, G>,
    page: &mut Page<B>,
    room: u64,
) -> Result<u64, Stop>
    requires some { 1 ≤ room }
    requires ahead { HasLines B.geometry page.old.text.start (stack_of lister.old) }
    ensures lender { lender lister.new ≡ lender lister.old }
    ensures start { page.new.text.start ≡ page.old.text.start }
    ensures rows { SomeRows B.geometry page.old.text.start (stack_of lister.old) room page.new.rows.bytes }
    ensures taken { IfOk result (λ count. TakesRows B.geometry page.old.text.start (stack_of lister.old)
        (stack_of lister.new) room count page.new.last.items page.new.rows.bytes) }
    ensures count { IsCounted (solver_of lister.old).expanded (solver_of lister.old).limit
        (solver_of lister.new).expanded (solver_of lister.new).limit }
    ensures stop { IsErrOf result Limit → (solver_of lister.new).expanded ≡ (solver_of lister.new).limit }
{
    dw_list::laws::lines_in_turn();
    page.rows.clear();
    let mut until = lister.limit();
    let mut taken: u64 = 0;
    'rows: while taken < room && page.rows.remaining_capacity() >= ROW_ROOM {
        match take_line_until(alloc, lister, &mut page.last, until) {
            Ok(true) => {}
            Ok(false) => return Ok(taken),
            Err(stop) => return if taken == 0 { Err(stop) } else { Ok(taken) },
        }
        push_row(alloc, &mut page.text, &mut page.rows, page.last.as_slice())?;
        until = bound_after(taken, until, lister.expanded());
        taken += 1;
    }
    Ok(taken)
}

/// Returns how many positions may be expanded before a page is written, once it has a row more than `taken`. Up to
/// `until` were allowed before, and `expanded` are.
fn bound_after(taken: u64, until: u64, expanded: u64) -> u64
    requires { expanded ≤ until }
    ensures within { expanded ≤ result }
    ensures some { (limit : ℕ) → (until < limit → 1 ≤ until) → result < limit → 1 ≤ result }
{
    if taken == 0 {
        expanded.saturating_add(PATIENCE)
    } else {
        until
    }
}

/// Takes the next line as `take_line` does, but stops also where `until` positions are expanded.
fn take_line_until<B: Board, M: Memo<B>, G: Guide<B>>(
    alloc: Global,
    lister: &mut Lister<'_, B, M, G>,
    line: &mut ArrayVec<Move<B>, MAX_MOVES>,
    until: u64,
) -> Result<bool, Stop>
    requires enough { (solver_of lister.old).expanded ≤ until }
    requires some { until < (solver_of lister.old).limit → 1 ≤ until }
    ensures lender { lender lister.new ≡ lender lister.old }
    ensures next { IfOk result (λ more. GivesNext B.geometry more (stack_of lister.old) (stack_of lister.new)) }
    ensures line { IfOk result (λ more. IsTrue more → line.new.items ≡ reverse (stack_of lister.new).line) }
    ensures same { OnErr result (SameToCome B.geometry (stack_of lister.old) (stack_of lister.new)) }
    ensures kept { OnErr result (line.new ≡ line.old) }
    ensures none { IfOk result (λ more. more ≡ false → line.new ≡ line.old) }
    ensures count { IsCounted (solver_of lister.old).expanded (solver_of lister.old).limit
        (solver_of lister.new).expanded (solver_of lister.new).limit }
    ensures until { (solver_of lister.new).expanded ≤ until }
    ensures stop { IsErrOf result Limit → (solver_of lister.new).expanded ≡ min until (solver_of lister.new).limit }
{
    let limit = lister.limit();
    if limit <= until {
        return take_line(alloc, lister, line);
    }
    lister.set_limit(until);
    let taken = take_line(alloc, lister, line);
    lister.set_limit(limit);
    taken
}

/// Copies the next line over another one, and returns whether there is one.
fn take_line<B: Board, M: Memo<B>, G: Guide<B>>(
    alloc: Global,
    lister: &mut Lister<'_, B, M, G>,
    line: &mut ArrayVec<Move<B>, MAX_MOVES>,
) -> Result<bool, Stop>
    ensures lender { lender lister.new ≡ lender lister.old }
    ensures next { IfOk result (λ more. GivesNext B.geometry more (stack_of lister.old) (stack_of lister.new)) }
    ensures line { IfOk result (λ more. IsTrue more → line.new.items ≡ reverse (stack_of lister.new).line) }
    ensures same { OnErr result (SameToCome B.geometry (stack_of lister.old) (stack_of lister.new)) }
    ensures kept { OnErr result (line.new ≡ line.old) }
    ensures none { IfOk result (λ more. more ≡ false → line.new ≡ line.old) }
    ensures count { IsCounted (solver_of lister.old).expanded (solver_of lister.old).limit
        (solver_of lister.new).expanded (solver_of lister.new).limit }
    ensures stop { IsErrOf result Limit → (solver_of lister.new).expanded ≡ (solver_of lister.new).limit }
{
    match lister.next(alloc)? {
        Some(given) => {
            line.clear();
            let _ = line.try_extend_from_slice(given);
            Ok(true)
        }
        None => Ok(false),
    }
}

/// Takes the next line, and returns whether there is one.
fn has_more<B: Board, M: Memo<B>, G: Guide<B>>(
    alloc: Global,
    lister: &mut Lister<'_, B, M, G>,
) -> Result<bool, Stop>
    ensures lender { lender lister.new ≡ lender lister.old }
    ensures next { IfOk result (λ more. GivesNext B.geometry more (stack_of lister.old) (stack_of lister.new)) }
    ensures count { IsCounted (solver_of lister.old).expanded (solver_of lister.old).limit
        (solver_of lister.new).expanded (solver_of lister.new).limit }
    ensures stop { IsErrOf result Limit → (solver_of lister.new).expanded ≡ (solver_of lister.new).limit }
{
    Ok(lister.next(alloc)?.is_some())
}

/// Adds the text of a line and a line feed to the rows, which must have room for it. `text` switches to that line.
fn push_row<B: Board>(
    alloc: Global,
    text: &mut LineText<B>,
    rows: &mut ArrayString<PAGE_ROOM>,
    line: &[Move<B>],
) -> Result<(), AllocError>
    requires few { length line.now ≤ 39 }
    requires legal { ArePlayable B.geometry text.old.start line.now }
    requires room { length rows.old.bytes + ROW_ROOM ≤ PAGE_ROOM }
    ensures start { text.new.start ≡ text.old.start }
    ensures row { OnOk result ((row : List ℕ) × IsRow B.geometry text.old.start line.now row
        × (rows.new.bytes ≡ rows.old.bytes ++ row)) }
    ensures err { OnErr result (rows.new ≡ rows.old) }
{
    dw_notation::laws::lines_have_texts();
    text.switch_to(alloc, line)?;
    rows.push_str(text.as_str());
    rows.push('\n');
    Ok(())
}

/// Returns the last line of a whole list, `complete K`.
fn complete_row(count: u64) -> ArrayString<SHORT_ROOM>
    ensures { result.bytes ≡ codes "complete " ++ decimal count ++ codes "\n" }
{
    let mut row = ArrayString::new();
    row.push_str("complete ");
    row.push_str(Buffer::new().format(count));
    row.push_str("\n");
    row
}

/// Writes that more lines are left, with the token of the last one, if lines have tokens on this board.
fn write_more<B: Board, K: Sink>(sink: &mut K, last: &[Move<B>]) -> Result<(), WriteFault>
    requires odd { length last.now % 2 ≡ 1 }
    requires most { length last.now ≤ 39 }
    requires works { K.is_failed sink.old ≡ false }
    ensures ok { OnOk result (Appends (K.accepted sink.old) (K.accepted sink.new) (more_after B.geometry last.now)) }
    ensures err { OnErr result (StopsShort (K.accepted sink.old) (K.accepted sink.new)
        (more_after B.geometry last.now)) }
    ensures failed { IsErr result → K.is_failed sink.new ≡ true }
    ensures kept { OnOk result (K.is_failed sink.new ≡ K.is_failed sink.old) }
{
    if has_tokens::<B>() {
        write_more_after(sink, last)
    } else {
        write_all(sink, "more\n".as_bytes())
    }
}

/// Returns whether lines have tokens on this board.
fn has_tokens<B: Board>() -> bool
    ensures { result ≡ has_tokens B.geometry }
{
    B::ROWS == 10 || B::ROWS == 8
}

/// Writes that more lines come after this one, with its token.
fn write_more_after<B: Board, K: Sink>(sink: &mut K, last: &[Move<B>]) -> Result<(), WriteFault>
    requires odd { length last.now % 2 ≡ 1 }
    requires most { length last.now ≤ 39 }
    requires tokens { has_tokens B.geometry ≡ true }
    requires works { K.is_failed sink.old ≡ false }
    ensures ok { OnOk result (Appends (K.accepted sink.old) (K.accepted sink.new)
        (codes "more after " ++ tokens.token_of B.geometry last.now ++ codes "\n")) }
    ensures err { OnErr result (StopsShort (K.accepted sink.old) (K.accepted sink.new)
        (codes "more after " ++ tokens.token_of B.geometry last.now ++ codes "\n")) }
    ensures failed { IsErr result → K.is_failed sink.new ≡ true }
    ensures kept { OnOk result (K.is_failed sink.new ≡ K.is_failed sink.old) }
{
    write_all(sink, "more after ".as_bytes())?;
    write_token(last, sink)?;
    write_all(sink, "\n".as_bytes())
}

/// Returns the refusal of a list of moves that is no line, with the place at which it leaves all lines.
fn refused_row(place: usize) -> ArrayString<SHORT_ROOM>
    ensures { result.bytes ≡ refused_line place }
{
    let mut row = ArrayString::new();
    row.push_str("refused token: 1 not a line at ");
    row.push_str(Buffer::new().format(place));
    row.push_str("\n");
    row
}
