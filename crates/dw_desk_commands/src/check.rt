//! The command `check`: the faults of the solution in each game, and the moves that it leaves out.
ghost use Rattle.std.specs.Prelude.{◌≡◌, ◌+◌, ◌≤◌, ◌<◌, ◌↔◌, ℕ, List, [], Some, false, map, IfOk, OnOk, IsTrue};
ghost use Rattle.std.specs.Prelude.{codes, if◌then◌else◌, IsErrOf, ⊤};
ghost use Rattle.dw_notation.specs.Streams.{Appends};
ghost use Rattle.std.specs.String.{string_bytes};
ghost use Rattle.dw_board.specs.Lists.{Member};
ghost use Rattle.dw_desk_commands.specs.Check.{IsCheckOf, IsChecked, IsCheckedAt, IsCheckedLine, IsCheckedText};
ghost use Rattle.dw_desk_commands.specs.Check.{counted, fault_text, is_none, no_win_line};
ghost use Rattle.dw_desk_commands.specs.inner.Comparing.{IsCompared};
ghost use Rattle.dw_notation.specs.Problems.{numbered};
ghost use Rattle.std.specs.Prelude.{MatchBool, ◌&&◌};
ghost use Rattle.dw_desk_commands.specs.Check as of;
ghost use Rattle.dw_desk_commands.specs.ProblemText.{AreTexts};
ghost use Rattle.dw_desk_commands.specs.inner.Tallies.{one_more, tallied, total};
ghost use Rattle.dw_moves.specs.Moves.{Move};
ghost use Rattle.dw_solve.specs.Wins.{Win};
ghost use Rattle.dw_solve.specs.declared.stop.Stop.TheVariants.{Limit};
ghost use Rattle.dw_study.specs.RemarkText.{HasTexts, IsRemarkText};
ghost use Rattle.dw_study.specs.Remarks.{AreRemarks, Remark as AnyRemark};
ghost use Rattle.dw_study.specs.Telling.{Say, remark_in};

use crate::desk::Desk;
use crate::reporting::{MakesText, push, refused_output};
use crate::solution::number_for;
use dw_arguments::CheckArgs;
use dw_board::{Board, Position};
use dw_games::{Game, MovetextFault, MovetextFaultKind, Tree, read_movetext};
use dw_notation::Problem;
use dw_report::{Stop, problem_line};
use dw_rows::{CheckNumbers, checked_row, refused_solution_row};
use dw_solve::Guide;
use dw_stipulation::MoveCount;
use dw_study::check::check;
use dw_study::{Checked, Remark, remark_text, turns_of};
use itoa::Buffer;
use std::alloc::{AllocError, Global};

impl<B: Board> MakesText<B, bool> for CheckArgs {
    ghost says = { λ query expanded. IsCheckOf B.geometry query };

    ghost is_headed = { λ query. false };

    ghost may_answer = { λ refused. ⊤ };

    ghost counts_on = { ⊤ };

    fn has_heading(&self) -> bool {
        false
    }

    /// Makes the text of one game, and returns whether it or its solution is refused, or the solution does not hold.
    fn text_of<G: Guide<B>>(
        &self,
        desk: &mut Desk<B, G>,
        game: &Game<B>,
    ) -> Result<(Vec<u8>, bool), Stop> {
        let problem = &game.problem;
        let position = match &problem.found {
            Ok(position) => position,
            Err(fault) => {
                let text = refused_output(desk.alloc, self.json, problem, *fault)?;
                return Ok((text, true));
            }
        };
        match read_movetext(desk.alloc, position, game.movetext.as_slice()) {
            Ok(tree) => {
                desk.begin(problem.number);
                let n = moves_for(desk, self, &tree)?;
                let checked = checked(desk, &tree, n)?;
                let solution = Solution {
                    problem,
                    tree: &tree,
                    n: n.value,
                    checked: &checked,
                };
                Ok(solution_text(desk.alloc, self, &solution)?)
            }
            Err(MovetextFault::Refused { what, place }) => {
                let text = fault_text_of(desk.alloc, self.json, problem, position, what, place)?;
                Ok((text, true))
            }
            Err(MovetextFault::Memory) => Err(Stop::Memory),
        }
    }
}

/// Makes the text of a problem whose solution is refused: its row, or its first line and that of the fault.
fn fault_text_of<B: Board>(
    alloc: Global,
    json: bool,
    problem: &Problem<B>,
    position: &Position<B>,
    what: MovetextFaultKind,
    place: u32,
) -> Result<Vec<u8>, AllocError>
    ensures { IfOk result (λ text. text.items
        ≡ fault_text B.geometry json (numbered problem.now) position.now what place) }
{
    if json {
        return Ok(refused_solution_row(alloc, problem.number, position, what, place)?.into_bytes());
    }
    let mut text = Vec::new(alloc);
    push(&mut text, problem_line(problem).as_str().as_bytes())?;
    push(
        &mut text,
        solution_fault_line(alloc, what, place)?.as_str().as_bytes(),
    )?;
    Ok(text)
}

/// A solution that was compared with all wins.
#[derive(Clone, Copy)]
struct Solution<'a, B: Board> {
    problem: &'a Problem<B>,
    tree: &'a Tree<B>,
    n: u8,
    checked: &'a Checked<B>,
}

/// Finds the number of moves within which a solution is checked: that of `-n`, or the least with a win up to that of
/// `--most`, or else that of the solution, but at least 1.
fn moves_for<B: Board, G: Guide<B>>(
    desk: &mut Desk<B, G>,
    query: &CheckArgs,
    tree: &Tree<B>,
) -> Result<MoveCount, Stop>
    ensures number { IfOk result (λ n. IsCheckedAt B.geometry tree.now.start query.now.moves query.now.is_least
        tree.now.paths n.value) }
    ensures counts { desk.old.solver.expanded ≤ desk.new.solver.expanded }
    ensures stop { IsErrOf result Limit → desk.new.solver.expanded ≡ u64.MAX }
{
    match query.moves {
        Some(moves) => number_for(desk, &tree.start(), moves, query.is_least),
        None => Ok(MoveCount {
            value: turns_of(tree).max(MoveCount::FEWEST.value),
        }),
    }
}

/// Compares a solution with all wins.
fn checked<B: Board, G: Guide<B>>(
    desk: &mut Desk<B, G>,
    tree: &Tree<B>,
    n: MoveCount,
) -> Result<Checked<B>, Stop>
    ensures wins { IfOk result (λ checked. IsTrue checked.wins ↔ Win B.geometry tree.now.start n.value) }
    ensures remarks { IfOk result (λ checked. Say tree.now.paths checked.remarks.items
        (AreRemarks B.geometry tree.now.paths n.value tree.now.start [])) }
    ensures counts { desk.old.solver.expanded ≤ desk.new.solver.expanded }
    ensures stop { IsErrOf result Limit → desk.new.solver.expanded ≡ u64.MAX }
{
    check(desk.alloc, &mut desk.solver, tree, n)
}

/// Makes the line of a fault of a solution.
fn solution_fault_line(
    alloc: Global,
    what: MovetextFaultKind,
    place: u32,
) -> Result<String, AllocError>
    ensures { IfOk result (λ line. string_bytes line ≡ of.solution_fault_line what place) }
{
    let mut digits = Buffer::new();
    let mut places = Buffer::new();
    [
        "solution refused: ",
        digits.format(what.number()),
        " ",
        what.name(),
        " at ",
        places.format(place),
        "\n",
    ]
    .concat(alloc)
}

/// Makes the text of the remarks on a solution, unless it is to be left out, and returns whether it does not hold.
fn solution_text<B: Board>(
    alloc: Global,
    query: &CheckArgs,
    solution: &Solution<'_, B>,
) -> Result<(Vec<u8>, bool), AllocError>
    requires compared { IsCompared B.geometry solution.now }
    ensures { IfOk result (λ told. (remarks : List AnyRemark)
        × AreRemarks B.geometry solution.now.tree.now.paths solution.now.n solution.now.tree.now.start [] remarks
        × IsChecked B.geometry query.now (numbered solution.now.problem.now) solution.now.tree.now.start solution.now.n
        remarks told.1 told.0.items) }
{
    let tally = tally_of(solution.checked.remarks.as_slice());
    if is_left_out(query, solution) {
        return Ok((Vec::new(alloc), !tally.holds()));
    }
    let text = checked_text(alloc, query.json, solution, tally)?;
    Ok((text, !tally.holds()))
}

/// Returns whether a solution is left out: with `--faults`, if there are no remarks on it.
fn is_left_out<B: Board>(query: &CheckArgs, solution: &Solution<'_, B>) -> bool
    ensures { (said : List AnyRemark)
        → map (remark_in solution.now.tree.now.paths) solution.now.checked.now.remarks.items ≡ map (λ r. Some r) said
        → result ≡ (query.now.faults && is_none said) }
{
    query.faults && solution.checked.remarks.is_empty()
}

/// Makes the text of the remarks on a solution: its row, or words.
fn checked_text<B: Board>(
    alloc: Global,
    json: bool,
    solution: &Solution<'_, B>,
    tally: Tally,
) -> Result<Vec<u8>, AllocError>
    requires compared { IsCompared B.geometry solution.now }
    requires tally { (said : List AnyRemark)
        → map (remark_in solution.now.tree.now.paths) solution.now.checked.now.remarks.items ≡ map (λ r. Some r) said
        → tallied tally ≡ counted said }
    ensures { (said : List AnyRemark)
        → map (remark_in solution.now.tree.now.paths) solution.now.checked.now.remarks.items ≡ map (λ r. Some r) said
        → AreRemarks B.geometry solution.now.tree.now.paths solution.now.n solution.now.tree.now.start [] said
        → IfOk result (λ text. MatchBool json (IsCheckedLine B.geometry (numbered solution.now.problem.now).number
        solution.now.tree.now.start solution.now.n said text.items) (IsCheckedText B.geometry
        (numbered solution.now.problem.now) solution.now.tree.now.start solution.now.n said text.items)) }
{
    if json {
        Ok(row_of(alloc, solution, tally)?.into_bytes())
    } else {
        plain_text(alloc, solution, tally)
    }
}

/// Makes the row of a solution.
fn row_of<B: Board>(
    alloc: Global,
    solution: &Solution<'_, B>,
    tally: Tally,
) -> Result<String, AllocError>
    requires compared { IsCompared B.geometry solution.now }
    requires tally { (said : List AnyRemark)
        → map (remark_in solution.now.tree.now.paths) solution.now.checked.now.remarks.items ≡ map (λ r. Some r) said
        → tallied tally ≡ counted said }
    ensures { (said : List AnyRemark)
        → map (remark_in solution.now.tree.now.paths) solution.now.checked.now.remarks.items ≡ map (λ r. Some r) said
        → IfOk result (λ line. IsCheckedLine B.geometry (numbered solution.now.problem.now).number
        solution.now.tree.now.start solution.now.n said (string_bytes line)) }
{
    dw_study::laws::remarks_have_texts();
    let numbers = CheckNumbers {
        wins: solution.checked.wins,
        holds: tally.holds(),
        fail: tally.fails,
        end: tally.ends,
        open: tally.open,
        also: tally.also,
    };
    let made = checked_row(
        alloc,
        solution.problem.number,
        solution.n,
        numbers,
        solution.tree,
        solution.checked.remarks.as_slice(),
    )?;
    match made {
        Some(line) => Ok(line),
        None => Ok(String::new(alloc)),
    }
}

/// Makes the text of the remarks on a solution in words.
fn plain_text<B: Board>(
    alloc: Global,
    solution: &Solution<'_, B>,
    tally: Tally,
) -> Result<Vec<u8>, AllocError>
    requires compared { IsCompared B.geometry solution.now }
    requires tally { (said : List AnyRemark)
        → map (remark_in solution.now.tree.now.paths) solution.now.checked.now.remarks.items ≡ map (λ r. Some r) said
        → tallied tally ≡ counted said }
    ensures { (said : List AnyRemark)
        → map (remark_in solution.now.tree.now.paths) solution.now.checked.now.remarks.items ≡ map (λ r. Some r) said
        → AreRemarks B.geometry solution.now.tree.now.paths solution.now.n solution.now.tree.now.start [] said
        → IfOk result (λ text. IsCheckedText B.geometry (numbered solution.now.problem.now)
        solution.now.tree.now.start solution.now.n said text.items) }
{
    dw_study::laws::remarks_have_texts();
    let mut text = Vec::new(alloc);
    push(
        &mut text,
        problem_line(solution.problem).as_str().as_bytes(),
    )?;
    push(
        &mut text,
        win_line(alloc, solution.checked.wins, solution.n)?
            .as_str()
            .as_bytes(),
    )?;
    push_remarks(
        alloc,
        solution.tree,
        solution.checked.remarks.as_slice(),
        &mut text,
    )?;
    push(
        &mut text,
        last_line(alloc, solution.n, tally)?.as_str().as_bytes(),
    )?;
    Ok(text)
}

/// Makes the line that there is no win, if there is none.
fn win_line(alloc: Global, wins: bool, n: u8) -> Result<String, AllocError>
    ensures win { IsTrue wins → IfOk result (λ line. string_bytes line ≡ []) }
    ensures none { wins ≡ false → IfOk result (λ line. string_bytes line ≡ no_win_line n) }
{
    if wins {
        Ok(String::new(alloc))
    } else {
        let mut digits = Buffer::new();
        ["no win in ", digits.format(n), "\n"].concat(alloc)
    }
}

/// Appends the texts of remarks on a tree, in turn.
fn push_remarks<B: Board>(
    alloc: Global,
    tree: &Tree<B>,
    remarks: &[Remark<B>],
    text: &mut Vec<u8>,
) -> Result<(), AllocError>
    ensures { (said : List AnyRemark) → map (remark_in tree.now.paths) remarks.now ≡ map (λ r. Some r) said
        → ((r : AnyRemark) → Member r said → HasTexts B.geometry tree.now.start r)
        → OnOk result ((told : List ℕ) × AreTexts (IsRemarkText B.geometry tree.now.start) said told
        × Appends text.old.items text.new.items told) }
{
    'remarks: for remark in remarks {
        push_remark(alloc, tree, remark, text)?;
    }
    Ok(())
}

/// Appends the text of a remark on a tree.
fn push_remark<B: Board>(
    alloc: Global,
    tree: &Tree<B>,
    remark: &Remark<B>,
    text: &mut Vec<u8>,
) -> Result<(), AllocError>
    ensures { (r : AnyRemark) → remark_in tree.now.paths remark.now ≡ Some r
        → HasTexts B.geometry tree.now.start r
        → OnOk result ((told : List ℕ) × IsRemarkText B.geometry tree.now.start r told
        × Appends text.old.items text.new.items told) }
{
    if let Some(told) = remark_text(alloc, tree, remark)? {
        push(text, told.as_str().as_bytes())?;
    }
    Ok(())
}

/// The numbers of remarks of each kind.
#[derive(Clone, Copy, Default)]
struct Tally {
    fails: u64,
    ends: u64,
    open: u64,
    also: u64,
}

impl Tally {
    /// Returns these numbers with one more remark.
    fn with<B: Board>(self, remark: &Remark<B>) -> Tally
        requires { total self < 18446744073709551615 }
        ensures counts { (tree : List (List Move)) (r : AnyRemark) → remark_in tree remark.now ≡ Some r
            → tallied result ≡ one_more r (tallied self) }
        ensures total { total result ≡ total self + 1 }
    {
        match remark {
            Remark::Fails { .. } => Tally {
                fails: self.fails + 1,
                ..self
            },
            Remark::Ends { .. } => Tally {
                ends: self.ends + 1,
                ..self
            },
            Remark::Open { .. } => Tally {
                open: self.open + 1,
                ..self
            },
            Remark::Also { .. } => Tally {
                also: self.also + 1,
                ..self
            },
        }
    }

    /// Returns whether a solution with these remarks holds: no move of it fails, and no path of it ends too soon.
    fn holds(self) -> bool
        ensures { result ≡ of.holds (tallied self) }
    {
        self.fails == 0 && self.ends == 0
    }
}

/// Counts the remarks of each kind.
fn tally_of<B: Board>(remarks: &[Remark<B>]) -> Tally
    ensures { (tree : List (List Move)) (said : List AnyRemark)
        → map (remark_in tree) remarks.now ≡ map (λ r. Some r) said → tallied result ≡ counted said }
{
    let mut tally = Tally::default();
    'remarks: for remark in remarks {
        tally = tally.with(remark);
    }
    tally
}

/// Makes the last line: whether the solution holds, and the numbers of remarks.
fn last_line(alloc: Global, n: u8, tally: Tally) -> Result<String, AllocError>
    ensures { IfOk result (λ line. string_bytes line ≡ of.last_line n (tallied tally)) }
{
    let mut digits = Buffer::new();
    let mut fails = Buffer::new();
    let mut ends = Buffer::new();
    let mut open = Buffer::new();
    let mut also = Buffer::new();
    [
        word(tally.holds()),
        " in ",
        digits.format(n),
        ": ",
        fails.format(tally.fails),
        " fail, ",
        ends.format(tally.ends),
        " end, ",
        open.format(tally.open),
        " open, ",
        also.format(tally.also),
        " also\n",
    ]
    .concat(alloc)
}

/// Returns the word that says whether a solution holds.
fn word(holds: bool) -> &'static str
    ensures { result.now ≡ (if holds then codes "holds" else codes "fails") }
{
    if holds { "holds" } else { "fails" }
}
