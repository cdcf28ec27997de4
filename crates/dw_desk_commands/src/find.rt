//! The command `find`: the verdict on each problem, at the least number of moves within which it is won or at a given
//! number.
ghost use Rattle.std.specs.Prelude.{◌≡◌, ◌≤◌, ◌-◌, ◌++◌, ⊤, not, option_map, true, IfOk, IsErrOf};
ghost use Rattle.std.specs.String.{string_bytes};
ghost use Rattle.dw_desk_commands.specs.Find.{HasSolution, IsFindOf, IsFound, IsJsonOf, SaysFound, is_open};
ghost use Rattle.dw_desk_commands.specs.FindLater.{HasLater, lines_of, won_in};
ghost use Rattle.dw_desk_commands.specs.ProblemText.{IsProblemText};
ghost use Rattle.dw_desk_commands.specs.inner.LaterTold.{later_told};
ghost use Rattle.dw_desk_commands.specs.inner.Searching.{IsBounded};
ghost use Rattle.dw_games.specs.Games.{problem_of};
ghost use Rattle.dw_notation.specs.Problems.{numbered};
ghost use Rattle.dw_report.specs.Report.{first_line};
ghost use Rattle.dw_solve.specs.declared.stop.Stop.TheVariants.{Limit};
ghost use Rattle.dw_study.specs.Telling.{told_by};

use crate::desk::Desk;
use crate::json_rows::found_line;
use crate::reporting::MakesText;
use crate::solution::lines_within;
use dw_arguments::{FindArgs, USUAL_LINES};
use dw_board::{Board, Position};
use dw_first_moves::{LaterBounds, later_lines, later_texts, later_wins};
use dw_games::Game;
use dw_notation::Problem;
use dw_report::{Stop, refused_line};
use dw_solution::FirstLines;
use dw_solve::Guide;
use dw_stipulation::MoveCount;
use dw_study::find::find;
use dw_study::{FindBounds, Finding, found_text};
use dw_verdict::Verdict;
use std::alloc::{AllocError, Global};

impl<B: Board> MakesText<B, bool> for FindArgs {
    ghost says = { λ query expanded game. IsFindOf B.geometry query expanded (problem_of game) };

    ghost is_headed = { λ query. not query.json };

    ghost may_answer = { λ refused. ⊤ };

    ghost counts_on = { ⊤ };

    fn has_heading(&self) -> bool {
        !self.json
    }

    fn text_of<G: Guide<B>>(
        &self,
        desk: &mut Desk<B, G>,
        game: &Game<B>,
    ) -> Result<(Vec<u8>, bool), Stop> {
        if self.json {
            let (row, is_refused) = json_of(desk, self, &game.problem)?;
            Ok((row.into_bytes(), is_refused))
        } else {
            let (words, is_refused) = words_of(desk, self, &game.problem)?;
            Ok((words.into_bytes(), is_refused))
        }
    }
}

/// Makes the text after the first line of one problem, and returns whether it was refused or stayed undecided.
fn words_of<B: Board, G: Guide<B>>(
    desk: &mut Desk<B, G>,
    query: &FindArgs,
    problem: &Problem<B>,
) -> Result<(String, bool), Stop>
    ensures text { IfOk result (λ told. IsProblemText B.geometry (SaysFound B.geometry query.now
        (desk.new.solver.expanded - desk.old.solver.expanded)) (numbered problem.now) told.1
        (first_line B.geometry (numbered problem.now) ++ string_bytes told.0)) }
    ensures counts { desk.old.solver.expanded ≤ desk.new.solver.expanded }
    ensures stop { IsErrOf result Limit → desk.new.solver.expanded ≡ u64.MAX }
{
    let Ok(position) = &problem.found else {
        return Ok((String::new(desk.alloc), true));
    };
    let finding = search(desk, query, problem.number, position)?;
    let later = later_of(desk, query, position, &finding)?;
    let text = found_text(desk.alloc, position, &finding)?;
    Ok((
        with_later(desk.alloc, text, &later)?,
        is_undecided(&finding),
    ))
}

/// Makes the line of JSON of one problem, and returns whether it was refused or stayed undecided.
fn json_of<B: Board, G: Guide<B>>(
    desk: &mut Desk<B, G>,
    query: &FindArgs,
    problem: &Problem<B>,
) -> Result<(String, bool), Stop>
    ensures row { IfOk result (λ told. IsJsonOf B.geometry query.now
        (desk.new.solver.expanded - desk.old.solver.expanded) problem.now.number problem.now.found told.1
        (string_bytes told.0)) }
    ensures counts { desk.old.solver.expanded ≤ desk.new.solver.expanded }
    ensures stop { IsErrOf result Limit → desk.new.solver.expanded ≡ u64.MAX }
{
    let number = problem.number;
    match &problem.found {
        Ok(position) => {
            let finding = search(desk, query, number, position)?;
            let solution = solution_lines(desk, query, position, &finding)?;
            let later = later_of(desk, query, position, &finding)?;
            let line = found_line(desk.alloc, number, position, &finding, &solution, &later)?;
            Ok((line, is_undecided(&finding)))
        }
        Err(fault) => Ok((refused_line(desk.alloc, number, *fault)?, true)),
    }
}

/// Lists the first lines of the solution, if they are asked for and the position is judged. The memo has what the
/// search for the verdict found.
fn solution_lines<B: Board, G: Guide<B>>(
    desk: &mut Desk<B, G>,
    query: &FindArgs,
    position: &Position<B>,
    finding: &Finding<B>,
) -> Result<Option<FirstLines<B>>, Stop>
    ensures solution { IfOk result (HasSolution B.geometry query.now position.now (told_by finding.now)) }
    ensures same { is_open (told_by finding.now) ≡ true → desk.new.solver.expanded ≡ desk.old.solver.expanded }
    ensures counts { desk.old.solver.expanded ≤ desk.new.solver.expanded }
    ensures stop { IsErrOf result Limit → desk.new.solver.expanded ≡ u64.MAX }
{
    if !query.solution {
        return Ok(None);
    }
    match finding {
        Finding::Judged { moves, .. } => {
            let first = lines_within(desk, position, *moves, USUAL_LINES)?;
            Ok(Some(first))
        }
        Finding::Undecided { .. } => Ok(None),
    }
}

/// Makes the texts of the first moves that win later, if they are asked for and there is a win.
fn later_of<B: Board, G: Guide<B>>(
    desk: &mut Desk<B, G>,
    query: &FindArgs,
    position: &Position<B>,
    finding: &Finding<B>,
) -> Result<Option<Vec<(String, u8)>>, Stop>
    ensures later { IfOk result (λ later. HasLater B.geometry position.now (won_in (told_by finding.now))
        query.now.later (later_told later)) }
    ensures same { is_open (told_by finding.now) ≡ true → desk.new.solver.expanded ≡ desk.old.solver.expanded }
    ensures counts { desk.old.solver.expanded ≤ desk.new.solver.expanded }
    ensures stop { IsErrOf result Limit → desk.new.solver.expanded ≡ u64.MAX }
{
    let (Some(moves), Some(more)) = (won_in(finding), query.later) else {
        return Ok(None);
    };
    let bounds = LaterBounds::new(moves, more);
    let later = later_wins(desk.alloc, &mut desk.solver, position, bounds)?;
    let texts = later_texts(desk.alloc, position, later.as_slice())?;
    Ok(Some(texts))
}

/// Returns the number of moves at which a position was judged, if there is a win.
fn won_in<B: Board>(finding: &Finding<B>) -> Option<MoveCount>
    ensures { option_map (λ moves. moves.value) result ≡ won_in (told_by finding.now) }
{
    match finding {
        Finding::Judged { moves, judged } => match &judged.verdict {
            Verdict::Unsolvable => None,
            Verdict::Cooked { .. } | Verdict::Dual { .. } | Verdict::Sound { .. } => Some(*moves),
        },
        Finding::Undecided { .. } => None,
    }
}

/// Adds the lines of later wins to a text, if they are there.
fn with_later(
    alloc: Global,
    mut text: String,
    later: &Option<Vec<(String, u8)>>,
) -> Result<String, AllocError>
    ensures { IfOk result (λ whole. string_bytes whole ≡ string_bytes text ++ lines_of (later_told later.now)) }
{
    if let Some(texts) = later {
        let lines = later_lines(alloc, texts.as_slice())?;
        text.push_str(lines.as_str())?;
    }
    Ok(text)
}

/// Returns whether it stays open whether there is a win.
fn is_undecided<B: Board>(finding: &Finding<B>) -> bool
    ensures { result ≡ is_open (told_by finding.now) }
{
    matches!(finding, Finding::Undecided { .. })
}

/// Finds the verdict on a position. If the number of positions is bounded, the memo is empty first, so that nothing
/// depends on the problems before.
fn search<B: Board, G: Guide<B>>(
    desk: &mut Desk<B, G>,
    query: &FindArgs,
    number: u32,
    position: &Position<B>,
) -> Result<Finding<B>, Stop>
    ensures found { IfOk result (λ finding. IsFound B.geometry query.now
        (desk.new.solver.expanded - desk.old.solver.expanded) position.now (told_by finding)) }
    ensures bounded { IfOk result (IsBounded B.geometry position.now query.now.moves.value query.now.each
        desk.old.solver.expanded desk.new.solver) }
    ensures counts { desk.old.solver.expanded ≤ desk.new.solver.expanded }
    ensures stop { IsErrOf result Limit → desk.new.solver.expanded ≡ u64.MAX }
{
    if query.each.is_some() {
        desk.solver.clear_memo();
    }
    let bounds = FindBounds {
        moves: query.moves,
        is_least: query.is_least,
        each: query.each,
    };
    desk.begin(number);
    let finding = find(desk.alloc, &mut desk.solver, position, bounds)?;
    Ok(finding)
}
