//! The command `solution`: each problem with its solution, as a game of a PDN file or as a row of JSON.
ghost use Rattle.std.specs.Prelude.{◌≡◌, ◌≤◌, ◌++◌, ℕ, ⊤, List, codes, false, map, IfOk, OnOk, IsErrOf};
ghost use Rattle.dw_notation.specs.Streams.{Appends};
ghost use Rattle.std.specs.List.{flat_map};
ghost use Rattle.std.specs.String.{string_bytes};
ghost use Rattle.dw_desk_commands.specs.Solution.{AreFirstLines, AreWrittenTags, IsGameFor, IsMovetextOf};
ghost use Rattle.dw_desk_commands.specs.Solution.{IsSolutionLine, IsNumberOf, IsSolutionOf, new_lines, own_line};
ghost use Rattle.dw_study.specs.Finding.{IsJudgedAt, IsNumberFor};
ghost use Rattle.dw_desk_commands.specs.Solution as of;
ghost use Rattle.dw_games.specs.TagRows.{tag_text};
ghost use Rattle.dw_solve.specs.declared.stop.Stop.TheVariants.{Limit};
ghost use Rattle.dw_verdict.specs.Judging.{said_by};
ghost use Rattle.dw_verdict.specs.Verdict.{IsVerdict};

use crate::desk::Desk;
use crate::reporting::{MakesText, push};
use dw_arguments::SolutionArgs;
use dw_board::{Board, Position, fen_text};
use dw_games::{Game, Tag, read_tags};
use dw_notation::{Problem, ProblemFault};
use dw_report::{Stop, refusal_text, refused_line};
use dw_rows::solution_row;
use dw_solution::movetext::movetext;
use dw_solution::{FirstLines, Heading, SolutionText, VerdictKind, first_lines};
use dw_solve::Guide;
use dw_stipulation::MoveCount;
use dw_verdict::Verdict;
use dw_verdict::judge::verdict;
use itoa::Buffer;
use std::alloc::{AllocError, Global};

impl<B: Board> MakesText<B, bool> for SolutionArgs {
    ghost says = { λ query expanded. IsSolutionOf B.geometry query };

    ghost is_headed = { λ query. false };

    ghost may_answer = { λ refused. ⊤ };

    ghost counts_on = { ⊤ };

    fn has_heading(&self) -> bool {
        false
    }

    /// Makes a game, or a row, of a problem, and returns whether it is refused.
    fn text_of<G: Guide<B>>(
        &self,
        desk: &mut Desk<B, G>,
        game: &Game<B>,
    ) -> Result<(Vec<u8>, bool), Stop> {
        if self.json {
            let (row, is_refused) = row_of(desk, self, &game.problem)?;
            Ok((row.into_bytes(), is_refused))
        } else {
            game_of(desk, self, game)
        }
    }
}

/// Makes a game of a problem, with the tags of its section, and returns whether it is refused.
fn game_of<B: Board, G: Guide<B>>(
    desk: &mut Desk<B, G>,
    query: &SolutionArgs,
    game: &Game<B>,
) -> Result<(Vec<u8>, bool), Stop>
    ensures text { IfOk result (λ told. IsGameFor B.geometry query.now game.now.problem.number game.now.problem.found
        game.now.tags.items told.1 told.0.items) }
    ensures counts { desk.old.solver.expanded ≤ desk.new.solver.expanded }
    ensures stop { IsErrOf result Limit → desk.new.solver.expanded ≡ u64.MAX }
{
    let number = game.problem.number;
    match &game.problem.found {
        Ok(position) => {
            let solved = searched(desk, query, number, position)?;
            let text = written_game(desk.alloc, position, game.tags.as_slice(), &solved)?;
            Ok((text, false))
        }
        Err(fault) => Ok((refused_game(desk.alloc, number, *fault)?.into_bytes(), true)),
    }
}

/// Makes the text of a game: its tags, its movetext, and an empty line.
fn written_game<B: Board>(
    alloc: Global,
    position: &Position<B>,
    section: &[u8],
    solved: &Solved<B>,
) -> Result<Vec<u8>, AllocError>
    ensures { IfOk result (λ text. (tags : List ℕ) × AreWrittenTags B.geometry position.now section.now tags
        × (text.items ≡ tags ++ (solved.now.movetext.text.items ++ codes "\n\n"))) }
{
    let mut text = Vec::new(alloc);
    push_tags(alloc, position, section, &mut text)?;
    push(&mut text, solved.movetext.text.as_slice())?;
    push(&mut text, b"\n\n")?;
    Ok(text)
}

/// Makes the row of a problem, and says whether the problem is refused.
fn row_of<B: Board, G: Guide<B>>(
    desk: &mut Desk<B, G>,
    query: &SolutionArgs,
    problem: &Problem<B>,
) -> Result<(String, bool), Stop>
    ensures row { IfOk result (λ told. IsSolutionLine B.geometry query.now problem.now.number problem.now.found told.1
        (string_bytes told.0)) }
    ensures counts { desk.old.solver.expanded ≤ desk.new.solver.expanded }
    ensures stop { IsErrOf result Limit → desk.new.solver.expanded ≡ u64.MAX }
{
    let number = problem.number;
    match &problem.found {
        Ok(position) => {
            let solved = searched(desk, query, number, position)?;
            let lines = solved.movetext.lines;
            let line = solution_row(desk.alloc, number, solved.heading, &solved.first, lines)?;
            Ok((line, false))
        }
        Err(fault) => Ok((refused_line(desk.alloc, number, *fault)?, true)),
    }
}

/// Makes the game of a refused problem, whose event says why.
fn refused_game(alloc: Global, number: u32, fault: ProblemFault) -> Result<String, AllocError>
    ensures { IfOk result (λ text. string_bytes text ≡ of.refused_game number fault) }
{
    let mut digits = Buffer::new();
    let why = refusal_text(fault);
    [
        "[Event \"problem ",
        digits.format(number),
        ": refused: ",
        why.as_str(),
        "\"]\n\n*\n\n",
    ]
    .concat(alloc)
}

/// Searches for the solution of a problem.
fn searched<B: Board, G: Guide<B>>(
    desk: &mut Desk<B, G>,
    query: &SolutionArgs,
    number: u32,
    position: &Position<B>,
) -> Result<Solved<B>, Stop>
    ensures solved { IfOk result (λ s. (n : ℕ) × IsNumberOf B.geometry query.now position.now n
        × IsMovetextOf B.geometry position.now n query.now.lines s.heading s.first s.movetext.lines
        s.movetext.text.items) }
    ensures counts { desk.old.solver.expanded ≤ desk.new.solver.expanded }
    ensures stop { IsErrOf result Limit → desk.new.solver.expanded ≡ u64.MAX }
{
    desk.begin(number);
    let moves = number_for(desk, position, query.moves, query.is_least)?;
    let verdict = verdict(desk.alloc, &mut desk.solver, position, moves.value)?;
    solved_within(desk, position, moves, query.lines, &verdict)
}

/// Finds the requested number of moves: `moves`, or the least up to it within which there is a win.
pub(crate) fn number_for<B: Board, G: Guide<B>>(
    desk: &mut Desk<B, G>,
    position: &Position<B>,
    moves: MoveCount,
    is_least: bool,
) -> Result<MoveCount, Stop>
    ensures number { IfOk result (λ n. IsNumberFor B.geometry position.now is_least moves.value n.value) }
    ensures counts { desk.old.solver.expanded ≤ desk.new.solver.expanded }
    ensures stop { IsErrOf result Limit → desk.new.solver.expanded ≡ u64.MAX }
{
    if is_least {
        least_number(desk, position, moves)
    } else {
        Ok(moves)
    }
}

/// Finds the least number of moves within which there is a win; or the most, if there is none within fewer.
fn least_number<B: Board, G: Guide<B>>(
    desk: &mut Desk<B, G>,
    position: &Position<B>,
    most: MoveCount,
) -> Result<MoveCount, Stop>
    ensures number { IfOk result (λ moves. IsJudgedAt B.geometry position.now most.value moves.value) }
    ensures counts { desk.old.solver.expanded ≤ desk.new.solver.expanded }
    ensures stop { IsErrOf result Limit → desk.new.solver.expanded ≡ u64.MAX }
{
    dw_solve::laws::wins_are_decided();
    'moves: for value in 1..most.value {
        if desk.solver.wins(desk.alloc, position, value)? {
            return Ok(MoveCount { value });
        }
    }
    Ok(most)
}

/// The solution of a position: its verdict, its first lines, and their movetext.
#[derive(Drop)]
pub(crate) struct Solved<B: Board> {
    pub(crate) heading: Heading,
    pub(crate) first: FirstLines<B>,
    pub(crate) movetext: SolutionText,
}

/// Makes the solution of a position within `moves` moves, with at most `lines` lines. The verdict must be that of the
/// position.
pub(crate) fn solved_within<B: Board, G: Guide<B>>(
    desk: &mut Desk<B, G>,
    position: &Position<B>,
    moves: MoveCount,
    lines: usize,
    verdict: &Verdict<B>,
) -> Result<Solved<B>, Stop>
    requires verdict { IsVerdict B.geometry position.now moves.value (said_by verdict.now) }
    ensures solved { IfOk result (λ s. IsMovetextOf B.geometry position.now moves.value lines s.heading s.first
        s.movetext.lines s.movetext.text.items) }
    ensures counts { desk.old.solver.expanded ≤ desk.new.solver.expanded }
    ensures stop { IsErrOf result Limit → desk.new.solver.expanded ≡ u64.MAX }
{
    let first = lines_within(desk, position, moves, lines)?;
    let heading = Heading {
        kind: kind_of(verdict),
        moves: moves.value,
    };
    let movetext = movetext(desk.alloc, &first, heading)?;
    Ok(Solved {
        heading,
        first,
        movetext,
    })
}

/// Lists the first lines of a position within `moves` moves, at most `most`.
pub(crate) fn lines_within<B: Board, G: Guide<B>>(
    desk: &mut Desk<B, G>,
    position: &Position<B>,
    moves: MoveCount,
    most: usize,
) -> Result<FirstLines<B>, Stop>
    ensures lines { IfOk result (AreFirstLines B.geometry position.now moves.value most) }
    ensures counts { desk.old.solver.expanded ≤ desk.new.solver.expanded }
    ensures stop { IsErrOf result Limit → desk.new.solver.expanded ≡ u64.MAX }
{
    dw_list::laws::lines_exist();
    first_lines(desk.alloc, &mut desk.solver, position, moves, most)
}

/// Returns the kind of a verdict.
fn kind_of<B: Board>(verdict: &Verdict<B>) -> VerdictKind
    ensures { result ≡ of.kind_of (said_by verdict.now) }
{
    match verdict {
        Verdict::Unsolvable => VerdictKind::Unsolvable,
        Verdict::Cooked { .. } => VerdictKind::Cooked,
        Verdict::Dual { .. } => VerdictKind::Dual,
        Verdict::Sound { .. } => VerdictKind::Sound,
    }
}

/// Appends the tags of a game, and the empty line after them: those of its section but for `GameType` and `FEN`, as
/// they stood, and then these two.
fn push_tags<B: Board>(
    alloc: Global,
    position: &Position<B>,
    section: &[u8],
    text: &mut Vec<u8>,
) -> Result<(), AllocError>
    ensures { OnOk result ((tags : List ℕ) × AreWrittenTags B.geometry position.now section.now tags
        × Appends text.old.items text.new.items tags) }
{
    let tags = read_tags(alloc, section)?;
    push_own_tags(tags.as_slice(), text)?;
    push(text, new_tags(alloc, position)?.as_str().as_bytes())
}

/// Appends the tags of a section but for those that are written anew.
fn push_own_tags(tags: &[Tag<'_>], text: &mut Vec<u8>) -> Result<(), AllocError>
    ensures { OnOk result (Appends text.old.items text.new.items (flat_map own_line (map tag_text tags.now))) }
{
    'tags: for tag in tags {
        push_own(tag, text)?;
    }
    Ok(())
}

/// Makes the tags that are written anew, and the empty line after them.
fn new_tags<B: Board>(alloc: Global, position: &Position<B>) -> Result<String, AllocError>
    ensures { IfOk result (λ text. string_bytes text ≡ new_lines B.geometry position.now) }
{
    let fen = fen_text(position);
    [type_line::<B>(), "[FEN \"", fen.as_str(), "\"]\n\n"].concat(alloc)
}

/// Returns the line with the type of the game for the board of ten rows, and an empty text for another board.
fn type_line<B: Board>() -> &'static str
    ensures { result.now ≡ of.type_line B.geometry }
{
    if B::ROWS == 10 {
        "[GameType \"20\"]\n"
    } else {
        ""
    }
}

/// Appends a tag in a line of its own, unless it is written anew.
fn push_own(tag: &Tag<'_>, text: &mut Vec<u8>) -> Result<(), AllocError>
    ensures { OnOk result (Appends text.old.items text.new.items (own_line (tag_text tag.now))) }
{
    if !tag.is_named(b"GameType") && !tag.is_named(b"FEN") {
        push(text, tag.text)?;
        push(text, b"\n")?;
    }
    Ok(())
}
