//! The command `page`: all problems on a page, with diagrams and solutions.
ghost use Rattle.std.specs.Prelude.{◌≡◌, ◌≤◌, ◌⊎◌, ◌++◌, ◌∷◌, [], ℕ, Bool, List, true, false, IfErr, IfOk, OnOk, map};
ghost use Rattle.std.specs.Prelude.{filter_map, option_map, Err, IsErrOf};
ghost use Rattle.dw_notation.specs.Streams.{Appends};
ghost use Rattle.dw_desk_commands.specs.Page.{HasMoves, IsPage, IsPageOf, IsPageStop, IsPart, IsPositionPart};
ghost use Rattle.dw_desk_commands.specs.Page.{IsSolved, Stands as StandsAt};
ghost use Rattle.dw_desk_commands.specs.Page.{language_for, task_part};
ghost use Rattle.dw_desk_commands.specs.Page as of;
ghost use Rattle.dw_desk_commands.specs.Find.{is_open};
ghost use Rattle.dw_desk_commands.specs.inner.Choosing.{AreToCome, GoesOn, HaveGames, MayBe, Runs};
ghost use Rattle.dw_desk_commands.specs.inner.Standing.{Stands, StandsOf};
ghost use Rattle.dw_desk_commands.specs.inner.Faults.{CommandFails, ReportFails, SinkFails};
ghost use Rattle.dw_games.specs.GameReading.{numbered_game};
ghost use Rattle.dw_games.specs.Games.{NumberedGame};
ghost use Rattle.dw_games.specs.TagRows.{TagText, AreTags};
ghost use Rattle.dw_page.specs.Pages.{author_of, end, head, refused, values_of};
ghost use Rattle.dw_verdict.specs.Judging.{said_by};
ghost use Rattle.dw_report.specs.Refusals as refusals;
ghost use Rattle.dw_verdict.specs.Verdict.{IsVerdict, Tries};
ghost use Rattle.dw_solve.specs.declared.stop.Stop.TheVariants.{Limit};
ghost use Rattle.dw_study.specs.Finding.{IsFinding};
ghost use Rattle.dw_study.specs.Telling.{told_by};

use crate::chosen::Chosen;
use crate::desk::{Counts, Desk, DeskFault};
use crate::page_rows::{tries_shown, verdict_row};
use crate::solution::solved_within;
use dw_arguments::{PageArgs, PageLanguage, Placing};
use dw_board::{Board, Position};
use dw_games::{Game, read_tags, value_named};
use dw_notation::{ProblemFault, Sink, Source, write_all};
use dw_page::{
    Heading, Language, Look, Solution, Task, push_end, push_end_of_problem, push_head,
    push_problem, push_refused, push_solution, push_solutions_heading,
};
use dw_report::{Stop, refusal_text};
use dw_solve::Guide;
use dw_study::find::find;
use dw_study::{FindBounds, Finding};
use dw_verdict::Judged;
use dw_verdict::judge::judge;
use std::alloc::{AllocError, Global};

/// Writes the page, each problem as soon as it is read. If problems were asked for by their numbers and none of them is
/// there, nothing is written.
pub(crate) fn page_problems<B: Board, G: Guide<B>, S: Source, K: Sink>(
    desk: &mut Desk<B, G>,
    chosen: &mut Chosen<'_, B, S>,
    query: &PageArgs<'_>,
    sink: &mut K,
) -> Result<Counts, DeskFault>
    requires works { K.is_failed sink.old ≡ false }
    requires runs { Runs chosen.old.text }
    requires games { HaveGames B.geometry S.supply chosen.old }
    ensures report { IfOk result (λ counts. (games : List NumberedGame) × (text : List ℕ)
        × ((whole : List ℕ) → MayBe S.supply chosen.new whole
        → AreToCome B.geometry S.supply chosen.old whole games)
        × IsPageOf B.geometry query.now chosen.old.portion games counts text
        × Appends (K.accepted sink.old) (K.accepted sink.new) text) }
    ensures on { GoesOn S.supply chosen.old.text chosen.new.text }
    ensures ends { CommandFails S.is_failed (K.is_failed sink.new) desk.new.solver.expanded chosen.old chosen.new
        result }
    ensures stands { IfErr result (StandsOf (IsPageStop B.geometry query.now)
        (λ games text. (counts : Counts) × IsPageOf B.geometry query.now chosen.old.portion games counts text)
        (MayBe S.supply chosen.new) (AreToCome B.geometry S.supply chosen.old)
        (K.accepted sink.old) (K.accepted sink.new)) }
{
    let Some(first) = chosen.next()? else {
        return empty_page::<B, K>(desk.alloc, query, chosen.must_exist(), sink);
    };
    let mut later = begin_page::<B, K>(desk.alloc, query, sink)?;
    let is_refused = write_part(desk, query, &first, &mut later, sink)?;
    let mut counts = Counts::default().with(is_refused);
    'games: while let Some(game) = chosen.next()? {
        counts = counts.with(write_part(desk, query, &game, &mut later, sink)?);
    }
    end_page(desk.alloc, &mut later, sink)?;
    Ok(counts)
}

/// Writes a page of no problems, or nothing if problems were asked for by their numbers.
fn empty_page<B: Board, K: Sink>(
    alloc: Global,
    query: &PageArgs<'_>,
    must_exist: bool,
    sink: &mut K,
) -> Result<Counts, DeskFault>
    requires { K.is_failed sink.old ≡ false }
    ensures page { IfOk result (λ counts. (text : List ℕ)
        × ((IsPage B.geometry query.now [] counts text × (must_exist ≡ false))
        ⊎ ((must_exist ≡ true) × (counts.shown ≡ 0) × (counts.refused ≡ 0) × (text ≡ [])))
        × Appends (K.accepted sink.old) (K.accepted sink.new) text) }
    ensures fails { SinkFails (K.is_failed sink.new) result }
    ensures stands { IfErr result (Stands (IsPageStop B.geometry query.now []) (λ text. (must_exist ≡ false)
        × (counts : Counts) × IsPage B.geometry query.now [] counts text) (K.accepted sink.old) (K.accepted sink.new)) }
{
    if must_exist {
        return Ok(Counts::default());
    }
    let mut later = begin_page::<B, K>(alloc, query, sink)?;
    end_page(alloc, &mut later, sink)?;
    Ok(Counts::default())
}

/// Writes the head of a page, and returns the text for its end: so far the heading of the solutions, if they stand
/// there.
fn begin_page<B: Board, K: Sink>(
    alloc: Global,
    query: &PageArgs<'_>,
    sink: &mut K,
) -> Result<Vec<u8>, DeskFault>
    requires { K.is_failed sink.old ≡ false }
    ensures head { IfOk result (λ _. Appends (K.accepted sink.old) (K.accepted sink.new)
        (head B.geometry (language_for query.now.language) query.now.title.now)) }
    ensures later { IfOk result (λ later. later.items
        ≡ of.heading_of query.now.solutions (language_for query.now.language)) }
    ensures works { IfOk result (λ _. K.is_failed sink.new ≡ false) }
    ensures fails { SinkFails (K.is_failed sink.new) result }
    ensures stands { IfErr result (Stands (λ text. text ≡ [])
        (λ text. text ≡ head B.geometry (language_for query.now.language) query.now.title.now)
        (K.accepted sink.old) (K.accepted sink.new)) }
{
    let mut head = Vec::new(alloc);
    push_head::<B>(alloc, &mut head, &look_of(query))?;
    let later = heading_of(alloc, query)?;
    write_piece(head.as_slice(), sink)?;
    Ok(later)
}

/// Writes a piece of a page.
pub(crate) fn write_piece<K: Sink>(piece: &[u8], sink: &mut K) -> Result<(), DeskFault>
    requires { K.is_failed sink.old ≡ false }
    ensures text { OnOk result (Appends (K.accepted sink.old) (K.accepted sink.new) piece.now) }
    ensures works { OnOk result (K.is_failed sink.new ≡ false) }
    ensures fails { SinkFails (K.is_failed sink.new) result }
    ensures stands { IfErr result (Stands (λ text. text ≡ []) (λ text. text ≡ piece.now) (K.accepted sink.old)
        (K.accepted sink.new)) }
{
    Ok(write_all(sink, piece)?)
}

/// Makes the heading of the solutions, if they stand at the end.
fn heading_of(alloc: Global, query: &PageArgs<'_>) -> Result<Vec<u8>, AllocError>
    ensures { IfOk result (λ text. text.items ≡ of.heading_of query.now.solutions (language_for query.now.language)) }
{
    let mut text = Vec::new(alloc);
    match query.solutions {
        Placing::End => push_solutions_heading(alloc, &mut text, &look_of(query))?,
        Placing::After | Placing::None => {}
    }
    Ok(text)
}

/// Writes the text for the end of a page, and its end.
fn end_page<K: Sink>(alloc: Global, later: &mut Vec<u8>, sink: &mut K) -> Result<(), DeskFault>
    requires { K.is_failed sink.old ≡ false }
    ensures text { OnOk result (Appends (K.accepted sink.old) (K.accepted sink.new) (later.old.items ++ end)) }
    ensures fails { SinkFails (K.is_failed sink.new) result }
    ensures stands { IfErr result (Stands (λ text. text ≡ []) (λ text. text ≡ later.old.items ++ end)
        (K.accepted sink.old) (K.accepted sink.new)) }
{
    push_end(alloc, later)?;
    write_piece(later.as_slice(), sink)
}

/// Writes the part of a problem, and returns whether the problem is refused.
fn write_part<B: Board, G: Guide<B>, K: Sink>(
    desk: &mut Desk<B, G>,
    query: &PageArgs<'_>,
    game: &Game<B>,
    later: &mut Vec<u8>,
    sink: &mut K,
) -> Result<bool, DeskFault>
    requires { K.is_failed sink.old ≡ false }
    ensures part { IfOk result (λ is_refused. (part new : List ℕ) × IsPart B.geometry query.now
        (numbered_game game.now).number (numbered_game game.now).said.found (numbered_game game.now).said.tags
        is_refused part new × (later.new.items ≡ later.old.items ++ new)
        × Appends (K.accepted sink.old) (K.accepted sink.new) part) }
    ensures works { IfOk result (λ _. K.is_failed sink.new ≡ false) }
    ensures fails { ReportFails (K.is_failed sink.new) desk.new.solver.expanded result }
    ensures stands { IfErr result (Stands (λ text. text ≡ []) (λ part. (is_refused : Bool) × (new : List ℕ)
        × IsPart B.geometry query.now (numbered_game game.now).number (numbered_game game.now).said.found
        (numbered_game game.now).said.tags is_refused part new) (K.accepted sink.old) (K.accepted sink.new)) }
{
    let (part, is_refused) = part_of(desk, query, game, later)?;
    desk.solver.make_way();
    write_piece(part.as_slice(), sink)?;
    Ok(is_refused)
}

/// Makes the part of a problem, and returns whether the problem is refused.
fn part_of<B: Board, G: Guide<B>>(
    desk: &mut Desk<B, G>,
    query: &PageArgs<'_>,
    game: &Game<B>,
    later: &mut Vec<u8>,
) -> Result<(Vec<u8>, bool), Stop>
    ensures part { IfOk result (λ made. (new : List ℕ) × IsPart B.geometry query.now
        (numbered_game game.now).number (numbered_game game.now).said.found (numbered_game game.now).said.tags
        made.1 made.0.items new × (later.new.items ≡ later.old.items ++ new)) }
    ensures stop { IsErrOf result Limit → desk.new.solver.expanded ≡ u64.MAX }
{
    let number = game.problem.number;
    match &game.problem.found {
        Ok(position) => {
            let section = game.tags.as_slice();
            let part = known_part(desk, query, number, position, section, later)?;
            Ok((part, false))
        }
        Err(fault) => Ok((refused_part(desk.alloc, query, number, *fault)?, true)),
    }
}

/// Makes the part of a problem that is refused.
fn refused_part(
    alloc: Global,
    query: &PageArgs<'_>,
    number: u32,
    fault: ProblemFault,
) -> Result<Vec<u8>, AllocError>
    ensures { IfOk result (λ part. part.items
        ≡ refused (language_for query.now.language) number (refusals.refusal_text fault)) }
{
    let mut part = Vec::new(alloc);
    let why = refusal_text(fault);
    push_refused(alloc, &mut part, &look_of(query), number, why.as_str())?;
    Ok(part)
}

/// Makes the part of a problem that has a position.
fn known_part<B: Board, G: Guide<B>>(
    desk: &mut Desk<B, G>,
    query: &PageArgs<'_>,
    number: u32,
    position: &Position<B>,
    section: &[u8],
    later: &mut Vec<u8>,
) -> Result<Vec<u8>, Stop>
    ensures part { IfOk result (λ part. (new : List ℕ)
        × IsPositionPart B.geometry query.now number position.now section.now part.items new
        × (later.new.items ≡ later.old.items ++ new)) }
    ensures stop { IsErrOf result Limit → desk.new.solver.expanded ≡ u64.MAX }
{
    if query.is_least {
        match found(desk, query, number, position)? {
            Finding::Judged { moves, judged } => {
                let task = Task {
                    number,
                    position,
                    moves,
                };
                judged_part(desk, query, &task, &judged, section, later)
            }
            Finding::Undecided { .. } => Err(Stop::Limit),
        }
    } else {
        let judged = judged_within(desk, query, number, position)?;
        let task = Task {
            number,
            position,
            moves: query.moves,
        };
        judged_part(desk, query, &task, &judged, section, later)
    }
}

/// Finds the least number of moves with a win, and the verdict.
fn found<B: Board, G: Guide<B>>(
    desk: &mut Desk<B, G>,
    query: &PageArgs<'_>,
    number: u32,
    position: &Position<B>,
) -> Result<Finding<B>, Stop>
    ensures finding { IfOk result (λ finding. IsFinding B.geometry position.now true query.now.moves.value
        (told_by finding)) }
    ensures judged { IfOk result (λ finding. is_open (told_by finding) ≡ false) }
    ensures stop { IsErrOf result Limit → desk.new.solver.expanded ≡ u64.MAX }
{
    let bounds = FindBounds {
        moves: query.moves,
        is_least: true,
        each: None,
    };
    desk.begin(number);
    find(desk.alloc, &mut desk.solver, position, bounds)
}

/// Finds the verdict within the requested number of moves.
fn judged_within<B: Board, G: Guide<B>>(
    desk: &mut Desk<B, G>,
    query: &PageArgs<'_>,
    number: u32,
    position: &Position<B>,
) -> Result<Judged<B>, Stop>
    ensures verdict { IfOk result (λ judged.
        IsVerdict B.geometry position.now query.now.moves.value (said_by judged.verdict)) }
    ensures tries { IfOk result (λ judged. Tries B.geometry position.now query.now.moves.value judged.tries.items) }
    ensures stop { IsErrOf result Limit → desk.new.solver.expanded ≡ u64.MAX }
{
    desk.begin(number);
    judge(desk.alloc, &mut desk.solver, position, query.moves.value)
}

/// Makes the part of a judged problem, with its solution if that belongs there.
fn judged_part<B: Board, G: Guide<B>>(
    desk: &mut Desk<B, G>,
    query: &PageArgs<'_>,
    task: &Task<'_, B>,
    judged: &Judged<B>,
    section: &[u8],
    later: &mut Vec<u8>,
) -> Result<Vec<u8>, Stop>
    requires verdict { IsVerdict B.geometry task.now.position.now task.now.moves.value (said_by judged.now.verdict) }
    requires tries { Tries B.geometry task.now.position.now task.now.moves.value judged.now.tries.items }
    requires query { HasMoves B.geometry query.now task.now.position.now task.now.moves.value }
    ensures part { IfOk result (λ part. (new : List ℕ)
        × IsPositionPart B.geometry query.now task.now.number task.now.position.now section.now part.items new
        × (later.new.items ≡ later.old.items ++ new)) }
    ensures stop { IsErrOf result Limit → desk.new.solver.expanded ≡ u64.MAX }
{
    let mut part = Vec::new(desk.alloc);
    push_tagged(desk, query, task, section, &mut part)?;
    push_placed(desk, query, task, judged, &mut part, later)?;
    push_end_of_problem(&mut part)?;
    Ok(part)
}

/// Appends the solution of a problem where it is to stand: after its problem, or later.
fn push_placed<B: Board, G: Guide<B>>(
    desk: &mut Desk<B, G>,
    query: &PageArgs<'_>,
    task: &Task<'_, B>,
    judged: &Judged<B>,
    part: &mut Vec<u8>,
    later: &mut Vec<u8>,
) -> Result<(), Stop>
    requires verdict { IsVerdict B.geometry task.now.position.now task.now.moves.value (said_by judged.now.verdict) }
    requires tries { Tries B.geometry task.now.position.now task.now.moves.value judged.now.tries.items }
    ensures solution { OnOk result ((behind new : List ℕ) × StandsAt query.now.solutions (IsSolved B.geometry
        (language_for query.now.language) query.now.lines query.now.tries task.now.number
        task.now.position.now task.now.moves.value) behind
        new
        × (part.new.items ≡ part.old.items ++ behind) × (later.new.items ≡ later.old.items ++ new)) }
    ensures stop { IsErrOf result Limit → desk.new.solver.expanded ≡ u64.MAX }
{
    match query.solutions {
        Placing::After => {
            push_solved(desk, query, task, judged, false, part)?;
            Ok(())
        }
        Placing::End => {
            push_solved(desk, query, task, judged, true, later)?;
            Ok(())
        }
        Placing::None => Ok(()),
    }
}

/// Appends a problem up to its task, with the tags of its section.
fn push_tagged<B: Board, G: Guide<B>>(
    desk: &Desk<B, G>,
    query: &PageArgs<'_>,
    task: &Task<'_, B>,
    section: &[u8],
    page: &mut Vec<u8>,
) -> Result<(), Stop>
    ensures text { OnOk result ((tags : List TagText) × AreTags section.now tags × (page.new.items ≡ page.old.items
        ++ task_part B.geometry query.now task.now.number task.now.position.now (map (λ t. t.tag) tags)
        task.now.moves.value)) }
    ensures stop { result ≡ Err Limit → ⊥ }
{
    let tags = read_tags(desk.alloc, section)?;
    let tags = tags.as_slice();
    let heading = heading_under(
        value_named(tags, b"White"),
        value_named(tags, b"Event"),
        value_named(tags, b"Site"),
        value_named(tags, b"Date"),
    );
    push_problem(desk.alloc, page, &look_of(query), task, &heading)?;
    Ok(())
}

/// Makes the heading of a problem whose tags have these values.
fn heading_under<'v>(
    author: Option<&'v [u8]>,
    event: Option<&'v [u8]>,
    site: Option<&'v [u8]>,
    date: Option<&'v [u8]>,
) -> Heading<'v>
    ensures author { author_of result ≡ option_map (λ v. v.now) author.entry }
    ensures source { values_of result
        ≡ filter_map (option_map (λ v. v.now)) (event.entry ∷ site.entry ∷ date.entry ∷ []) }
{
    let source = [event, site, date];
    Heading { author, source }
}

/// Appends the solution of a problem, apart from it or not.
fn push_solved<B: Board, G: Guide<B>>(
    desk: &mut Desk<B, G>,
    query: &PageArgs<'_>,
    task: &Task<'_, B>,
    judged: &Judged<B>,
    is_apart: bool,
    page: &mut Vec<u8>,
) -> Result<(), Stop>
    requires verdict { IsVerdict B.geometry task.now.position.now task.now.moves.value (said_by judged.now.verdict) }
    requires tries { Tries B.geometry task.now.position.now task.now.moves.value judged.now.tries.items }
    ensures solution { OnOk result ((text : List ℕ) × IsSolved B.geometry (language_for query.now.language)
        query.now.lines query.now.tries task.now.number task.now.position.now task.now.moves.value is_apart text
        × (page.new.items ≡ page.old.items ++ text)) }
    ensures stop { IsErrOf result Limit → desk.new.solver.expanded ≡ u64.MAX }
{
    let position = task.position;
    let solved = solved_within(desk, position, task.moves, query.lines, &judged.verdict)?;
    let verdict = verdict_row(
        desk.alloc,
        language_of(query.language),
        position,
        task.moves.value,
        judged,
    )?;
    let tries = tries_shown(desk.alloc, query.tries, position, judged)?;
    let solution = Solution {
        verdict: verdict.as_str(),
        tries: tries.as_slice(),
        first: &solved.first,
        lines: solved.movetext.lines,
    };
    let look = look_of(query);
    push_solution(desk.alloc, page, &look, task.number, &solution, is_apart)?;
    Ok(())
}

/// Returns the look of the requested page.
fn look_of<'a>(query: &PageArgs<'a>) -> Look<'a>
    ensures { result ≡ record {
      title = query.now.title;
      language = language_for query.now.language;
      numbers = query.now.numbers;
    } }
{
    Look {
        title: query.title,
        language: language_of(query.language),
        numbers: query.numbers,
    }
}

/// Returns the language of the requested page.
fn language_of(language: PageLanguage) -> Language
    ensures { result ≡ language_for language }
{
    match language {
        PageLanguage::English => Language::English,
        PageLanguage::Dutch => Language::Dutch,
        PageLanguage::French => Language::French,
        PageLanguage::Russian => Language::Russian,
    }
}
