//! A page: its head, its problems one by one, and its end.
ghost use Rattle.std.specs.Prelude.{◌≡◌, ◌++◌, List, [], codes, map, ℕ, OnOk, filter_map, option_map};
ghost use Rattle.std.specs.List.{join_by};
ghost use Rattle.std.specs.String.{string_bytes};
ghost use Rattle.dw_page.specs.Pages.{IsSolutionShown, author, author_of, begin, end, end_of_problem, front, head};
ghost use Rattle.dw_page.specs.Pages.{moves_row, numbered, problem, refusal, refused, solution_begin, source, styled};
ghost use Rattle.dw_page.specs.Pages.{solutions_heading, tries_row, try_shown, values_of, verdict_row};
ghost use Rattle.dw_page.specs.Pages as of;
ghost use Rattle.dw_page.specs.SolutionMoves.{AreMovesShown};
ghost use Rattle.dw_page.specs.Words.{phrase};

use crate::diagram::push_diagram;
use crate::escape::{push_all, push_bytes, push_text};
use crate::moves::push_moves;
use crate::pictures::push_pictures;
use crate::script::SCRIPT;
use crate::style::STYLE;
use crate::words::{Language, Phrase};
use dw_board::{Board, Position};
use dw_solution::FirstLines;
use dw_stipulation::MoveCount;
use itoa::Buffer;
use std::alloc::{AllocError, Global};

/// The content security policy: the page may use its own style and script, and nothing from elsewhere.
const POLICY: &str = "default-src 'none'; style-src 'unsafe-inline'; script-src 'unsafe-inline'";

/// The settings of a page.
#[derive(Clone, Copy)]
pub struct Look<'a> {
    pub title: &'a str,
    pub language: Language,
    /// Whether drawings have the numbers of the squares.
    pub numbers: bool,
}

/// The task of a problem: its number in the text, and the number of moves in which the side to move is to win.
#[derive(Clone, Copy)]
pub struct Task<'a, B: Board> {
    pub number: u32,
    pub position: &'a Position<B>,
    /// The number of moves.
    pub moves: MoveCount,
}

/// The values of a problem's tags that a page shows.
#[derive(Clone, Copy)]
pub struct Heading<'a> {
    /// The author of the problem.
    pub author: Option<&'a [u8]>,
    /// Up to three values that say where and when it was published.
    pub source: [Option<&'a [u8]>; 3],
}

impl Heading<'_> {
    /// Returns a heading without values.
    pub fn none() -> Self
        ensures author { author_of result ≡ None }
        ensures source { values_of result ≡ [] }
    {
        Heading {
            author: None,
            source: [None, None, None],
        }
    }
}

/// Appends the head of a page, up to its first problem.
pub fn push_head<B: Board>(
    alloc: Global,
    page: &mut Vec<u8>,
    look: &Look<'_>,
) -> Result<(), AllocError>
    ensures { OnOk result (page.new.items ≡ page.old.items ++ head B.geometry look.now.language look.now.title.now) }
{
    push_front(alloc, page, look.language)?;
    push_text(page, look.title.as_bytes())?;
    push_style(alloc, page)?;
    push_text(page, look.title.as_bytes())?;
    push_all(alloc, page, &["</h1>\n"])?;
    push_pictures::<B>(alloc, page)?;
    push_all(alloc, page, &["<main class=\"sheet\">\n"])?;
    Ok(())
}

/// Appends the front of a page, up to its title.
fn push_front(alloc: Global, page: &mut Vec<u8>, language: Language) -> Result<(), AllocError>
    ensures { OnOk result (page.new.items ≡ page.old.items ++ front language) }
{
    let texts = [
        "<!DOCTYPE html>\n<html lang=\"",
        language.tag(),
        "\">\n<head>\n<meta charset=\"utf-8\">\n\
        <meta name=\"viewport\" content=\"width=device-width, initial-scale=1\">\n\
        <meta http-equiv=\"Content-Security-Policy\" content=\"",
        policy(),
        "\">\n<title>",
    ];
    push_all(alloc, page, &texts)?;
    Ok(())
}

#[tactic(auto, unfolding(crate::specs::Pages::policy))]
fn policy() -> &'static str
    ensures { result.now ≡ of.policy }
{
    POLICY
}

/// Appends the style, between the title of the window and the one that is read in the page.
fn push_style(alloc: Global, page: &mut Vec<u8>) -> Result<(), AllocError>
    ensures { OnOk result (page.new.items ≡ page.old.items ++ styled) }
{
    let texts = [
        "</title>\n<style>",
        style(),
        "</style>\n</head>\n<body>\n<h1>",
    ];
    push_all(alloc, page, &texts)?;
    Ok(())
}

#[tactic(auto, unfolding(crate::specs::Pages::style))]
fn style() -> &'static str
    ensures { result.now ≡ of.style }
{
    STYLE
}

/// Appends a problem up to its task: its number, its tags, its drawing and the task.
#[tactic(auto, unfolding(crate::specs::Pages::problem))]
pub fn push_problem<B: Board>(
    alloc: Global,
    page: &mut Vec<u8>,
    look: &Look<'_>,
    task: &Task<'_, B>,
    heading: &Heading<'_>,
) -> Result<(), AllocError>
    ensures { OnOk result (page.new.items ≡ page.old.items
        ++ problem B.geometry look.now.language look.now.numbers task.now.number (author_of heading.now)
        (values_of heading.now) task.now.position.now task.now.moves.value) }
{
    push_begin(alloc, page, task.number, heading)?;
    push_diagram(alloc, page, task.position, look.numbers)?;
    push_task(alloc, page, look.language, task)?;
    Ok(())
}

/// Appends the task.
fn push_task<B: Board>(
    alloc: Global,
    page: &mut Vec<u8>,
    language: Language,
    task: &Task<'_, B>,
) -> Result<(), AllocError>
    ensures { OnOk result (page.new.items ≡ page.old.items
        ++ of.task language task.now.position.now.turn task.now.moves.value) }
{
    let mut digits = Buffer::new();
    let texts = [
        "\n<p class=\"task\">",
        language.task(task.position.turn()),
        digits.format(task.moves.value),
        language.moves(task.moves.value),
        "</p>\n",
    ];
    push_all(alloc, page, &texts)?;
    Ok(())
}

/// Appends a problem that is refused, with the reason.
pub fn push_refused(
    alloc: Global,
    page: &mut Vec<u8>,
    look: &Look<'_>,
    number: u32,
    reason: &str,
) -> Result<(), AllocError>
    ensures { OnOk result (page.new.items ≡ page.old.items ++ refused look.now.language number reason.now) }
{
    push_begin(alloc, page, number, &Heading::none())?;
    push_refusal(alloc, page, look.language, reason)?;
    push_end_of_problem(page)?;
    Ok(())
}

/// Appends the reason why a problem is refused.
fn push_refusal(
    alloc: Global,
    page: &mut Vec<u8>,
    language: Language,
    reason: &str,
) -> Result<(), AllocError>
    ensures { OnOk result (page.new.items ≡ page.old.items ++ refusal language reason.now) }
{
    let label = language.phrase(Phrase::Refused);
    push_all(alloc, page, &["<p class=\"refused\">", label, ": "])?;
    push_text(page, reason.as_bytes())?;
    push_all(alloc, page, &["</p>\n"])?;
    Ok(())
}

/// Appends the end of a problem, after its task or its solution.
pub fn push_end_of_problem(page: &mut Vec<u8>) -> Result<(), AllocError>
    ensures { OnOk result (page.new.items ≡ page.old.items ++ end_of_problem) }
{
    page.extend_from_slice(b"</section>\n")
}

/// Appends the beginning of a problem: its number and its tags.
fn push_begin(
    alloc: Global,
    page: &mut Vec<u8>,
    number: u32,
    heading: &Heading<'_>,
) -> Result<(), AllocError>
    ensures { OnOk result (page.new.items ≡ page.old.items
        ++ begin number (author_of heading.now) (values_of heading.now)) }
{
    push_number(alloc, page, number)?;
    push_author(alloc, page, heading.author)?;
    push_all(alloc, page, &["</h2>\n<p class=\"tags\">"])?;
    push_source(alloc, page, &heading.source)?;
    push_all(alloc, page, &["</p>\n"])?;
    Ok(())
}

/// Appends the number of a problem as a heading, up to its author.
fn push_number(alloc: Global, page: &mut Vec<u8>, number: u32) -> Result<(), AllocError>
    ensures { OnOk result (page.new.items ≡ page.old.items ++ numbered number) }
{
    let mut digits = Buffer::new();
    let number = digits.format(number);
    let texts = [
        "<section class=\"problem\" id=\"p",
        number,
        "\">\n<h2>",
        number,
        ".",
    ];
    push_all(alloc, page, &texts)?;
    Ok(())
}

/// Appends the author of a problem, if a tag names one.
fn push_author(alloc: Global, page: &mut Vec<u8>, name: Option<&[u8]>) -> Result<(), AllocError>
    ensures { OnOk result (page.new.items ≡ page.old.items ++ author (option_map (λ n. n.now) name.entry)) }
{
    if let Some(name) = name {
        page.push(b' ')?;
        push_bytes(alloc, page, name)?;
    }
    Ok(())
}

/// Appends where and when a problem was published: the values that there are, with commas between them.
fn push_source(
    alloc: Global,
    page: &mut Vec<u8>,
    values: &[Option<&[u8]>],
) -> Result<(), AllocError>
    ensures { OnOk result (page.new.items ≡ page.old.items
        ++ source (filter_map (option_map (λ v. v.now)) values.now)) }
{
    let mut mark = "";
    'values: for value in values {
        let Some(text) = value else {
            continue;
        };
        page.extend_from_slice(mark.as_bytes())?;
        push_bytes(alloc, page, text)?;
        mark = ", ";
    }
    Ok(())
}

/// A solution as a page shows it.
#[derive(Clone, Copy)]
pub struct Solution<'a, B: Board> {
    /// The verdict, with the moves that it names.
    pub verdict: &'a str,
    /// The tries, each with the reply that refutes it.
    pub tries: &'a [String],
    pub first: &'a FirstLines<B>,
    /// The number of the first lines that are shown.
    pub lines: usize,
}

/// Appends the solution of a problem, with its number in front if it is apart from the problem.
pub fn push_solution<B: Board>(
    alloc: Global,
    page: &mut Vec<u8>,
    look: &Look<'_>,
    number: u32,
    solution: &Solution<'_, B>,
    is_apart: bool,
) -> Result<(), AllocError>
    ensures { OnOk result ((text : List ℕ) × IsSolutionShown B.geometry look.now.language number is_apart
        solution.now.verdict.now (map string_bytes solution.now.tries.now) solution.now.first.now solution.now.lines
        text × (page.new.items ≡ page.old.items ++ text)) }
{
    push_solution_begin(alloc, page, number, is_apart)?;
    push_verdict(alloc, page, solution.verdict)?;
    push_tries(alloc, page, look.language, solution.tries)?;
    push_moves_row(alloc, page, look.language, solution)?;
    Ok(())
}

/// Appends the beginning of a solution, with the number of its problem if it is apart from it.
fn push_solution_begin(
    alloc: Global,
    page: &mut Vec<u8>,
    number: u32,
    is_apart: bool,
) -> Result<(), AllocError>
    ensures { OnOk result (page.new.items ≡ page.old.items ++ solution_begin number is_apart) }
{
    let mut digits = Buffer::new();
    let number = digits.format(number);
    push_all(
        alloc,
        page,
        &["<div class=\"solution\" data-of=\"p", number, "\">\n"],
    )?;
    if is_apart {
        push_all(alloc, page, &["<h2>", number, ".</h2>\n"])?;
    }
    Ok(())
}

/// Appends a verdict.
fn push_verdict(alloc: Global, page: &mut Vec<u8>, verdict: &str) -> Result<(), AllocError>
    ensures { OnOk result (page.new.items ≡ page.old.items ++ verdict_row verdict.now) }
{
    push_all(alloc, page, &["<p>"])?;
    push_text(page, verdict.as_bytes())?;
    push_all(alloc, page, &["</p>\n"])?;
    Ok(())
}

/// Appends the row of the tries, if there are any.
fn push_tries(
    alloc: Global,
    page: &mut Vec<u8>,
    language: Language,
    tries: &[String],
) -> Result<(), AllocError>
    ensures { OnOk result (page.new.items ≡ page.old.items ++ tries_row language (map string_bytes tries.now)) }
{
    if tries.is_empty() {
        return Ok(());
    }
    push_all(
        alloc,
        page,
        &["<p class=\"tries\">", language.phrase(Phrase::Tries), ": "],
    )?;
    push_try_texts(alloc, page, tries)?;
    push_all(alloc, page, &["</p>\n"])?;
    Ok(())
}

/// Appends the tries with semicolons between them.
fn push_try_texts(alloc: Global, page: &mut Vec<u8>, tries: &[String]) -> Result<(), AllocError>
    ensures { OnOk result (page.new.items ≡ page.old.items
        ++ join_by try_shown (codes "; ") (map string_bytes tries.now)) }
{
    let mut mark = "";
    'tries: for text in tries {
        page.extend_from_slice(mark.as_bytes())?;
        push_try(alloc, page, text.as_str())?;
        mark = "; ";
    }
    Ok(())
}

/// Appends a try as an element, which stays in one line if there is room.
fn push_try(alloc: Global, page: &mut Vec<u8>, text: &str) -> Result<(), AllocError>
    ensures { OnOk result (page.new.items ≡ page.old.items ++ try_shown text.now) }
{
    push_all(alloc, page, &["<span class=\"try\">"])?;
    push_text(page, text.as_bytes())?;
    push_all(alloc, page, &["</span>"])?;
    Ok(())
}

/// Appends the row of the moves, and the end of a solution.
fn push_moves_row<B: Board>(
    alloc: Global,
    page: &mut Vec<u8>,
    language: Language,
    solution: &Solution<'_, B>,
) -> Result<(), AllocError>
    ensures { OnOk result ((shown : List ℕ) × AreMovesShown B.geometry (phrase language Phrase.More)
        solution.now.first.now solution.now.lines shown × (page.new.items ≡ page.old.items
        ++ moves_row language shown)) }
{
    let label = language.phrase(Phrase::Solution);
    push_all(alloc, page, &["<p>", label, ": <span class=\"moves\">"])?;
    push_moves(
        alloc,
        page,
        solution.first,
        solution.lines,
        language.phrase(Phrase::More),
    )?;
    push_all(alloc, page, &["</span></p>\n</div>\n"])?;
    Ok(())
}

/// Appends the end of the problems, and the heading of the solutions that stand at the end of a page.
pub fn push_solutions_heading(
    alloc: Global,
    page: &mut Vec<u8>,
    look: &Look<'_>,
) -> Result<(), AllocError>
    ensures { OnOk result (page.new.items ≡ page.old.items ++ solutions_heading look.now.language) }
{
    let texts = [
        "</main>\n<section class=\"solutions\">\n<h1>",
        look.language.phrase(Phrase::Solutions),
        "</h1>\n",
    ];
    push_all(alloc, page, &texts)?;
    Ok(())
}

/// Appends the end of a page.
pub fn push_end(alloc: Global, page: &mut Vec<u8>) -> Result<(), AllocError>
    ensures { OnOk result (page.new.items ≡ page.old.items ++ end) }
{
    let texts = [
        "</main>\n<script>",
        script(),
        "</script>\n</body>\n</html>\n",
    ];
    push_all(alloc, page, &texts)?;
    Ok(())
}

#[tactic(auto, unfolding(crate::specs::Pages::script))]
fn script() -> &'static str
    ensures { result.now ≡ of.script }
{
    SCRIPT
}
