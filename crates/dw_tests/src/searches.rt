//! Searches that may stop and are asked again, and orders of moves that no program uses.
ghost use Rattle.std.specs.Prelude.{◌≡◌, ◌≤◌, [], IfSome};
ghost use Rattle.dw_memo.specs.Choice.{content_of};

use crate::lines::{lines, lists, portions};
use crate::rows::{Row, Tally, word};
use crate::texts::{question, read_position};
use dw_board::{Board, Position};
use dw_memo::AnyMemo;
use dw_moves::Move;
use dw_report::judge::judge;
use dw_report::judged_text;
use dw_solve::{Guide, Solver, Stop, Watcher};
use std::alloc::Global;
use std::fmt::Write;

/// A limit that no question here reaches.
const AMPLE: u64 = 1_000_000_000;

/// Moves to lower numbers come first.
#[derive(Clone, Copy)]
pub struct ByEnd;

impl Watcher for ByEnd {}

impl<B: Board> Guide<B> for ByEnd {
    fn rank(&self, _position: &Position<B>, step: &Move<B>) -> u32 {
        u32::from(step.to.number())
    }
}

/// Asks rows of one solver. Kinds that begin with `limited` have a limit, which stops each search until it is high
/// enough. In kinds that begin with `refused`, memory may be refused (`checks/refused_search.py` refuses it).
pub fn ask_solver<B: Board, G: Guide<B> + Drop>(
    alloc: Global,
    head: &str,
    memo: AnyMemo<B>,
    guide: G,
    rows: &[Row],
    tally: &mut Tally,
)
    requires { content_of memo ≡ [] }
{
    let kind = word(head, 0);
    let (stops, name) = kind.split_once('-').unwrap_or(("", kind));
    let refuses = stops == "refused";
    let mut solver = Solver::new(memo, guide, AMPLE);
    for row in rows {
        if stops == "limited" {
            solver.set_limit(solver.expanded().max(1));
        }
        let (query, found) = (row.query.as_str(), &mut tally.found);
        let answered = match name {
            "least" => least(alloc, &mut solver, refuses, query, found),
            "judge" => judged(alloc, &mut solver, refuses, query, found),
            "lines" => lines(alloc, &mut solver, refuses, query, found),
            "portions" => portions(alloc, &mut solver, query, found),
            _ => None,
        };
        tally.end(row, answered);
    }
}

/// Returns the limit of a search that goes on after a stop, which counts from 1: after a limit it rises by the number
/// of the stop, after memory was refused once it is ample.
pub fn limit_after(stop: Stop, refuses: bool, expanded: u64, number: u64) -> Option<u64>
    ensures some { IfSome result (λ limit. 1 ≤ limit) }
    ensures enough { IfSome result (λ limit. expanded ≤ limit) }
{
    match stop {
        Stop::Limit => Some(expanded.saturating_add(number).max(1)),
        Stop::Memory if refuses && number == 1 => Some(expanded.saturating_add(AMPLE).max(1)),
        Stop::Memory => None,
    }
}

/// Returns whether the side to move wins within a number of moves. If the cache lost nothing, that is known then.
fn wins<B: Board, G: Guide<B>>(
    alloc: Global,
    solver: &mut Solver<B, AnyMemo<B>, G>,
    refuses: bool,
    position: &Position<B>,
    moves: u8,
) -> Option<bool>
    requires { moves ≤ 20 }
{
    for number in 1..10_000 {
        match solver.wins(alloc, position, moves) {
            Ok(wins) => {
                let expanded = solver.expanded();
                let is_same = solver.wins(alloc, position, moves) == Ok(wins);
                let is_known = is_same && solver.expanded() == expanded;
                return if refuses || is_known || solver.dropped() > 0 {
                    Some(wins)
                } else {
                    None
                };
            }
            Err(stop) => solver.set_limit(limit_after(stop, refuses, solver.expanded(), number)?),
        }
    }
    None
}

/// Adds the least number of moves from 1 to 3 within which the side to move wins, or 0. It wins within each greater
/// one. The lists of lines agree, which are searched under an ample limit.
fn least<B: Board, G: Guide<B>>(
    alloc: Global,
    solver: &mut Solver<B, AnyMemo<B>, G>,
    refuses: bool,
    query: &str,
    found: &mut String,
) -> Option<()> {
    let position = read_position::<B>(query)?;
    let mut least = 0;
    for moves in 0..4 {
        let wins = wins(alloc, solver, refuses, &position, moves)?;
        if wins && least == 0 {
            least = moves;
        }
        let is_listed = moves > 0 && solver.limit() == AMPLE && !refuses;
        if wins != (least > 0) || is_listed && lists(alloc, solver, &position, moves)? != wins {
            return None;
        }
    }
    write!(found, "{least}").ok()
}

/// Adds the verdict on a position and the tries, as `dw judge` writes them.
fn judged<B: Board, G: Guide<B>>(
    alloc: Global,
    solver: &mut Solver<B, AnyMemo<B>, G>,
    refuses: bool,
    query: &str,
    found: &mut String,
) -> Option<()> {
    let (position, moves) = question(query)?;
    for number in 1..10_000 {
        match judge(alloc, solver, &position, moves) {
            Ok(judged) => match judged_text(alloc, &position, moves, &judged) {
                Ok(text) => return found.push_str(text.as_str()).ok(),
                Err(_) if refuses && number == 1 => {}
                Err(_) => return None,
            },
            Err(stop) => solver.set_limit(limit_after(stop, refuses, solver.expanded(), number)?),
        }
    }
    None
}
