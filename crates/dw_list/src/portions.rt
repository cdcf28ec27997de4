//! Lines of a lister taken in portions, under one limit after another.
ghost use Rattle.std.specs.Prelude.{◌≡◌, ◌+◌, ◌^◌, ◌<◌, ◌≤◌, [], length, map, max};
ghost use Rattle.dw_list.specs.Listing.{lender, solver_of, stack_of, LimitIsLast};
ghost use Rattle.dw_list.specs.LineStack.{LineStack, AreToCome};
ghost use Rattle.dw_list.specs.StackWalk.{Gives};

use crate::lister::Lister;
use arrayvec::ArrayVec;
use dw_board::Board;
use dw_memo::Memo;
use dw_moves::Move;
use dw_notation::MAX_MOVES;
use dw_solve::Guide;
use std::alloc::Global;

/// The lines that a lister gave under a list of limits, and how its other turns ended.
#[derive(Drop)]
pub struct Portions<B: Board> {
    /// The lines, in order.
    pub lines: Vec<ArrayVec<Move<B>, MAX_MOVES>>,
    /// The number of turns in which the search was stopped, or there was no memory for one more line.
    pub stops: usize,
    /// The number of turns in which no line was still to come.
    pub ends: usize,
}

/// Asks a lister for the next line once under each of these limits. A limit below 1, or below the number of expanded
/// positions, is raised to it. A lack of memory for one more line counts as a stop. The last limit stays.
pub fn in_portions<B: Board, M: Memo<B>, G: Guide<B>>(
    alloc: Global,
    lister: &mut Lister<'_, B, M, G>,
    limits: &[u64],
) -> Portions<B>
    ensures lender { lender lister.new ≡ lender lister.old }
    ensures lines { Gives B.geometry (stack_of lister.old) (stack_of lister.new)
        (map (λ line. line.items) result.lines.items) }
    ensures turns { length result.lines.items + result.stops + result.ends ≡ length limits.now }
    ensures end { 0 < result.ends → AreToCome B.geometry (stack_of lister.new) [] }
    ensures count { (solver_of lister.old).expanded ≤ (solver_of lister.new).expanded }
    ensures limit { LimitIsLast limits.now (solver_of lister.old) (solver_of lister.new) }
{
    let mut portions = Portions {
        lines: Vec::new(alloc),
        stops: 0,
        ends: 0,
    };
    'limits: for limit in limits {
        take_turn(alloc, lister, *limit, &mut portions);
    }
    portions
}

/// Asks for the next line once, under one limit.
fn take_turn<B: Board, M: Memo<B>, G: Guide<B>>(
    alloc: Global,
    lister: &mut Lister<'_, B, M, G>,
    limit: u64,
    portions: &mut Portions<B>,
)
    requires { length portions.old.lines.items + portions.old.stops + portions.old.ends + 1 < 2 ^ 64 }
    ensures lender { lender lister.new ≡ lender lister.old }
    ensures lines { (start : LineStack) → Gives B.geometry start (stack_of lister.old)
        (map (λ line. line.items) portions.old.lines.items)
        → Gives B.geometry start (stack_of lister.new) (map (λ line. line.items) portions.new.lines.items) }
    ensures turns { length portions.new.lines.items + portions.new.stops + portions.new.ends
        ≡ length portions.old.lines.items + portions.old.stops + portions.old.ends + 1 }
    ensures end { (0 < portions.old.ends → AreToCome B.geometry (stack_of lister.old) []) → 0 < portions.new.ends
        → AreToCome B.geometry (stack_of lister.new) [] }
    ensures count { (solver_of lister.old).expanded ≤ (solver_of lister.new).expanded }
    ensures limit { (solver_of lister.new).limit ≡ max (max limit 1) (solver_of lister.old).expanded }
{
    lister.set_limit(limit.max(1).max(lister.expanded()));
    if portions.lines.reserve(1).is_err() {
        portions.stops += 1;
        return;
    }
    match lister.next(alloc) {
        Err(_) => portions.stops += 1,
        Ok(None) => portions.ends += 1,
        Ok(Some(line)) => portions.lines.push_reserved(copied(line)),
    }
}

/// Returns a line, which must have at most 39 moves, in an array of its own.
fn copied<B: Board>(line: &[Move<B>]) -> ArrayVec<Move<B>, MAX_MOVES>
    requires { length line.now ≤ 39 }
    ensures { result.items ≡ line.now }
{
    let mut copied = ArrayVec::new();
    let _ = copied.try_extend_from_slice(line);
    copied
}
