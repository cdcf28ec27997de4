//! A solver's limit, lowered for a while.
ghost use Rattle.std.specs.Prelude.{◌≡◌, ◌≤◌, ◌<◌, min};

use dw_board::Board;
use dw_memo::Memo;
use dw_solve::{Guide, Solver};

/// Lowers the limit of a solver to `until`, if that is less, and returns the former limit.
pub(crate) fn lower<B: Board, M: Memo<B>, G: Guide<B>>(
    solver: &mut Solver<B, M, G>,
    until: u64,
) -> u64
    requires some { until < solver.old.limit → 1 ≤ until }
    requires enough { solver.old.expanded ≤ until }
    ensures was { result ≡ solver.old.limit }
    ensures lowered { solver.new ≡ record solver.old { limit = min solver.old.limit until } }
{
    let limit = solver.limit();
    if until < limit {
        solver.set_limit(until);
    }
    limit
}

/// Raises the limit of a solver to this one again, which must not be less.
pub(crate) fn raise<B: Board, M: Memo<B>, G: Guide<B>>(solver: &mut Solver<B, M, G>, limit: u64)
    requires { solver.old.limit ≤ limit }
    ensures { solver.new ≡ record solver.old { limit = limit } }
{
    if solver.limit() < limit {
        solver.set_limit(limit);
    }
}
