//! The solver: forced wins of any position, over one memo.
ghost use Rattle.std.specs.Prelude.{◌≡◌, ℕ, [], ◌≤◌, ◌<◌, ◌↔◌, ◌⊎◌, length, IfOk, OnOk, IsOk, IsErrOf, IsTrue};
ghost use Rattle.std.specs.List.Sorted.{IsNonDecreasingBy};
ghost use Rattle.dw_solve.specs.declared.stop.Stop.TheVariants.{Limit};
ghost use Rattle.dw_solve.specs.Wins.{Win, Lost};
ghost use Rattle.dw_memo.specs.Content.{IsMap, MayForget};
ghost use Rattle.dw_solve.specs.Facts.{AreTrue, IsDecided, RepliesAreDecided};
ghost use Rattle.dw_solve.specs.Ranking.{AreRanked};
ghost use Rattle.dw_solve.specs.Solving.{IsLeast};
ghost use Rattle.dw_solve.specs.Questions.{Asked, Idle, LostNothing, moment_of};
ghost use Rattle.dw_solve.specs.Work.{Searched};
ghost use Rattle.dw_solve.specs.inner.Searching.{CanSearch, HasSearched, LosesNothing, StaysIdle};
ghost use Rattle.dw_solve.specs.Certificates.{SaysWin, SaysLost, SaysLeast};

use crate::guide::Guide;
use crate::history::History;
use crate::lineup::Lineup;
use crate::ply::Ply;
use crate::search::{Search, expand, known, loses_at_root, loses_last};
use crate::stop::Stop;
use dw_board::{Board, Position};
use dw_memo::Memo;
use std::alloc::{AllocError, Global};
use std::marker::Model;
use std::mem::replace;

/// The most moves of the attacker in a line.
const MOST_MOVES: usize = 20;

/// The most moves of both sides in a line: those of the attacker with a reply to each, and one before them.
const PLIES: usize = 2 * MOST_MOVES + 1;

/// Answers within how many moves a side wins. It notes its results in a memo, and counts the positions that it expands,
/// up to a limit. A position is expanded when the search goes through its moves.
#[derive(Drop)]
pub struct Solver<B: Board, M: Memo<B>, G: Guide<B>> {
    search: Search<M, G>,
    plies: Option<Vec<Ply<B>>>,
}

impl<B: Board, M: Memo<B>, G: Guide<B>> Model for Solver<B, M, G> {
    ghost use Rattle.std.specs.Prelude.{◌≤◌};
    ghost use Rattle.dw_solve.specs.Solving.{Solving};
    ghost use Rattle.dw_solve.specs.Facts.{AreTrue};

    ghost Value = { Solving M };

    ghost view = { λ s. record {
      memo = s.search.memo;
      expanded = s.search.expanded;
      limit = s.search.limit;
    } };

    ghost invariant = { λ s. AreTrue B.geometry (M.content s.search.memo)
        × (s.search.expanded ≤ s.search.limit) };
}

impl<B: Board, M: Memo<B>, G: Guide<B>> Solver<B, M, G> {
    /// Returns a solver over a memo, whose bounds must all be right, as those of an empty one are. It may expand
    /// `limit` positions in all, which must be at least 1.
    pub fn new(memo: M, guide: G, limit: u64) -> Self
        requires right { AreTrue B.geometry (M.content memo) }
        requires some { 1 ≤ limit }
        ensures { result ≡ record { memo = memo; expanded = 0; limit = limit } }
    {
        Solver {
            search: Search {
                memo,
                guide,
                moves: 0,
                expanded: 0,
                limit,
                history: History::new(),
            },
            plies: None,
        }
    }

    /// Returns the number of positions expanded so far.
    pub fn expanded(&self) -> u64
        ensures { result ≡ self.now.expanded }
    {
        self.search.expanded
    }

    /// Returns the number of positions that may be expanded in all.
    pub fn limit(&self) -> u64
        ensures limit { result ≡ self.now.limit }
        ensures within { self.now.expanded ≤ self.now.limit }
    {
        self.search.limit
    }

    /// States that a solver never expands more positions than it may. A law, which does nothing.
    #[inline]
    pub fn keeps_its_limit(&self)
        ensures { self.now.expanded ≤ self.now.limit }
    {
        let _ = &self.search;
    }

    /// States that all bounds in a solver's memo are right, and that each position has at most one entry. A law, which
    /// does nothing.
    pub fn keeps_its_facts(&self)
        ensures right { AreTrue B.geometry (M.content self.now.memo) }
        ensures map { IsMap (M.content self.now.memo) }
    {
        self.search.memo.keeps_its_map();
    }

    /// Returns the number of entries that the memo has lost so far.
    pub fn dropped(&self) -> u64
        ensures count { result ≡ M.dropped self.now.memo }
        ensures map { IsMap (M.content self.now.memo) }
    {
        self.search.memo.dropped()
    }

    /// Sets the limit, which must be at least 1, and at least the number of positions expanded so far.
    pub fn set_limit(&mut self, limit: u64)
        requires some { 1 ≤ limit }
        requires enough { self.old.expanded ≤ limit }
        ensures { self.new ≡ record self.old { limit = limit } }
    {
        self.search.limit = limit;
    }

    /// Announces that the next positions have little to do with the earlier ones, as after a new problem. The memo may
    /// drop its entries, unless it keeps them. No answer depends on it.
    pub fn forget(&mut self)
        ensures forgets { MayForget (M.content self.old.memo) (M.content self.new.memo) }
        ensures keeps { M.keeps → Searched B.geometry 0 0 (moment_of M.content M.dropped self.old)
            (moment_of M.content M.dropped self.new) }
        ensures dropped { M.dropped self.new.memo ≡ M.dropped self.old.memo }
        ensures expanded { self.new.expanded ≡ self.old.expanded }
        ensures limit { self.new.limit ≡ self.old.limit }
    {
        self.search.memo.forget();
    }

    /// Empties the memo, which then counts lost entries from 0. The number of expanded positions and the limit stay.
    pub fn clear_memo(&mut self)
        ensures empty { M.content self.new.memo ≡ [] }
        ensures dropped { M.dropped self.new.memo ≡ 0 }
        ensures expanded { self.new.expanded ≡ self.old.expanded }
        ensures limit { self.new.limit ≡ self.old.limit }
    {
        self.search.memo.clear();
    }

    /// Returns whether the side to move wins within `moves` of its moves, which must be at most 20. If the memo decides
    /// it or `moves` is 0, this takes no search, no memory and no expansion. After a stop all bounds in the memo are
    /// right, and the call can be repeated.
    pub fn wins(&mut self, alloc: Global, position: &Position<B>, moves: u8) -> Result<bool, Stop>
        requires { moves ≤ 20 }
        ensures answer { IfOk result (λ yes. IsTrue yes ↔ Win B.geometry position.now moves) }
        ensures right { AreTrue B.geometry (M.content self.new.memo) }
        ensures map { IsMap (M.content self.new.memo) }
        ensures asked { Asked B.geometry M.content M.dropped moves self.old self.new result }
        ensures known { (moves ≡ 0) ⊎ IsDecided (M.content self.old.memo) position.now moves
            → IsOk result × Idle M.content self.old self.new }
        ensures spent { OnOk result (1 ≤ moves →
            (IsDecided (M.content self.old.memo) position.now moves → ⊥)
            → self.old.expanded < self.new.expanded) }
        ensures says { LostNothing M.content M.dropped self.old self.new
            → IfOk result (SaysWin (M.content self.new.memo) position.now moves) }
    {
        let answer = ask_wins(&mut self.search, &mut self.plies, alloc, position, moves);
        self.keeps_its_facts();
        answer
    }

    /// Returns whether the side to move has lost: whatever it plays, the other side wins within `moves` of its moves,
    /// which must be at most 20. If the memo decides each reply, nothing is counted, and the limit does not matter.
    /// With 0 moves it takes no memory.
    pub fn loses(&mut self, alloc: Global, position: &Position<B>, moves: u8) -> Result<bool, Stop>
        requires { moves ≤ 20 }
        ensures answer { IfOk result (λ yes. IsTrue yes ↔ Lost B.geometry position.now moves) }
        ensures right { AreTrue B.geometry (M.content self.new.memo) }
        ensures map { IsMap (M.content self.new.memo) }
        ensures asked { Asked B.geometry M.content M.dropped moves self.old self.new result }
        ensures says { LostNothing M.content M.dropped self.old self.new
            → IfOk result (SaysLost B.geometry (M.content self.new.memo) position.now moves) }
        ensures known { RepliesAreDecided B.geometry (M.content self.old.memo) position.now moves
            → (IsErrOf result Limit → ⊥) × Idle M.content self.old self.new }
    {
        let answer = ask_loses(&mut self.search, &mut self.plies, alloc, position, moves);
        self.keeps_its_facts();
        answer
    }

    /// Returns the same as `loses` within one move. It does not look for an answer before it searches, so it is faster
    /// once the memo has lost entries, and may count positions that `loses` does not.
    pub fn loses_last(&mut self, alloc: Global, position: &Position<B>) -> Result<bool, Stop>
        ensures answer { IfOk result (λ yes. IsTrue yes ↔ Lost B.geometry position.now 1) }
        ensures asked { Asked B.geometry M.content M.dropped 1 self.old self.new result }
    {
        ask_loses_last(&mut self.search, &mut self.plies, alloc, position)
    }

    /// Returns the least number of moves, from 1 to `most`, within which the side to move wins, or `None` if it has no
    /// such win. `most` must be at most 20. This takes no memory and no expansion if the memo decides each of these
    /// numbers.
    pub fn least(
        &mut self,
        alloc: Global,
        position: &Position<B>,
        most: u8,
    ) -> Result<Option<u8>, Stop>
        requires { most ≤ 20 }
        ensures answer { IfOk result (IsLeast B.geometry position.now most) }
        ensures right { AreTrue B.geometry (M.content self.new.memo) }
        ensures map { IsMap (M.content self.new.memo) }
        ensures asked { Asked B.geometry M.content M.dropped most self.old self.new result }
        ensures says { LostNothing M.content M.dropped self.old self.new
            → IfOk result (λ _. SaysLeast (M.content self.new.memo) position.now most) }
        ensures known { SaysLeast (M.content self.old.memo) position.now most
            → IsOk result × Idle M.content self.old self.new }
    {
        self.keeps_its_facts();
        self.keeps_its_limit();
        'moves: for moves in 1..most + 1 {
            if self.wins(alloc, position, moves)? {
                return Ok(Some(moves));
            }
        }
        Ok(None)
    }

    /// Fills a list with the legal moves of a position by the guide's ranks, the lowest first. `loses` uses these ranks
    /// for replies while the attacker has three moves or more. Nothing is searched.
    pub fn line_up(&self, position: &Position<B>, lineup: &mut Lineup<B>) -> Result<(), AllocError>
        ensures ranked { OnOk result (AreRanked B.geometry position.now lineup.new) }
        ensures order { OnOk result (IsNonDecreasingBy (λ r. r.0) lineup.new) }
    {
        lineup.ply.fill(position, &self.search.guide)
    }

    /// Tells the watcher that the search for the problem of this number begins.
    pub fn tell_problem(&mut self, number: u32)
        ensures { self.new ≡ self.old }
    {
        let expanded = self.search.expanded;
        self.search.guide.begin(number, expanded);
    }

    /// Has the watcher clear its display, if it has one.
    pub fn make_way(&mut self)
        ensures { self.new ≡ self.old }
    {
        self.search.guide.make_way();
    }

    /// Goes on with another memo, whose bounds must all be right, and returns the one before.
    pub fn replace_memo(&mut self, memo: M) -> M
        requires right { AreTrue B.geometry (M.content memo) }
        ensures memo { result ≡ self.old.memo }
        ensures right { AreTrue B.geometry (M.content result) }
        ensures new { self.new ≡ record self.old { memo = memo } }
    {
        replace(&mut self.search.memo, memo)
    }
}

/// Answers `Solver::wins`. Lists are made only for a search.
fn ask_wins<B: Board, M: Memo<B>, G: Guide<B>>(
    search: &mut Search<M, G>,
    spare: &mut Option<Vec<Ply<B>>>,
    alloc: Global,
    position: &Position<B>,
    moves: u8,
) -> Result<bool, Stop>
    requires few { moves ≤ 20 }
    requires ready { CanSearch B.geometry M.content search.old }
    ensures answer { IfOk result (λ yes. IsTrue yes ↔ Win B.geometry position.now moves) }
    ensures known { (moves ≡ 0) ⊎ IsDecided (M.content search.old.memo) position.now moves
        → IsOk result × StaysIdle M.content search.old search.new }
    ensures spent { OnOk result (1 ≤ moves →
        (IsDecided (M.content search.old.memo) position.now moves → ⊥)
        → search.old.expanded < search.new.expanded) }
    ensures searched { HasSearched B.geometry M.content M.dropped moves search.old search.new result }
    ensures says { LosesNothing M.content M.dropped search.old search.new
        → IfOk result (SaysWin (M.content search.new.memo) position.now moves) }
{
    if let Some(answer) = known(search, position, moves) {
        return Ok(answer);
    }
    let mut plies = prepared(alloc, spare.take(), PLIES)?;
    search.moves = moves;
    search.history.forget();
    let answer = expand(search, plies.as_mut_slice(), position, moves);
    *spare = Some(plies);
    answer
}

/// Answers `Solver::loses`. If the attacker has no move left, no list is needed.
fn ask_loses<B: Board, M: Memo<B>, G: Guide<B>>(
    search: &mut Search<M, G>,
    spare: &mut Option<Vec<Ply<B>>>,
    alloc: Global,
    position: &Position<B>,
    moves: u8,
) -> Result<bool, Stop>
    requires few { moves ≤ 20 }
    requires ready { CanSearch B.geometry M.content search.old }
    ensures answer { IfOk result (λ yes. IsTrue yes ↔ Lost B.geometry position.now moves) }
    ensures searched { HasSearched B.geometry M.content M.dropped moves search.old search.new result }
    ensures says { LosesNothing M.content M.dropped search.old search.new
        → IfOk result (SaysLost B.geometry (M.content search.new.memo) position.now moves) }
    ensures known { RepliesAreDecided B.geometry (M.content search.old.memo) position.now moves
        → (IsErrOf result Limit → ⊥) × StaysIdle M.content search.old search.new }
{
    let needed = if moves == 0 { 0 } else { PLIES };
    let mut plies = prepared(alloc, spare.take(), needed)?;
    search.moves = moves + 1;
    search.history.forget();
    let answer = loses_at_root(search, plies.as_mut_slice(), position, moves);
    *spare = Some(plies);
    answer
}

/// Answers `Solver::loses_last`.
fn ask_loses_last<B: Board, M: Memo<B>, G: Guide<B>>(
    search: &mut Search<M, G>,
    spare: &mut Option<Vec<Ply<B>>>,
    alloc: Global,
    position: &Position<B>,
) -> Result<bool, Stop>
    requires ready { CanSearch B.geometry M.content search.old }
    ensures answer { IfOk result (λ yes. IsTrue yes ↔ Lost B.geometry position.now 1) }
    ensures searched { HasSearched B.geometry M.content M.dropped 1 search.old search.new result }
{
    let mut plies = prepared(alloc, spare.take(), PLIES)?;
    search.moves = 2;
    let answer = loses_last(search, plies.as_mut_slice(), position);
    *spare = Some(plies);
    answer
}

/// Returns at least `needed` lists, the spare ones among them.
fn prepared<B: Board>(
    alloc: Global,
    spare: Option<Vec<Ply<B>>>,
    needed: usize,
) -> Result<Vec<Ply<B>>, AllocError>
    ensures { IfOk result (λ plies. needed ≤ length plies.items) }
{
    let mut plies = match spare {
        Some(plies) => plies,
        None => Vec::new(alloc),
    };
    'plies: while plies.len() < needed {
        plies.push(Ply::new(alloc))?;
    }
    Ok(plies)
}
