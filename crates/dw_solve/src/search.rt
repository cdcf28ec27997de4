//! The search: attacker and defender in turn.
ghost use Rattle.std.specs.Prelude.{◌≡◌, false, ◌≢◌, ℕ, ◌+◌, ◌*◌, ◌≤◌, ◌<◌, ◌↔◌, length, IfOk, OnOk, IfSome, IsSome};
ghost use Rattle.std.specs.Prelude.{IsNone, ◌⊎◌, IsOk, IsErr, IsErrOf, IsTrue, Contains, cond, []};
ghost use Rattle.dw_memo.specs.Bounding.{with_win, with_fail};
ghost use Rattle.dw_memo.specs.Content.{IsMap, SameEntries};
ghost use Rattle.dw_moves.specs.Moves.{Move, Legal, AreLegal, play};
ghost use Rattle.dw_moves.specs.Replies.{AlwaysReply};
ghost use Rattle.dw_solve.specs.declared.stop.Stop.TheVariants.{Limit};
ghost use Rattle.dw_solve.specs.Wins.{Win, Lost};
ghost use Rattle.dw_solve.specs.Facts.{AreTrue, IsDecided, RepliesAreDecided};
ghost use Rattle.dw_solve.specs.inner.Searching.{at_time, CanSearch, HasSearched, LosesNothing, StaysIdle};
ghost use Rattle.dw_solve.specs.inner.Searching.{HasLooked, IsLookedUp};
ghost use Rattle.dw_solve.specs.inner.Searching.{HasBounds, IsNoted, SaysMove, IsUndecided};
ghost use Rattle.dw_solve.specs.Work.{Searched};
ghost use Rattle.dw_solve.specs.Certificates.{SaysWin, SaysLost};
ghost use Rattle.dw_solve.specs.Ranking.{AreRanked, moves_of};
ghost use Rattle.dw_solve.specs.inner.Ranking.{AreAllLegal, AreOpen, AllWin, SaysAll, IfAnswered, IsLossLookedUp};

use crate::guide::Guide;
use crate::history::{ByHistory, FEWEST_LEFT, History};
use crate::ply::Ply;
use crate::replies::{Tried, add_reply, line_up_last, put_off};
use crate::stop::Stop;
use crate::watcher::Watcher;
use dw_board::{Board, Position};
use dw_memo::{Bounds, Memo};
use dw_moves::play::play as played;
use dw_moves::{Move, has_move, legal_into};
use std::alloc::AllocError;

/// The number of expansions after which the watcher is told again how far the search is. They take a millisecond.
const PER_TELLING: u64 = 4_096;

/// The state of a search: a memo, an order of moves, the number of moves within which a win is searched for, the number
/// of positions expanded, the limit of that number, and the moves of the attacker that won.
#[derive(Drop)]
pub(crate) struct Search<M, G> {
    pub(crate) memo: M,
    pub(crate) guide: G,
    pub(crate) moves: u8,
    pub(crate) expanded: u64,
    pub(crate) limit: u64,
    pub(crate) history: History,
}

/// Returns whether the side to move wins within `moves` moves.
#[cycle(search)]
pub(crate) fn wins<B: Board, M: Memo<B>, G: Guide<B>>(
    search: &mut Search<M, G>,
    plies: &mut [Ply<B>],
    position: &Position<B>,
    moves: u8,
) -> Result<bool, Stop>
    requires ready { CanSearch B.geometry M.content search.old }
    requires room { 2 * moves ≤ length plies.old }
    ensures answer { IfOk result (λ yes. IsTrue yes ↔ Win B.geometry position.now moves) }
    ensures spent { OnOk result (1 ≤ moves →
        (IsDecided (M.content search.old.memo) position.now moves → ⊥)
        → search.old.expanded < search.new.expanded) }
    ensures searched { HasSearched B.geometry M.content M.dropped moves search.old search.new result }
    ensures says { LosesNothing M.content M.dropped search.old search.new
        → IfOk result (SaysWin (M.content search.new.memo) position.now moves) }
    ensures known { (moves ≡ 0) ⊎ IsDecided (M.content search.old.memo) position.now moves
        → IsOk result × StaysIdle M.content search.old search.new }
{
    if let Some(answer) = known(search, position, moves) {
        return Ok(answer);
    }
    expand(search, plies, position, moves)
}

/// Searches a position that the memo does not decide: counts it, tries its moves, and stores the answer.
#[cycle(search)]
pub(crate) fn expand<B: Board, M: Memo<B>, G: Guide<B>>(
    search: &mut Search<M, G>,
    plies: &mut [Ply<B>],
    position: &Position<B>,
    moves: u8,
) -> Result<bool, Stop>
    requires ready { CanSearch B.geometry M.content search.old }
    requires undecided { IsUndecided (M.content search.old.memo) position.now moves }
    requires room { 2 * moves ≤ length plies.old }
    ensures answer { IfOk result (λ yes. IsTrue yes ↔ Win B.geometry position.now moves) }
    ensures spent { OnOk result (search.old.expanded < search.new.expanded) }
    ensures searched { HasSearched B.geometry M.content M.dropped moves search.old search.new result }
    ensures says { LosesNothing M.content M.dropped search.old search.new
        → IfOk result (SaysWin (M.content search.new.memo) position.now moves) }
{
    count(search)?;
    let (ply, rest) = plies.split_first_mut().unwrap();
    line_up(search, ply, position, moves - 1)?;
    let won = some_move_wins(search, rest, position, ply.ranked.as_slice(), moves - 1)?;
    note(search, position, moves, won);
    Ok(won)
}

/// Returns whether some move of the attacker leaves a position that is lost within `moves` further moves.
#[cycle(search)]
fn some_move_wins<B: Board, M: Memo<B>, G: Guide<B>>(
    search: &mut Search<M, G>,
    plies: &mut [Ply<B>],
    position: &Position<B>,
    ranked: &[(u32, Move<B>)],
    moves: u8,
) -> Result<bool, Stop>
    requires ranked { AreRanked B.geometry position.now ranked.now }
    requires ready { CanSearch B.geometry M.content search.old }
    requires room { 2 * moves + 1 ≤ length plies.old }
    ensures answer { IfOk result (λ yes. IsTrue yes ↔ Win B.geometry position.now (moves + 1)) }
    ensures searched { HasSearched B.geometry M.content M.dropped moves search.old search.new result }
    ensures says { LosesNothing M.content M.dropped search.old search.new
        → IfOk result (SaysMove B.geometry (M.content search.new.memo) position.now moves) }
{
    'moves: for candidate in ranked {
        let mv = &candidate.1;
        if loses(search, plies, &played(position, mv), moves)? {
            search.history.add(mv, moves);
            return Ok(true);
        }
    }
    Ok(false)
}

/// Returns whether the side to move has lost: after every reply the other side wins within `moves` moves. Good replies
/// are searched at once, the others later by their ranks.
#[cycle(search)]
pub(crate) fn loses<B: Board, M: Memo<B>, G: Guide<B>>(
    search: &mut Search<M, G>,
    plies: &mut [Ply<B>],
    position: &Position<B>,
    moves: u8,
) -> Result<bool, Stop>
    requires ready { CanSearch B.geometry M.content search.old }
    requires room { 0 < moves → 2 * moves + 1 ≤ length plies.old }
    ensures answer { IfOk result (λ yes. IsTrue yes ↔ Lost B.geometry position.now moves) }
    ensures searched { HasSearched B.geometry M.content M.dropped moves search.old search.new result }
    ensures says { LosesNothing M.content M.dropped search.old search.new
        → IfOk result (SaysLost B.geometry (M.content search.new.memo) position.now moves) }
    ensures known { RepliesAreDecided B.geometry (M.content search.old.memo) position.now moves
        → (moves ≡ 1) ⊎ ((IsErrOf result Limit → ⊥) × StaysIdle M.content search.old search.new) }
{
    if moves == 0 {
        return Ok(!has_move(position));
    }
    if moves == 1 {
        return loses_last(search, plies, position);
    }
    let (ply, rest) = plies.split_first_mut().unwrap();
    legal_into(position, &mut ply.legal)?;
    ply.ranked.clear();
    if good_reply_refutes(
        search,
        rest,
        position,
        ply.legal.as_slice(),
        &mut ply.ranked,
        moves,
    )? {
        return Ok(false);
    }
    ply.ranked.sort_unstable_by_key(|ranked| ranked.0);
    all_replies_lose(search, rest, position, ply.ranked.as_slice(), moves)
}

/// Returns whether a reply refutes, of those that the memo decides or that are good. Adds the other replies with their
/// ranks to `ranked`, which must be empty.
#[cycle(search)]
fn good_reply_refutes<B: Board, M: Memo<B>, G: Guide<B>>(
    search: &mut Search<M, G>,
    plies: &mut [Ply<B>],
    position: &Position<B>,
    legal: &[Move<B>],
    ranked: &mut Vec<(u32, Move<B>)>,
    moves: u8,
) -> Result<bool, Stop>
    requires legal { AreLegal B.geometry position.now legal.now }
    requires empty { ranked.old.items ≡ [] }
    requires ready { CanSearch B.geometry M.content search.old }
    requires room { 2 * moves ≤ length plies.old }
    requires some { 1 ≤ moves }
    ensures refuted { IfOk result (λ yes. IsTrue yes → Lost B.geometry position.now moves → ⊥) }
    ensures open { IfOk result (λ yes. yes ≡ false →
        AreOpen B.geometry position.now moves (moves_of ranked.new.items)
        (at_time M.content M.dropped search.old) (at_time M.content M.dropped search.new)) }
    ensures searched { HasSearched B.geometry M.content M.dropped moves search.old search.new result }
    ensures says { LosesNothing M.content M.dropped search.old search.new
        → IfOk result (λ yes. IsTrue yes → SaysLost B.geometry (M.content search.new.memo) position.now moves false) }
    ensures known { RepliesAreDecided B.geometry (M.content search.old.memo) position.now moves
        → (IsErrOf result Limit → ⊥) × StaysIdle M.content search.old search.new }
{
    let is_only = legal.len() == 1;
    'replies: for reply in legal {
        match try_reply(search, plies, position, reply, moves, is_only)? {
            Tried::Answered(true) => {}
            Tried::Answered(false) => return Ok(true),
            Tried::PutOff(rank) => add_reply(ranked, rank, reply)?,
        }
    }
    Ok(false)
}

/// Returns whether the attacker wins within `moves` moves after a reply, if the memo decides it or the reply is good.
/// Otherwise returns the rank of the reply.
#[cycle(search)]
fn try_reply<B: Board, M: Memo<B>, G: Guide<B>>(
    search: &mut Search<M, G>,
    plies: &mut [Ply<B>],
    position: &Position<B>,
    reply: &Move<B>,
    moves: u8,
    is_only: bool,
) -> Result<Tried, Stop>
    requires legal { Legal B.geometry position.now reply.now }
    requires ready { CanSearch B.geometry M.content search.old }
    requires room { 2 * moves ≤ length plies.old }
    ensures answer { IfOk result (IfAnswered (λ yes.
        IsTrue yes ↔ Win B.geometry (play B.geometry position.now reply.now) moves)) }
    ensures searched { HasSearched B.geometry M.content M.dropped moves search.old search.new result }
    ensures says { let after = play B.geometry position.now reply.now in
        LosesNothing M.content M.dropped search.old search.new
        → IfOk result (IfAnswered (SaysWin (M.content search.new.memo) after moves)) }
    ensures known { (moves ≡ 0) ⊎ IsDecided (M.content search.old.memo) (play B.geometry position.now reply.now) moves
        → IsOk result × StaysIdle M.content search.old search.new }
{
    let after = played(position, reply);
    if let Some(wins) = known(search, &after, moves) {
        return Ok(Tried::Answered(wins));
    }
    if let Some(rank) = put_off(&search.guide, position, reply, &after, moves, is_only) {
        return Ok(Tried::PutOff(rank));
    }
    let wins = expand(search, plies, &after, moves)?;
    Ok(Tried::Answered(wins))
}

/// Returns whether the attacker wins within `moves` moves after each of these replies.
#[cycle(search)]
fn all_replies_lose<B: Board, M: Memo<B>, G: Guide<B>>(
    search: &mut Search<M, G>,
    plies: &mut [Ply<B>],
    position: &Position<B>,
    ranked: &[(u32, Move<B>)],
    moves: u8,
) -> Result<bool, Stop>
    requires legal { AreAllLegal B.geometry position.now (moves_of ranked.now) }
    requires ready { CanSearch B.geometry M.content search.old }
    requires room { 2 * moves ≤ length plies.old }
    ensures answer { IfOk result (λ yes. IsTrue yes ↔ AllWin B.geometry position.now moves ranked.now) }
    ensures searched { HasSearched B.geometry M.content M.dropped moves search.old search.new result }
    ensures says { LosesNothing M.content M.dropped search.old search.new
        → IfOk result (SaysAll B.geometry (M.content search.new.memo) position.now moves ranked.now) }
    ensures known { RepliesAreDecided B.geometry (M.content search.old.memo) position.now moves
        → (IsErrOf result Limit → ⊥) × StaysIdle M.content search.old search.new }
{
    'replies: for candidate in ranked {
        if !wins(search, plies, &played(position, &candidate.1), moves)? {
            return Ok(false);
        }
    }
    Ok(true)
}

/// Returns whether the side to move has lost, for a caller. With one move left it looks up every reply, as a search
/// does only until the memo has lost an entry.
pub(crate) fn loses_at_root<B: Board, M: Memo<B>, G: Guide<B>>(
    search: &mut Search<M, G>,
    plies: &mut [Ply<B>],
    position: &Position<B>,
    moves: u8,
) -> Result<bool, Stop>
    requires ready { CanSearch B.geometry M.content search.old }
    requires room { 0 < moves → 2 * moves + 1 ≤ length plies.old }
    ensures answer { IfOk result (λ yes. IsTrue yes ↔ Lost B.geometry position.now moves) }
    ensures searched { HasSearched B.geometry M.content M.dropped moves search.old search.new result }
    ensures says { LosesNothing M.content M.dropped search.old search.new
        → IfOk result (SaysLost B.geometry (M.content search.new.memo) position.now moves) }
    ensures known { RepliesAreDecided B.geometry (M.content search.old.memo) position.now moves
        → (IsErrOf result Limit → ⊥) × StaysIdle M.content search.old search.new }
{
    if moves != 1 {
        return loses(search, plies, position, moves);
    }
    match known_loss(search, plies, position)? {
        Some(answer) => Ok(answer),
        None => loses_last(search, plies, position),
    }
}

/// Returns whether the side to move has lost, with one move of the attacker left, by a look at the memo alone. Returns
/// `None` at the first reply that the memo does not decide.
fn known_loss<B: Board, M: Memo<B>, G>(
    search: &mut Search<M, G>,
    plies: &mut [Ply<B>],
    position: &Position<B>,
) -> Result<Option<bool>, AllocError>
    requires right { AreTrue B.geometry (M.content search.old.memo) }
    requires room { 1 ≤ length plies.old }
    ensures looked { HasLooked B.geometry M.content M.dropped search.old search.new }
    ensures answer { IfOk result (IsLossLookedUp B.geometry (M.content search.old.memo) (M.content search.new.memo)
        position.now 1) }
{
    let (ply, _) = plies.split_first_mut().unwrap();
    legal_into(position, &mut ply.legal)?;
    'replies: for reply in ply.legal.as_slice() {
        match known(search, &played(position, reply), 1) {
            Some(true) => {}
            Some(false) => return Ok(Some(false)),
            None => return Ok(None),
        }
    }
    Ok(Some(true))
}

/// Returns whether the side to move has lost, with one move of the attacker left.
pub(crate) fn loses_last<B: Board, M: Memo<B>, G: Watcher>(
    search: &mut Search<M, G>,
    plies: &mut [Ply<B>],
    position: &Position<B>,
) -> Result<bool, Stop>
    requires ready { CanSearch B.geometry M.content search.old }
    requires room { 2 ≤ length plies.old }
    ensures answer { IfOk result (λ yes. IsTrue yes ↔ Lost B.geometry position.now 1) }
    ensures searched { HasSearched B.geometry M.content M.dropped 1 search.old search.new result }
    ensures says { LosesNothing M.content M.dropped search.old search.new
        → IfOk result (SaysLost B.geometry (M.content search.new.memo) position.now 1) }
{
    let (ply, rest) = plies.split_first_mut().unwrap();
    if let Some(after) = line_up_last(ply, position)? {
        refute(search, &after)?;
        return Ok(false);
    }
    let (last, _) = rest.split_first_mut().unwrap();
    'replies: for candidate in ply.ranked.as_slice() {
        if !wins_last(search, last, &played(position, &candidate.1))? {
            return Ok(false);
        }
    }
    Ok(true)
}

/// Lists the moves of the attacker. With two or more moves left after them, they come in the guide's order, earlier
/// winning moves first. With fewer, ranks would cost more than the search.
fn line_up<B: Board, M, G: Guide<B>>(
    search: &Search<M, G>,
    ply: &mut Ply<B>,
    position: &Position<B>,
    moves: u8,
) -> Result<(), AllocError>
    ensures { OnOk result (AreRanked B.geometry position.now ply.new.ranked.items) }
{
    if moves < FEWEST_LEFT {
        ply.fill_anyhow(position)
    } else {
        let guide = ByHistory {
            guide: &search.guide,
            history: &search.history,
        };
        ply.fill_unless_single(position, &guide)
    }
}

/// Records that the side to move has no win in one move. The other side must have a reply to each of its moves. The
/// memo may leave the record out.
fn refute<B: Board, M: Memo<B>, G: Watcher>(
    search: &mut Search<M, G>,
    position: &Position<B>,
) -> Result<(), Stop>
    requires ready { CanSearch B.geometry M.content search.old }
    requires lost { AlwaysReply B.geometry position.now }
    ensures searched { HasSearched B.geometry M.content M.dropped 1 search.old search.new result }
    ensures says { LosesNothing M.content M.dropped search.old search.new
        → OnOk result (SaysWin (M.content search.new.memo) position.now 1 false) }
{
    if leave_out(search)? {
        return Ok(());
    }
    refute_noted(search, position)
}

/// Records the same in a memo that keeps it: counts and notes the position, unless the memo decides it.
fn refute_noted<B: Board, M: Memo<B>, G: Watcher>(
    search: &mut Search<M, G>,
    position: &Position<B>,
) -> Result<(), Stop>
    requires ready { CanSearch B.geometry M.content search.old }
    requires lost { AlwaysReply B.geometry position.now }
    ensures searched { HasSearched B.geometry M.content M.dropped 1 search.old search.new result }
    ensures says { LosesNothing M.content M.dropped search.old search.new
        → OnOk result (SaysWin (M.content search.new.memo) position.now 1 false) }
{
    let bounds = bounds_now(&mut search.memo, position);
    if bounds.decide(1).is_some() {
        return Ok(());
    }
    count(search)?;
    search.memo.note(*position, bounds.with_fail(1));
    Ok(())
}

/// Returns whether the side to move wins with its next move, which is its last. The memo may leave the answer out.
fn wins_last<B: Board, M: Memo<B>, G: Watcher>(
    search: &mut Search<M, G>,
    ply: &mut Ply<B>,
    position: &Position<B>,
) -> Result<bool, Stop>
    requires ready { CanSearch B.geometry M.content search.old }
    ensures answer { IfOk result (λ yes. IsTrue yes ↔ Win B.geometry position.now 1) }
    ensures searched { HasSearched B.geometry M.content M.dropped 1 search.old search.new result }
    ensures says { LosesNothing M.content M.dropped search.old search.new
        → IfOk result (SaysWin (M.content search.new.memo) position.now 1) }
{
    if leave_out(search)? {
        let won = ply.wins_at_once(position)?;
        return Ok(won);
    }
    wins_at_once(search, ply, position)
}

/// Returns whether the memo leaves out bounds of one move, and then counts the position as expanded. The memo counts it
/// as a lost entry.
fn leave_out<B: Board, M: Memo<B>, G: Watcher>(search: &mut Search<M, G>) -> Result<bool, Stop>
    requires { CanSearch B.geometry M.content search.old }
    ensures searched { HasSearched B.geometry M.content M.dropped 1 search.old search.new result }
    ensures loses { IfOk result (λ yes. IsTrue yes → LosesNothing M.content M.dropped search.old search.new → ⊥) }
{
    if !search.memo.skip_one_move() {
        return Ok(false);
    }
    count(search)?;
    Ok(true)
}

/// Returns the same for a memo that keeps the answer. Nothing comes between the look at the memo and the note, so the
/// bounds are looked up once.
fn wins_at_once<B: Board, M: Memo<B>, G: Watcher>(
    search: &mut Search<M, G>,
    ply: &mut Ply<B>,
    position: &Position<B>,
) -> Result<bool, Stop>
    requires ready { CanSearch B.geometry M.content search.old }
    ensures answer { IfOk result (λ yes. IsTrue yes ↔ Win B.geometry position.now 1) }
    ensures searched { HasSearched B.geometry M.content M.dropped 1 search.old search.new result }
    ensures says { LosesNothing M.content M.dropped search.old search.new
        → IfOk result (SaysWin (M.content search.new.memo) position.now 1) }
{
    let bounds = bounds_now(&mut search.memo, position);
    if let Some(answer) = bounds.decide(1) {
        return Ok(answer);
    }
    count(search)?;
    let won = ply.wins_at_once(position)?;
    search.memo.note(*position, joined(bounds, 1, won));
    Ok(won)
}

/// Returns whether there is a win within `moves` moves, if this is known without a search.
pub(crate) fn known<B: Board, M: Memo<B>, G>(
    search: &mut Search<M, G>,
    position: &Position<B>,
    moves: u8,
) -> Option<bool>
    requires { AreTrue B.geometry (M.content search.old.memo) }
    ensures looked { HasLooked B.geometry M.content M.dropped search.old search.new }
    ensures answer { IsLookedUp B.geometry (M.content search.old.memo) (M.content search.new.memo) position.now moves
        result }
{
    if moves == 0 {
        return Some(false);
    }
    match search.memo.look(position) {
        Some(bounds) => bounds.decide(moves),
        None => None,
    }
}

/// Counts one more expanded position, or returns `Stop::Limit` if the limit is reached.
fn count<M, G: Watcher>(search: &mut Search<M, G>) -> Result<(), Stop>
    requires { search.old.expanded ≤ search.old.limit }
    ensures memo { search.new.memo ≡ search.old.memo }
    ensures limit { search.new.limit ≡ search.old.limit }
    ensures within { search.new.expanded ≤ search.new.limit }
    ensures more { OnOk result (search.new.expanded ≡ search.old.expanded + 1) }
    ensures same { IsErr result → search.new.expanded ≡ search.old.expanded }
    ensures rises { search.old.expanded ≤ search.new.expanded }
    ensures stop { IsErrOf result Limit → search.new.expanded ≡ search.new.limit }
{
    if search.expanded == search.limit {
        return Err(Stop::Limit);
    }
    search.expanded += 1;
    if search.expanded % PER_TELLING == 0 {
        search.guide.watch(search.moves, search.expanded);
    }
    Ok(())
}

/// Adds whether there is a win within `moves` moves, which must be right, to the bounds of the position in the memo.
fn note<B: Board, M: Memo<B>, G>(
    search: &mut Search<M, G>,
    position: &Position<B>,
    moves: u8,
    won: bool,
)
    requires right { AreTrue B.geometry (M.content search.old.memo) }
    requires answer { IsTrue won ↔ Win B.geometry position.now moves }
    ensures right { AreTrue B.geometry (M.content search.new.memo) }
    ensures count { search.new.expanded ≡ search.old.expanded }
    ensures limit { search.new.limit ≡ search.old.limit }
    ensures noted { IsNoted position.now moves won
        (at_time M.content M.dropped search.old) (at_time M.content M.dropped search.new) }
{
    let bounds = bounds_now(&mut search.memo, position);
    search.memo.note(*position, joined(bounds, moves, won));
}

/// Returns the bounds of a position, which say nothing if the memo does not hold it.
fn bounds_now<B: Board, M: Memo<B>>(memo: &mut M, position: &Position<B>) -> Bounds
    ensures map { IsMap (M.content memo.old) }
    ensures bounds { HasBounds (M.content memo.old) position.now result }
    ensures same { SameEntries (M.content memo.old) (M.content memo.new) }
    ensures dropped { M.dropped memo.new ≡ M.dropped memo.old }
{
    match memo.look(position) {
        Some(bounds) => bounds,
        None => Bounds {
            fails: None,
            wins: None,
        },
    }
}

/// Returns the bounds with the answer for `moves` moves added.
fn joined(bounds: Bounds, moves: u8, won: bool) -> Bounds
    ensures { result ≡ cond won (with_win bounds moves) (with_fail bounds moves) }
{
    if won {
        bounds.with_win(moves)
    } else {
        bounds.with_fail(moves)
    }
}
