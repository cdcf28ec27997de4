//! The defender's replies, before one of them is searched.
ghost use Rattle.std.specs.Prelude.{◌≡◌, ◌++◌, ◌∷◌, [], IfOk, OnOk, IfSome};
ghost use Rattle.dw_moves.specs.Moves.{Legal, play};
ghost use Rattle.dw_solve.specs.inner.Ranking.{IsSureReply, AreLinedUpLast};

use crate::guide::Guide;
use crate::ply::Ply;
use dw_board::{Board, Position};
use dw_moves::{Move, sure_step};
use std::alloc::AllocError;

/// With so few moves left a search costs less than ranks by captures.
const FEW_MOVES: u8 = 2;

/// The highest rank of a reply that is searched before the others are ranked.
const GOOD_RANK: u32 = 2;

/// The highest quick rank of such a reply.
const GOOD_QUICK_RANK: u32 = 6;

/// The outcome of a reply at its turn in the list of legal moves.
pub(crate) enum Tried {
    /// Whether the attacker wins after it.
    Answered(bool),
    /// It is not searched yet: others come first, and this is its rank.
    PutOff(u32),
}

/// Returns the rank of a reply that leads to this position, with `moves` moves left for the attacker. Returns `None` if
/// it is the only reply, or so good that it is searched at once.
pub(crate) fn put_off<B: Board, G: Guide<B>>(
    guide: &G,
    position: &Position<B>,
    reply: &Move<B>,
    after: &Position<B>,
    moves: u8,
    is_only: bool,
) -> Option<u32>
    requires legal { Legal B.geometry position.now reply.now }
    requires reached { after.now ≡ play B.geometry position.now reply.now }
{
    if is_only {
        return None;
    }
    let (rank, good) = if moves <= FEW_MOVES {
        (
            guide.quick_rank_reached(position, reply, after),
            GOOD_QUICK_RANK,
        )
    } else {
        (guide.rank_reached(position, reply, after), GOOD_RANK)
    };
    if rank <= good { None } else { Some(rank) }
}

/// Adds a reply with its rank to those that were put off.
#[inline]
pub(crate) fn add_reply<B: Board>(
    ranked: &mut Vec<(u32, Move<B>)>,
    rank: u32,
    reply: &Move<B>,
) -> Result<(), AllocError>
    ensures { OnOk result (ranked.new.items ≡ ranked.old.items ++ (rank, reply.now) ∷ []) }
{
    ranked.push((rank, *reply))?;
    Ok(())
}

/// Returns the position after a reply that surely refutes the attacker's last move, or else lists all replies and
/// returns `None`. Mostly such a reply is a step of one square, which is found without a list of moves.
pub(crate) fn line_up_last<B: Board>(
    ply: &mut Ply<B>,
    position: &Position<B>,
) -> Result<Option<Position<B>>, AllocError>
    ensures { IfOk result (AreLinedUpLast B.geometry position.now ply.new.ranked.items) }
{
    if let Some(after) = sure_reply(position) {
        return Ok(Some(after));
    }
    ply.fill_anyhow(position)?;
    Ok(ply.first_sure(position))
}

/// Returns the position after a step of one square that surely leaves the other side no win in one move, or `None` if
/// there is no such step.
fn sure_reply<B: Board>(position: &Position<B>) -> Option<Position<B>>
    ensures { IfSome result (IsSureReply B.geometry position.now) }
{
    dw_moves::laws::sure_replies();
    let (_, after) = sure_step(position)?;
    Some(after)
}
