//! The moves of one position, in the order in which a search goes through them.
ghost use Rattle.std.specs.Prelude.{◌≡◌, [], IfOk, OnOk, IfSome};
ghost use Rattle.std.specs.List.Sorted.{IsNonDecreasingBy};
ghost use Rattle.dw_solve.specs.Ranking.{AreRanked, moves_of};
ghost use Rattle.dw_solve.specs.inner.Ranking.{AreAllLegal, IsLastWin, IsSureReply};

use crate::guide::{AnyOrder, Guide};
use dw_board::{Board, Position};
use dw_moves::play::play as played;
use dw_moves::{Move, has_move, has_sure_reply, legal_into};
use std::alloc::{AllocError, Global};

/// The lists that a search needs for one move of a line. Their memory is reused at the next position.
#[derive(Drop)]
pub(crate) struct Ply<B: Board> {
    /// The legal moves.
    pub(crate) legal: Vec<Move<B>>,
    /// Legal moves with their ranks.
    pub(crate) ranked: Vec<(u32, Move<B>)>,
}

impl<B: Board> Ply<B> {
    /// Returns empty lists.
    pub(crate) fn new(alloc: Global) -> Self
        ensures { result.ranked.items ≡ [] }
    {
        Ply {
            legal: Vec::new(alloc),
            ranked: Vec::new(alloc),
        }
    }

    /// Lists the legal moves of a position by the guide's ranks, the lowest first.
    pub(crate) fn fill<G: Guide<B>>(
        &mut self,
        position: &Position<B>,
        guide: &G,
    ) -> Result<(), AllocError>
        ensures ranked { OnOk result (AreRanked B.geometry position.now self.new.ranked.items) }
        ensures order { OnOk result (IsNonDecreasingBy (λ r. r.0) self.new.ranked.items) }
    {
        self.gather(position, guide)?;
        self.ranked.sort_unstable_by_key(|ranked| ranked.0);
        Ok(())
    }

    /// Lists the legal moves by the guide's ranks. A single move gets no rank by the guide.
    pub(crate) fn fill_unless_single<G: Guide<B>>(
        &mut self,
        position: &Position<B>,
        guide: &G,
    ) -> Result<(), AllocError>
        ensures { OnOk result (AreRanked B.geometry position.now self.new.ranked.items) }
    {
        legal_into(position, &mut self.legal)?;
        self.ranked.clear();
        let legal = self.legal.as_slice();
        if legal.len() == 1 {
            return rank_all(position, &AnyOrder, legal, &mut self.ranked);
        }
        rank_all(position, guide, legal, &mut self.ranked)?;
        self.ranked.sort_unstable_by_key(|entry| entry.0);
        Ok(())
    }

    /// Lists the legal moves of a position in any order.
    pub(crate) fn fill_anyhow(&mut self, position: &Position<B>) -> Result<(), AllocError>
        ensures { OnOk result (AreRanked B.geometry position.now self.new.ranked.items) }
    {
        self.gather(position, &AnyOrder)
    }

    /// Returns whether some legal move leaves the other side without a move.
    pub(crate) fn wins_at_once(&mut self, position: &Position<B>) -> Result<bool, AllocError>
        ensures { IfOk result (IsLastWin B.geometry position.now) }
    {
        legal_into(position, &mut self.legal)?;
        'moves: for mv in self.legal.as_slice() {
            if !has_move(&played(position, mv)) {
                return Ok(true);
            }
        }
        Ok(false)
    }

    /// Returns the position after the first listed move that surely leaves the other side no win in one move, or
    /// `None`. The list must have the legal moves of this position.
    pub(crate) fn first_sure(&self, position: &Position<B>) -> Option<Position<B>>
        requires { AreRanked B.geometry position.now self.now.ranked.items }
        ensures { IfSome result (IsSureReply B.geometry position.now) }
    {
        'moves: for candidate in self.ranked.as_slice() {
            let after = played(position, &candidate.1);
            if has_sure_reply(&after) {
                return Some(after);
            }
        }
        None
    }

    /// Lists the legal moves of a position with their ranks, unsorted.
    fn gather<G: Guide<B>>(&mut self, position: &Position<B>, guide: &G) -> Result<(), AllocError>
        ensures { OnOk result (AreRanked B.geometry position.now self.new.ranked.items) }
    {
        legal_into(position, &mut self.legal)?;
        self.ranked.clear();
        rank_all(position, guide, self.legal.as_slice(), &mut self.ranked)
    }
}

/// Adds legal moves with their ranks to a list, which must be empty.
fn rank_all<B: Board, G: Guide<B>>(
    position: &Position<B>,
    guide: &G,
    legal: &[Move<B>],
    ranked: &mut Vec<(u32, Move<B>)>,
) -> Result<(), AllocError>
    requires legal { AreAllLegal B.geometry position.now legal.now }
    requires empty { ranked.old.items ≡ [] }
    ensures { OnOk result (moves_of ranked.new.items ≡ legal.now) }
{
    'moves: for mv in legal {
        ranked.push((guide.rank(position, mv), *mv))?;
    }
    Ok(())
}
