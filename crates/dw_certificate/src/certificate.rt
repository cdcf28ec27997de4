//! Taking a certificate out of a memo.
ghost use Rattle.std.specs.Prelude.{◌≡◌, ◌-◌, ◌≤◌, ◌⊎◌, true, false, IfOk, OnOk, IfSome, IsTrue, slice_get, ◌↔◌};
ghost use Rattle.std.specs.Prelude.{length, ◌+◌, ◌<◌, ◌^◌, ◌++◌, ◌∷◌, [], None};
ghost use Rattle.indexmap.specs.IndexMap.{get};
ghost use Rattle.dw_board.specs.inner.PlacementLemmas.{same};
ghost use Rattle.dw_board.specs.Lists.{Member};
ghost use Rattle.dw_board.specs.Placement.{Placement};
ghost use Rattle.dw_certificate.specs.Certificate.{IsCertificate, claims};
ghost use Rattle.dw_certificate.specs.inner.Rows.{IsGrown, IsSupported, Knows, Suffices};

use crate::fault::CertificateFault;
use crate::positions::positions_after;
use dw_board::{Board, Position};
use dw_memo::Memo;
use dw_moves::legal::legal;
use dw_moves::play::play;
use dw_stipulation::MoveCount;
use indexmap::IndexMap;
use std::alloc::{AllocError, Global};

/// A certificate of an answer: there is a win within a number of moves, or there is none.
#[derive(Drop)]
pub struct Certificate<B: Board> {
    /// Whether it says that there is a win.
    pub win: bool,
    /// The positions, each with the number of moves within which it has a win, or has none: 1 to 20.
    pub rows: IndexMap<Position<B>, u8>,
}

/// Takes the certificate for a win within `moves` moves, or for no win, out of a memo. Its rows are the position, and
/// the positions reached by one winning move of each row and all replies to it; or by all moves of each row and one
/// reply to each. The error `Missing` means that the memo lacks a bound that is needed.
pub fn certify<B: Board, M: Memo<B>>(
    alloc: Global,
    memo: &mut M,
    position: &Position<B>,
    moves: MoveCount,
) -> Result<Certificate<B>, CertificateFault>
    ensures { IfOk result (λ certificate. IsCertificate B.geometry position.now moves.value certificate.win
        certificate.rows.entries) }
{
    let Some(win) = answer_of(memo, position, moves.value) else {
        return Err(CertificateFault::Missing);
    };
    let mut certificate = Certificate {
        win,
        rows: IndexMap::new(alloc),
    };
    certificate.put(memo, position, moves.value)?;
    let mut index = 0;
    'rows: while let Some(row) = certificate.row_at(index) {
        certificate.support(alloc, memo, &row.0, row.1)?;
        index += 1;
    }
    Ok(certificate)
}

/// Returns `true` if a memo states a win within `moves` moves, `false` if it states that there is none, and else
/// `None`.
fn answer_of<B: Board, M: Memo<B>>(
    memo: &mut M,
    position: &Position<B>,
    moves: u8,
) -> Option<bool> {
    memo.look(position)?.decide(moves)
}

/// Returns whether the fact for `bound` moves, a win or no win, implies the same fact for `moves` moves.
fn suffices(win: bool, bound: u8, moves: u8) -> bool
    ensures { IsTrue result ↔ Suffices win bound moves }
{
    if win { bound <= moves } else { moves <= bound }
}

/// Returns the bound for a row: the memo's own number for a win, else `moves`. It is `None` if the memo states too
/// little, or if the bound is 0.
fn bound_in<B: Board, M: Memo<B>>(
    memo: &mut M,
    win: bool,
    position: &Position<B>,
    moves: u8,
) -> Option<u8>
    ensures some { IfSome result (λ bound. 1 ≤ bound) }
    ensures few { IfSome result (λ bound. bound ≤ moves) }
    ensures enough { IfSome result (λ bound. Suffices win bound moves) }
{
    let bounds = memo.look(position)?;
    let bound = if win { bounds.wins? } else { bounds.fails? };
    if !suffices(win, bound, moves) {
        return None;
    }
    let least = bound.min(moves);
    if least == 0 { None } else { Some(least) }
}

impl<B: Board> Certificate<B> {
    /// Returns the row with this number, counted from 0.
    pub(crate) fn row_at(&self, index: usize) -> Option<(Position<B>, u8)>
        ensures row { result ≡ slice_get self.now.rows.entries index }
        ensures small { IfSome result (λ _. index < 2 ^ 63) }
    {
        self.keeps_its_length();
        let (position, bound) = self.rows.get_index(index)?;
        Some((*position, *bound))
    }

    /// States that there are fewer rows than 2^63. A law, which does nothing.
    fn keeps_its_length(&self)
        ensures { length self.now.rows.entries < 2 ^ 63 }
    {
        let _ = self.rows.len();
    }

    /// Adds the rows that a row needs.
    fn support<M: Memo<B>>(
        &mut self,
        alloc: Global,
        memo: &mut M,
        position: &Position<B>,
        bound: u8,
    ) -> Result<(), CertificateFault>
        requires { 1 ≤ bound }
        ensures same { self.new.win ≡ self.old.win }
        ensures supported { OnOk result (IsSupported B.geometry self.new.win position.now (bound - 1)
            self.old.rows.entries self.new.rows.entries) }
    {
        if self.win {
            self.support_win(alloc, memo, position, bound - 1)
        } else {
            self.support_no_win(alloc, memo, position, bound - 1)
        }
    }

    /// Adds the rows that a win needs: the positions after all replies to some move.
    fn support_win<M: Memo<B>>(
        &mut self,
        alloc: Global,
        memo: &mut M,
        position: &Position<B>,
        left: u8,
    ) -> Result<(), CertificateFault>
        requires { self.old.win ≡ true }
        ensures same { self.new.win ≡ self.old.win }
        ensures supported { OnOk result (IsSupported B.geometry true position.now left self.old.rows.entries
            self.new.rows.entries) }
    {
        let afters = positions_after(alloc, position)?;
        'moves: for after in afters.as_slice() {
            let nexts = positions_after(alloc, after)?;
            if self.has_all(memo, nexts.as_slice(), left) {
                return self.put_all(memo, nexts.as_slice(), left);
            }
        }
        Err(CertificateFault::Missing)
    }

    /// Adds the rows that a row of no win needs: after each move the position after some reply.
    fn support_no_win<M: Memo<B>>(
        &mut self,
        alloc: Global,
        memo: &mut M,
        position: &Position<B>,
        left: u8,
    ) -> Result<(), CertificateFault>
        requires { self.old.win ≡ false }
        ensures same { self.new.win ≡ self.old.win }
        ensures supported { OnOk result (IsSupported B.geometry false position.now left self.old.rows.entries
            self.new.rows.entries) }
    {
        let moves = legal(alloc, position)?;
        'moves: for mv in moves.as_slice() {
            let after = play(position, mv);
            let nexts = positions_after(alloc, &after)?;
            self.put_one(memo, nexts.as_slice(), left)?;
        }
        Ok(())
    }

    /// Returns whether all positions are rows already, or may become rows.
    fn has_all<M: Memo<B>>(&self, memo: &mut M, nexts: &[Position<B>], left: u8) -> bool {
        'nexts: for next in nexts {
            if !self.holds(next, left) && bound_in(memo, self.win, next, left).is_none() {
                return false;
            }
        }
        true
    }

    /// Adds all of some positions, unless they are rows already.
    fn put_all<M: Memo<B>>(
        &mut self,
        memo: &mut M,
        nexts: &[Position<B>],
        left: u8,
    ) -> Result<(), CertificateFault>
        ensures same { self.new.win ≡ self.old.win }
        ensures grown { OnOk result (IsGrown (λ q. Member q nexts.now) left self.old.rows.entries
            self.new.rows.entries) }
        ensures known { OnOk result ((q : Placement) → Member q nexts.now
            → Knows self.new.win (claims self.new.win self.new.rows.entries) q left) }
    {
        'nexts: for next in nexts {
            self.put(memo, next, left)?;
        }
        Ok(())
    }

    /// Adds one of some positions, or none if there is no move left to win within.
    fn put_one<M: Memo<B>>(
        &mut self,
        memo: &mut M,
        nexts: &[Position<B>],
        left: u8,
    ) -> Result<(), CertificateFault>
        ensures same { self.new.win ≡ self.old.win }
        ensures put { OnOk result ((q : Placement) × Member q nexts.now
            × IsGrown (λ z. z ≡ q) left self.old.rows.entries self.new.rows.entries
            × ((left ≡ 0) ⊎ Knows self.new.win (claims self.new.win self.new.rows.entries) q left)) }
    {
        match self.chosen(memo, nexts, left) {
            None => Err(CertificateFault::Missing),
            Some(_) if left == 0 => Ok(()),
            Some(next) => self.put(memo, &next, left),
        }
    }

    /// Returns the first position that is a row already, or else the first that may become one; any, if no move is left
    /// to win within.
    fn chosen<M: Memo<B>>(
        &self,
        memo: &mut M,
        nexts: &[Position<B>],
        left: u8,
    ) -> Option<Position<B>>
        ensures { IfSome result (λ q. Member q nexts.now) }
    {
        'nexts: for next in nexts {
            if left == 0 || self.holds(next, left) {
                return Some(*next);
            }
        }
        first_known(memo, self.win, nexts, left)
    }

    /// Returns whether a position is a row already, with a bound that suffices.
    fn holds(&self, position: &Position<B>, moves: u8) -> bool {
        match self.rows.get(position) {
            Some(bound) => suffices(self.win, *bound, moves),
            None => false,
        }
    }

    /// Adds a position, unless it is a row already with a bound that suffices.
    fn put<M: Memo<B>>(
        &mut self,
        memo: &mut M,
        position: &Position<B>,
        moves: u8,
    ) -> Result<(), CertificateFault>
        ensures same { self.new.win ≡ self.old.win }
        ensures grown { OnOk result (IsGrown (λ q. q ≡ position.now) moves self.old.rows.entries
            self.new.rows.entries) }
        ensures known { OnOk result (Knows self.new.win (claims self.new.win self.new.rows.entries) position.now
            moves) }
    {
        match self.rows.get(position) {
            Some(bound) if suffices(self.win, *bound, moves) => Ok(()),
            Some(_) => Err(CertificateFault::Missing),
            None => self.put_new(memo, position, moves),
        }
    }

    /// Adds a position, which must not be a row yet.
    fn put_new<M: Memo<B>>(
        &mut self,
        memo: &mut M,
        position: &Position<B>,
        moves: u8,
    ) -> Result<(), CertificateFault>
        requires { get same self.old.rows position.now ≡ None }
        ensures same { self.new.win ≡ self.old.win }
        ensures grown { OnOk result (IsGrown (λ q. q ≡ position.now) moves self.old.rows.entries
            self.new.rows.entries) }
        ensures known { OnOk result (Knows self.new.win (claims self.new.win self.new.rows.entries) position.now
            moves) }
    {
        let Some(bound) = bound_in(memo, self.win, position, moves) else {
            return Err(CertificateFault::Missing);
        };
        push_row(&mut self.rows, position, bound)?;
        Ok(())
    }
}

/// Appends a row for a position, which must have none.
fn push_row<B: Board>(
    rows: &mut IndexMap<Position<B>, u8>,
    position: &Position<B>,
    bound: u8,
) -> Result<(), AllocError>
    requires { get same rows.old position.now ≡ None }
    ensures { OnOk result (rows.new.entries ≡ rows.old.entries ++ (position.now, bound) ∷ []) }
{
    rows.insert(*position, bound)?;
    Ok(())
}

/// Returns the first of some positions for which a memo gives a bound.
fn first_known<B: Board, M: Memo<B>>(
    memo: &mut M,
    win: bool,
    nexts: &[Position<B>],
    left: u8,
) -> Option<Position<B>>
    ensures { IfSome result (λ q. Member q nexts.now) }
{
    'nexts: for next in nexts {
        if bound_in(memo, win, next, left).is_some() {
            return Some(*next);
        }
    }
    None
}
