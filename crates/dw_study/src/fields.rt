//! The parts of the text of a remark, one by one.
ghost use Rattle.std.specs.Prelude.{◌≡◌, ◌↔◌, [], Some, None, true, List, IfOk, IfSome, IsSome};
ghost use Rattle.dw_board.specs.Lists.{Member};
ghost use Rattle.dw_moves.specs.Moves.{Legal};
ghost use Rattle.dw_moves.specs.Moves as of;
ghost use Rattle.dw_study.specs.RemarkText.{HasTexts};
ghost use Rattle.dw_study.specs.RemarkFields.{AreRemarkFields, AreFieldsFor};
ghost use Rattle.dw_study.specs.Remarks.{fails, also};
ghost use Rattle.dw_study.specs.Telling.{remark_in, texts_in};
ghost use Rattle.dw_study.specs.inner.Beginnings.{IsBegun};

use crate::beginning::{Beginning, beginning_of};
use crate::remark::Remark;
use dw_board::{Board, Position};
use dw_games::Tree;
use dw_moves::play::play;
use dw_moves::{Move, is_legal};
use dw_notation::text_in;
use dw_report::each_move_text;
use std::alloc::{AllocError, Global};

/// The texts of a remark.
#[derive(Drop)]
pub struct RemarkFields {
    /// The beginning that it is on, as a line; empty, if that has no move.
    pub line: String,
    /// The number of the attacker's turn that follows the beginning, from 1 on.
    pub turn: usize,
    /// The move that fails, or the moves that are missing; none, if the solution ends there.
    pub moves: Vec<String>,
    /// The reply that refutes a move that fails.
    pub refutation: Option<String>,
    /// The least number of moves within which the attacker wins, if the solution ends there.
    pub wins_in: Option<u8>,
}

/// Returns the parts of the text of a remark that `check` made on a tree. It is `None` if the tree has no such node, or
/// if a move of the remark is not legal there.
pub fn remark_fields<B: Board>(
    alloc: Global,
    tree: &Tree<B>,
    remark: &Remark<B>,
) -> Result<Option<RemarkFields>, AllocError>
    ensures words { (r : _) → remark_in tree.now.paths remark.now ≡ Some r
        → IfOk result (λ made. IfSome made (λ words. AreRemarkFields B.geometry tree.now.start r (texts_in words))) }
    ensures some { (r : _) → remark_in tree.now.paths remark.now ≡ Some r → HasTexts B.geometry tree.now.start r
        → IfOk result (λ made. IsSome made) }
{
    match remark {
        Remark::Fails { at, mv, reply } => match beginning_of(alloc, tree, *at)? {
            Some(beginning) => failure_fields(alloc, &beginning, mv, reply),
            None => Ok(None),
        },
        Remark::Also { at, keys } => match beginning_of(alloc, tree, *at)? {
            Some(beginning) => moves_fields(alloc, &beginning, keys.as_slice()),
            None => Ok(None),
        },
        Remark::Open { at, replies } => match beginning_of(alloc, tree, *at)? {
            Some(beginning) => moves_fields(alloc, &beginning, replies.as_slice()),
            None => Ok(None),
        },
        Remark::Ends { at, wins_in } => match beginning_of(alloc, tree, *at)? {
            Some(beginning) => end_fields(alloc, &beginning, *wins_in),
            None => Ok(None),
        },
    }
}

/// Returns the texts of a move that fails.
fn failure_fields<B: Board>(
    alloc: Global,
    beginning: &Beginning<B>,
    mv: &Move<B>,
    reply: &Move<B>,
) -> Result<Option<RemarkFields>, AllocError>
    ensures words { (p : _) (b : List of.Move) → IsBegun B.geometry p b beginning.now
        → IfOk result (λ made. IfSome made (λ words. AreRemarkFields B.geometry p (fails b mv.now reply.now)
        (texts_in words))) }
    ensures some { (p : _) (b : List of.Move) → IsBegun B.geometry p b beginning.now
        → HasTexts B.geometry p (fails b mv.now reply.now) → IfOk result (λ made. IsSome made) }
{
    if !is_legal(&beginning.position, mv) {
        return Ok(None);
    }
    let after = play(&beginning.position, mv);
    if !is_legal(&after, reply) {
        return Ok(None);
    }
    let first = text_in(alloc, &beginning.position, mv)?;
    let second = text_in(alloc, &after, reply)?;
    let mut moves = Vec::new(alloc);
    moves.push(String::from_str(alloc, first.as_str())?)?;
    Ok(Some(RemarkFields {
        line: String::from_str(alloc, beginning.line.as_str())?,
        turn: beginning.turn(),
        moves,
        refutation: Some(String::from_str(alloc, second.as_str())?),
        wins_in: None,
    }))
}

/// Returns the texts of moves that are missing.
fn moves_fields<B: Board>(
    alloc: Global,
    beginning: &Beginning<B>,
    moves: &[Move<B>],
) -> Result<Option<RemarkFields>, AllocError>
    ensures words { (p : _) (b : List of.Move) → IsBegun B.geometry p b beginning.now
        → IfOk result (λ made. IfSome made (λ words. AreFieldsFor B.geometry p b moves.now None (texts_in words))) }
    ensures some { (p : _) (b : List of.Move) → IsBegun B.geometry p b beginning.now
        → HasTexts B.geometry p (also b moves.now) → IfOk result (λ made. IsSome made) }
{
    if !are_legal(&beginning.position, moves) {
        return Ok(None);
    }
    Ok(Some(RemarkFields {
        line: String::from_str(alloc, beginning.line.as_str())?,
        turn: beginning.turn(),
        moves: each_move_text(alloc, &beginning.position, moves)?,
        refutation: None,
        wins_in: None,
    }))
}

/// Returns the texts of an end.
fn end_fields<B: Board>(
    alloc: Global,
    beginning: &Beginning<B>,
    wins_in: Option<u8>,
) -> Result<Option<RemarkFields>, AllocError>
    ensures words { (p : _) (b : List of.Move) → IsBegun B.geometry p b beginning.now
        → IfOk result (λ made. IfSome made (λ words. AreFieldsFor B.geometry p b [] wins_in (texts_in words))) }
    ensures some { IfOk result (λ made. IsSome made) }
{
    Ok(Some(RemarkFields {
        line: String::from_str(alloc, beginning.line.as_str())?,
        turn: beginning.turn(),
        moves: Vec::new(alloc),
        refutation: None,
        wins_in,
    }))
}

/// Returns whether all moves are legal at a position.
fn are_legal<B: Board>(position: &Position<B>, moves: &[Move<B>]) -> bool
    ensures { (result ≡ true) ↔ ((m : of.Move) → Member m moves.now → Legal B.geometry position.now m) }
{
    'moves: for mv in moves {
        if !is_legal(position, mv) {
            return false;
        }
    }
    true
}
