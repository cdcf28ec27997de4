//! The row of the remarks on an author's solution.
ghost use Rattle.std.specs.Prelude.{◌≡◌, ◌∷◌, [], ℕ, List, Some, codes, map, IfOk, IfSome, IsSome, OnOk, option_map};
ghost use Rattle.std.specs.String.{string_bytes};
ghost use Rattle.dw_board.specs.Lists.{Member as Has};
ghost use Rattle.dw_json.specs.Rows.{AreObjects, Member};
ghost use Rattle.dw_json.specs.Writing.{WritesMembers};
ghost use Rattle.dw_rows.specs.CheckRow.{IsCheckedRow, IsRemarkObject, kind_word, refused_solution_row, word_members};
ghost use Rattle.dw_rows.specs.CheckRow.{refutation_members, wins_in_members};
ghost use Rattle.dw_rows.specs.inner.Remarking.{members_told};
ghost use Rattle.dw_study.specs.RemarkText.{HasTexts};
ghost use Rattle.dw_study.specs.Remarks.{Remark as AnyRemark};
ghost use Rattle.dw_study.specs.Telling.{remark_in, texts_in};

use dw_board::{Board, Position, fen_text};
use dw_games::{MovetextFaultKind, Tree};
use dw_json::{
    PutObject, begin_row, end_row, put_flag, put_number, put_objects, put_text, put_texts,
};
use dw_study::{Remark, RemarkFields, remark_fields};
use itoa::Buffer;
use json::Writer;
use std::alloc::{AllocError, Global};

/// The numbers that `check` writes of a solution.
#[derive(Clone, Copy)]
pub struct CheckNumbers {
    /// Whether there is a win within the number of moves.
    pub wins: bool,
    /// Whether the solution holds.
    pub holds: bool,
    /// The number of moves that fail.
    pub fail: u64,
    /// The number of ends that come too soon.
    pub end: u64,
    /// The number of places at which replies are left open.
    pub open: u64,
    /// The number of places at which keys are left out.
    pub also: u64,
}

/// Makes the row of a solution: its numbers, and the remarks on it, in order. Returns `None` if a remark names a move
/// that is not legal in its place, or if its place is not in the tree.
pub fn checked_row<B: Board>(
    alloc: Global,
    number: u32,
    moves: u8,
    numbers: CheckNumbers,
    tree: &Tree<B>,
    remarks: &[Remark<B>],
) -> Result<Option<String>, AllocError>
    ensures row { (said : List AnyRemark) → map (remark_in tree.now.paths) remarks.now ≡ map (λ r. Some r) said
        → IfOk result (λ made. IfSome made (λ line. IsCheckedRow B.geometry number tree.now.start moves numbers said
        (string_bytes line))) }
    ensures some { (said : List AnyRemark) → map (remark_in tree.now.paths) remarks.now ≡ map (λ r. Some r) said
        → ((r : AnyRemark) → Has r said → HasTexts B.geometry tree.now.start r)
        → IfOk result (λ made. IsSome made) }
{
    match remark_rows(alloc, tree, remarks)? {
        Some(told) => {
            let line = remarks_row(
                alloc,
                number,
                &tree.start(),
                moves,
                numbers,
                told.as_slice(),
            )?;
            Ok(Some(line))
        }
        None => Ok(None),
    }
}

/// Makes the row of a solution with remarks in words.
fn remarks_row<B: Board>(
    alloc: Global,
    number: u32,
    position: &Position<B>,
    moves: u8,
    numbers: CheckNumbers,
    remarks: &[RemarkRow],
) -> Result<String, AllocError>
    ensures { (said : List AnyRemark)
        → AreObjects (IsRemarkObject B.geometry position.now) said (map members_told remarks.now)
        → IfOk result (λ line. IsCheckedRow B.geometry number position.now moves numbers said (string_bytes line)) }
{
    let mut row = begin_row(alloc)?;
    put_number(&mut row, "problem", number.into())?;
    put_text(&mut row, "fen", fen_text(position).as_str())?;
    put_number(&mut row, "n", moves.into())?;
    put_flag(&mut row, "win", numbers.wins)?;
    put_flag(&mut row, "holds", numbers.holds)?;
    put_number(&mut row, "fail", numbers.fail)?;
    put_number(&mut row, "end", numbers.end)?;
    put_number(&mut row, "open", numbers.open)?;
    put_number(&mut row, "also", numbers.also)?;
    put_objects(&mut row, "remarks", remarks, &PutRemarks {})?;
    end_row(row)
}

/// A remark in words.
#[derive(Drop)]
struct RemarkRow {
    kind: &'static str,
    words: RemarkFields,
}

/// Puts the remarks on a tree in words. Returns `None` if one of them names a move that is not legal in its place, or
/// if its place is not in the tree.
fn remark_rows<B: Board>(
    alloc: Global,
    tree: &Tree<B>,
    remarks: &[Remark<B>],
) -> Result<Option<Vec<RemarkRow>>, AllocError>
    ensures told { (said : List AnyRemark) → map (remark_in tree.now.paths) remarks.now ≡ map (λ r. Some r) said
        → IfOk result (λ made. IfSome made (λ told. AreObjects (IsRemarkObject B.geometry tree.now.start) said
        (map members_told told.items))) }
    ensures some { (said : List AnyRemark) → map (remark_in tree.now.paths) remarks.now ≡ map (λ r. Some r) said
        → ((r : AnyRemark) → Has r said → HasTexts B.geometry tree.now.start r)
        → IfOk result (λ made. IsSome made) }
{
    let mut told = Vec::new(alloc);
    'remarks: for remark in remarks {
        match remark_fields(alloc, tree, remark)? {
            Some(words) => {
                let kind = kind_of(remark);
                told.push(RemarkRow { kind, words })?;
            }
            None => return Ok(None),
        }
    }
    Ok(Some(told))
}

/// Makes the row of a solution that is refused.
pub fn refused_solution_row<B: Board>(
    alloc: Global,
    number: u32,
    position: &Position<B>,
    what: MovetextFaultKind,
    place: u32,
) -> Result<String, AllocError>
    ensures { IfOk result (λ line. string_bytes line
        ≡ refused_solution_row B.geometry number position.now what place) }
{
    let mut digits = Buffer::new();
    let mut places = Buffer::new();
    let why = [
        digits.format(what.number()),
        " ",
        what.name(),
        " at ",
        places.format(place),
    ]
    .concat(alloc)?;
    let mut row = begin_row(alloc)?;
    put_number(&mut row, "problem", number.into())?;
    put_text(&mut row, "fen", fen_text(position).as_str())?;
    put_text(&mut row, "solution_refused", why.as_str())?;
    end_row(row)
}

/// Remarks in words, as objects.
#[derive(Clone, Copy)]
struct PutRemarks {}

impl PutObject<RemarkRow> for PutRemarks {
    ghost asks = { λ it one. Unit {0} };

    ghost says = { λ it one members. members ≡ members_told one };

    fn put(&self, row: &mut Writer, item: &RemarkRow) -> Result<(), AllocError> {
        put_fields(row, item.kind, &item.words)
    }
}

/// Returns the word for a kind of remark.
fn kind_of<B: Board>(remark: &Remark<B>) -> &'static str
    ensures { (tree : List (List _)) (r : AnyRemark) → remark_in tree remark.now ≡ Some r → result.now ≡ kind_word r }
{
    match remark {
        Remark::Fails { .. } => "fails",
        Remark::Also { .. } => "also",
        Remark::Open { .. } => "open",
        Remark::Ends { .. } => "ends",
    }
}

/// Writes the members of a remark of this kind.
fn put_fields(row: &mut Writer, kind: &str, words: &RemarkFields) -> Result<(), AllocError>
    ensures { OnOk result (WritesMembers (word_members kind.now (texts_in words.now)) row.old row.new) }
{
    put_text(row, "kind", kind)?;
    put_text(row, "line", words.line.as_str())?;
    put_texts(row, "moves", words.moves.as_slice())?;
    put_refutation(row, &words.refutation)?;
    put_wins_in(row, words.wins_in)
}

/// Writes the reply that refutes, if there is one.
fn put_refutation(row: &mut Writer, refutation: &Option<String>) -> Result<(), AllocError>
    ensures { OnOk result (WritesMembers (refutation_members (option_map string_bytes refutation.now)) row.old
        row.new) }
{
    match refutation {
        Some(reply) => put_text(row, "refutation", reply.as_str()),
        None => Ok(()),
    }
}

/// Writes the number of moves within which the attacker wins after an end, if there is one.
fn put_wins_in(row: &mut Writer, wins_in: Option<u8>) -> Result<(), AllocError>
    ensures { OnOk result (WritesMembers (wins_in_members wins_in) row.old row.new) }
{
    match wins_in {
        Some(moves) => put_number(row, "wins_in", moves.into()),
        None => Ok(()),
    }
}
