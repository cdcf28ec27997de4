//! The texts of remarks on an author's solution.
ghost use Rattle.std.specs.Prelude.{◌≡◌, Some, List, IfOk, IfSome, IsSome};
ghost use Rattle.std.specs.String.{string_bytes};
ghost use Rattle.dw_moves.specs.Moves as of;
ghost use Rattle.dw_study.specs.RemarkText.{IsRemarkText, HasTexts, behind_blank, missing_text};
ghost use Rattle.dw_study.specs.RemarkFields.{AreRemarkFields};
ghost use Rattle.dw_study.specs.Telling.{remark_in, texts_in};

use crate::fields::{RemarkFields, remark_fields};
use crate::remark::Remark;
use dw_board::Board;
use dw_games::Tree;
use itoa::Buffer;
use std::alloc::{AllocError, Global};

/// Returns the text of a remark that `check` made on a tree. It is `None` if the tree has no such node, or if a move of
/// the remark is not legal there.
pub fn remark_text<B: Board>(
    alloc: Global,
    tree: &Tree<B>,
    remark: &Remark<B>,
) -> Result<Option<String>, AllocError>
    ensures text { (r : _) → remark_in tree.now.paths remark.now ≡ Some r
        → IfOk result (λ made. IfSome made (λ text. IsRemarkText B.geometry tree.now.start r (string_bytes text))) }
    ensures some { (r : _) → remark_in tree.now.paths remark.now ≡ Some r → HasTexts B.geometry tree.now.start r
        → IfOk result (λ made. IsSome made) }
{
    match remark_fields(alloc, tree, remark)? {
        Some(words) => {
            let text = text_of(alloc, remark, &words)?;
            Ok(Some(text))
        }
        None => Ok(None),
    }
}

/// Returns the text of a remark, given its parts.
fn text_of<B: Board>(
    alloc: Global,
    remark: &Remark<B>,
    words: &RemarkFields,
) -> Result<String, AllocError>
    ensures { (tree : List (List of.Move)) (p : _) (r : _) → remark_in tree remark.now ≡ Some r
        → AreRemarkFields B.geometry p r (texts_in words.now)
        → IfOk result (λ text. IsRemarkText B.geometry p r (string_bytes text)) }
{
    let begun = with_blank(alloc, words.line.as_str())?;
    let begun = begun.as_str();
    let moves = words.moves.as_slice();
    let mut digits = Buffer::new();
    let turn = digits.format(words.turn);
    match remark {
        Remark::Fails { .. } => {
            let moved = moves.join(alloc, ", ")?;
            let reply = refutation(words);
            let parts = [
                "fails",
                begun,
                " ",
                turn,
                ". ",
                moved.as_str(),
                " refuted by ",
                reply,
                "\n",
            ];
            parts.concat(alloc)
        }
        Remark::Also { .. } => {
            let keys = moves.join(alloc, " / ")?;
            ["also", begun, " ", turn, ". ", keys.as_str(), "\n"].concat(alloc)
        }
        Remark::Open { .. } => {
            let replies = moves.join(alloc, ", ")?;
            ["open", begun, ": ", replies.as_str(), "\n"].concat(alloc)
        }
        Remark::Ends { .. } => {
            let missing = missing_text(alloc, words.wins_in)?;
            ["ends", begun, missing.as_str(), "\n"].concat(alloc)
        }
    }
}

/// Returns the text of the reply that refutes, or nothing, if there is none.
fn refutation(words: &RemarkFields) -> &str
    ensures { (reply : _) → (texts_in words.now).refutation ≡ Some reply → result.now ≡ reply }
{
    match &words.refutation {
        Some(reply) => reply.as_str(),
        None => "",
    }
}

/// Returns the text of how much is missing after an end, or nothing, if there is no win.
fn missing_text(alloc: Global, wins_in: Option<u8>) -> Result<String, AllocError>
    ensures { IfOk result (λ made. string_bytes made ≡ missing_text wins_in) }
{
    match wins_in {
        Some(moves) => [": wins in ", Buffer::new().format(moves)].concat(alloc),
        None => Ok(String::new(alloc)),
    }
}

/// Returns a text with a blank before it, or nothing, if it is empty.
fn with_blank(alloc: Global, text: &str) -> Result<String, AllocError>
    ensures { IfOk result (λ made. string_bytes made ≡ behind_blank text.now) }
{
    if text.is_empty() {
        return Ok(String::new(alloc));
    }
    [" ", text].concat(alloc)
}
