//! The texts of later wins.
ghost use Rattle.std.specs.Prelude.{◌≡◌, ℕ, map, IfOk};
ghost use Rattle.std.specs.String.{string_bytes};
ghost use Rattle.dw_first_moves.specs.Later.{AreLater};
ghost use Rattle.dw_first_moves.specs.LaterText.{AreLaterTexts};
ghost use Rattle.dw_first_moves.specs.LaterText as of_text;

use dw_board::{Board, Position};
use dw_moves::Move;
use dw_notation::text_in;
use itoa::Buffer;
use std::alloc::{AllocError, Global};

/// Returns the text of each move that wins later, beside its number of moves. These must be all later wins of the
/// position between some numbers of moves.
pub fn later_texts<B: Board>(
    alloc: Global,
    position: &Position<B>,
    later: &[(Move<B>, u8)],
) -> Result<Vec<(String, u8)>, AllocError>
    requires { (n : ℕ) × (most : ℕ) × AreLater B.geometry position.now n most later.now }
    ensures { IfOk result (λ texts. AreLaterTexts B.geometry position.now later.now
        (map (λ pair. (string_bytes pair.0, pair.1)) texts.items)) }
{
    let mut texts = Vec::new(alloc);
    'later: for one in later {
        let text = text_in(alloc, position, &one.0)?;
        texts.push((String::from_str(alloc, text.as_str())?, one.1))?;
    }
    Ok(texts)
}

/// Writes a line for each later win, by its text and its number of moves.
pub fn later_lines(alloc: Global, texts: &[(String, u8)]) -> Result<String, AllocError>
    ensures { IfOk result (λ lines. string_bytes lines
        ≡ of_text.later_lines (map (λ pair. (string_bytes pair.0, pair.1)) texts.now)) }
{
    let mut lines = String::new(alloc);
    'texts: for one in texts {
        let line = later_line(alloc, one.0.as_str(), one.1)?;
        lines.push_str(line.as_str())?;
    }
    Ok(lines)
}

/// Writes the line of a later win.
fn later_line(alloc: Global, mv: &str, moves: u8) -> Result<String, AllocError>
    ensures { IfOk result (λ line. string_bytes line ≡ of_text.later_line (mv.now, moves)) }
{
    ["later ", mv, " in ", Buffer::new().format(moves), "\n"].concat(alloc)
}
