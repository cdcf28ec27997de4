//! The text of a certificate.
ghost use Rattle.std.specs.Prelude.{◌≡◌, ◌++◌, ◌∷◌, [], IfOk, codes, if◌then◌else◌};
ghost use Rattle.std.specs.String.{string_bytes};
ghost use Rattle.dw_memo.specs.Content.{entry};
ghost use Rattle.dw_certificate.specs.Certificate.{claims};
ghost use Rattle.dw_certificate.specs.Certificate as of;
ghost use Rattle.dw_certificate.specs.CertificateText as text;
ghost use Rattle.dw_certificate.specs.CertificateText.{lines_text, head_lines};

use crate::certificate::Certificate;
use dw_board::{Board, Position, fen_text};
use dw_memo::Bounds;
use itoa::Buffer;
use std::alloc::{AllocError, Global};

/// Returns the text of a certificate: `certificate 1`, the board, the position, the answer, and each row, in lines that
/// end with a line feed.
pub fn certificate_text<B: Board>(
    alloc: Global,
    position: &Position<B>,
    moves: u8,
    certificate: &Certificate<B>,
) -> Result<Vec<u8>, AllocError>
    ensures { IfOk result (λ bytes. bytes.items ≡ text.certificate_text B.geometry position.now moves
        certificate.now.win (claims certificate.now.win certificate.now.rows.entries)) }
{
    let head = head(alloc, position, moves, certificate.win)?;
    let mut text = Vec::from_slice(alloc, head.as_bytes())?;
    let mut index = 0;
    'rows: while let Some(row) = certificate.row_at(index) {
        let line = line_of(alloc, &row.0, bounds_of(certificate.win, row.1))?;
        text.extend_from_slice(line.as_bytes())?;
        index += 1;
    }
    Ok(text)
}

/// Returns the lines before the rows.
fn head<B: Board>(
    alloc: Global,
    position: &Position<B>,
    moves: u8,
    win: bool,
) -> Result<String, AllocError>
    ensures { IfOk result (λ head. string_bytes head ≡ lines_text (head_lines B.geometry position.now moves win)) }
{
    let mut rows = Buffer::new();
    let fen = fen_text(position);
    let mut digits = Buffer::new();
    [
        "certificate 1\nboard ",
        rows.format(B::ROWS),
        "\n",
        fen.as_str(),
        "\n",
        answer(win),
        digits.format(moves),
        "\n",
    ]
    .concat(alloc)
}

/// Returns the answer, before its number.
fn answer(win: bool) -> &'static str
    ensures { result.now ≡ (if win then codes "win in " else codes "no win in ") }
{
    if win { "win in " } else { "no win in " }
}

/// Returns the bounds that a row states.
fn bounds_of(win: bool, bound: u8) -> Bounds
    ensures { result ≡ of.bounds_of win bound }
{
    if win {
        Bounds {
            fails: None,
            wins: Some(bound),
        }
    } else {
        Bounds {
            fails: Some(bound),
            wins: None,
        }
    }
}

/// Returns the line of a position.
fn line_of<B: Board>(
    alloc: Global,
    position: &Position<B>,
    bounds: Bounds,
) -> Result<String, AllocError>
    ensures { IfOk result (λ line. string_bytes line ≡ text.entry_text B.geometry (entry position.now bounds)
        ++ 10 ∷ []) }
{
    let fen = fen_text(position);
    let mut fails = Buffer::new();
    let mut wins = Buffer::new();
    [
        fen.as_str(),
        " fails ",
        bound_text(bounds.fails, &mut fails),
        " wins ",
        bound_text(bounds.wins, &mut wins),
        "\n",
    ]
    .concat(alloc)
}

/// Returns the digits of a bound, or a dash if there is none.
fn bound_text(bound: Option<u8>, digits: &mut Buffer) -> &str
    ensures { result.now ≡ text.bound_text bound }
{
    match bound {
        None => "-",
        Some(bound) => digits.format(bound),
    }
}
