//! The text of a finding.
ghost use Rattle.std.specs.Prelude.{◌≡◌, ℕ, Bool, IfOk};
ghost use Rattle.std.specs.String.{string_bytes};
ghost use Rattle.dw_study.specs.Finding.{IsFinding};
ghost use Rattle.dw_study.specs.FoundText.{IsFoundText};
ghost use Rattle.dw_study.specs.Telling.{told_by};

use crate::finding::Finding;
use dw_board::{Board, Position};
use dw_report::judged_text;
use itoa::Buffer;
use std::alloc::{AllocError, Global};

/// Returns the text of a `Finding`: the verdict and the tries as in a report, or the greatest number of moves known to
/// have no win.
pub fn found_text<B: Board>(
    alloc: Global,
    position: &Position<B>,
    finding: &Finding<B>,
) -> Result<String, AllocError>
    requires { (is_least : Bool) × (moves : ℕ)
        × IsFinding B.geometry position.now is_least moves (told_by finding.now) }
    ensures { IfOk result (λ text. IsFoundText B.geometry position.now (told_by finding.now) (string_bytes text)) }
{
    match finding {
        Finding::Judged { moves, judged } => judged_text(alloc, position, moves.value, judged),
        Finding::Undecided { no_win_in } => [
            "undecided, no win in ",
            Buffer::new().format(*no_win_in),
            "\n",
        ]
        .concat(alloc),
    }
}
