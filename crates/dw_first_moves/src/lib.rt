//! The effects of the first moves of a position: the least number of moves within which each wins, or the replies that
//! refute it.
//!
//! Begin with `first_moves`, which returns the `FirstMoves` of a part: each legal move with its effect. Their text is
//! that of `first_moves_text`.
#![tactic(auto)]

mod effects;
pub mod first_move;
pub mod first_moves;
pub mod later;
pub mod later_text;
pub mod laws;
pub mod text;

pub use first_move::{Effect, FirstMove, FirstMoves};
pub use later::{LaterBounds, later_wins};
pub use later_text::{later_lines, later_texts};
pub use text::first_moves_text;
