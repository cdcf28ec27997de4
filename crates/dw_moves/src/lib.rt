//! The moves of international draughts: quiet moves, captures, legal moves, and the position after a move.
//!
//! Begin with `legal::legal`, which lists the legal moves, and `play::play`. `listed::listed` lists them in order.
#![tactic(auto)]

pub mod best;
mod field;
pub mod follow;
pub mod glance;
mod keeper;
pub mod laws;
pub mod legal;
pub mod listed;
mod mover;
pub mod moves;
pub mod play;
pub mod quiet;
pub mod replies;
mod seeker;
pub mod shared;
mod walk;

pub use glance::{can_capture, count_if_quiet, has_move, other_steps};
pub use legal::{is_legal, legal_into};
pub use listed::listed_into;
pub use moves::{LONGEST_PATH, Listed, Move, same_move};
pub use quiet::quiet_count;
pub use replies::{has_sure_reply, sure_step};
pub use shared::shares_ends;
