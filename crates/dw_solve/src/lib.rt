//! Forced wins: in how many moves the side to move wins, whatever the other side replies.
//!
//! Begin with `Solver`, which needs a memo and a `Guide`, and with its calls `wins`, `loses` and `least`.
#![tactic(auto)]

pub mod guide;
mod history;
pub mod laws;
pub mod lineup;
mod ply;
mod replies;
mod search;
pub mod solver;
pub mod stop;
pub mod trial;
pub mod watcher;

pub use guide::{AnyOrder, ByTrial, Guide};
pub use lineup::Lineup;
pub use solver::Solver;
pub use stop::Stop;
pub use watcher::{Watched, Watcher};
