//! Verdicts and tries: whether a position is won within a number of moves, and whether the win is unique.
//!
//! Begin with `judge::verdict`, which returns the `Verdict` on a position, or with `judge::judge`, which returns its
//! tries too.
#![tactic(auto)]

mod dual;
pub mod judge;
mod keys;
pub mod laws;
pub mod tries;
pub mod verdict;

pub use verdict::{Judged, Verdict};
