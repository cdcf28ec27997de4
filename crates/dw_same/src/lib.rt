//! Problems that stand in a text for the second time, as they are or turned by 180 degrees with the colours exchanged.
//!
//! Everything is generic over the board. Begin with `ProblemIndex`, to which problems are added one after another. The
//! text of a repeat is made by `repeat_text`.
#![tactic(auto)]

pub mod index;
mod key;
pub mod laws;
pub mod text;

pub use index::{ProblemIndex, Repeat};
pub use text::{count_text, repeat_text};
