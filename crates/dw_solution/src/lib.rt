//! The solution of a problem as a movetext: the first lines of a forced win as a tree, and the text of that tree.
//! Reading the text again gives the same tree.
//!
//! Everything is generic over the board. The tree and its text take memory.
//!
//! Begin with `first_lines`, which makes the tree. `movetext::movetext` writes it, `write_styled` does so in any style,
//! and `placed_moves` lists its moves.
#![tactic(auto)]

mod fill;
pub mod first;
pub mod heading;
pub mod laws;
pub mod line_tree;
pub mod listed;
pub mod movetext;
pub mod placed;
mod step;
pub mod style;
pub mod writer;

pub use first::first_lines;
pub use heading::{Heading, VerdictKind};
pub use line_tree::LineTree;
pub use listed::FirstLines;
pub use movetext::{MAX_WRITTEN, SolutionText};
pub use placed::{PlacedMove, placed_moves};
pub use style::{Mark, MovetextStyle};
pub use writer::write_styled;
