//! The games of a PDN text, their tags, and the author's solution in each: its moves and variations as a tree.
//!
//! Everything but tags is generic over the board. Tags, movetexts, trees, and `read_move` of `dw_notation` allocate.
//!
//! Begin with `Games`, which reads the games of a `Source`, with `read_tags`, and with `read_movetext`, which returns a
//! `Tree`.
#![tactic(auto)]

mod bounded_buf;
mod branches;
mod class;
pub mod fault;
pub mod games;
pub mod laws;
pub mod line;
pub mod movetext;
mod play;
mod reader;
mod section;
mod signs;
pub mod tags;
pub mod tokens;
pub mod tree;

pub use fault::{LineFault, LineFaultKind, MovetextFault, MovetextFaultKind};
pub use games::{Game, GameFault, Games};
pub use line::read_line;
pub use movetext::{MAX_MOVETEXT, MAX_OPEN, MAX_PATH, read_movetext};
pub use tags::{Tag, read_tags, value_named};
pub use tree::{Node, Tree};
