//! Boards, squares and positions of draughts, their FEN texts and their diagrams.
//!
//! Everything is generic over the board, and nothing allocates. Begin with `Position`, and with `read_fen`, which
//! parses one.
#![tactic(auto)]

pub mod board;
pub mod diagram;
pub mod fen;
mod held;
pub mod laws;
pub mod packed;
pub mod piece;
pub mod position;
mod sliding;
pub mod square;
pub mod squares;

pub use board::{Board, Dir, Eight, Ten};
pub use fen::fault::{FenFault, FenFaultKind};
pub use fen::read::{MAX_FEN, read_fen};
pub use fen::write::{FEN_ROOM, fen_text};
pub use packed::Packed;
pub use piece::{Kind, Piece, PutFault, Side};
pub use position::Position;
pub use square::{Square, step};
pub use squares::Squares;
