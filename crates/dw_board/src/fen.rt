//! FEN texts of positions.

pub mod fault;
pub mod numbers;
pub mod read;
mod tokens;
pub mod write;
