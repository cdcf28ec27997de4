//! The lines of a forced win, each once and in order.
//!
//! Begin with `Lister`, which gives one line at a time. `all_lines::all_lines` gives all at once. A token names a line.
#![tactic(auto)]

pub mod all_lines;
pub mod fault;
mod frame;
pub mod laws;
mod line_walk;
pub mod lister;
mod next_moves;
pub mod portions;
mod stack;
pub mod tokens;
mod walk;

pub use fault::AfterFault;
pub use lister::Lister;
pub use portions::{Portions, in_portions};
pub use tokens::{MAX_DIGITS, TokenFault, read_token, write_token};
