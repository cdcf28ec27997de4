//! The rows of JSON that `dw-desk` writes of a problem.
//!
//! Begin with `first_moves_row`, `solution_row` and `checked_row`, which make the lines of `moves`, `solution` and
//! `check`. `put_lines` writes the moves of a solution into a row of another kind.
#![tactic(auto)]

pub mod checked;
pub mod firsts;
pub mod solved;

pub use checked::{CheckNumbers, checked_row, refused_solution_row};
pub use firsts::first_moves_row;
pub use solved::{put_lines, solution_row};
