//! The commands of `dw-desk`, between its arguments and its exit status.
//!
//! Begin with `run_on`, which runs a command over any source and sink. This crate knows no operating system.
#![tactic(auto)]

mod certify;
mod check;
mod chosen;
pub mod desk;
mod find;
mod json_rows;
mod mend;
mod moves;
mod page;
mod page_rows;
mod reporting;
mod same;
mod solution;
mod token;

pub use desk::{Counts, run_on};
