//! The work of the programs between their arguments and their exit status: the parts that both share, and all of `dw`.
//!
//! Begin with `Job::new`, which prepares a request, `Job::run`, which writes its report over any source and sink, and
//! `outcome`, which returns the exit status. This crate knows no operating system.
#![tactic(auto)]

pub mod ending;
pub mod memo;
pub mod report;

pub use ending::{Ending, Exit, Message, end_unread, outcome};
pub use memo::{LeakedMemo, memo_of};
pub use report::Job;
