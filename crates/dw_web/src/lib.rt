//! Both programs as one call over bytes, for a page in a browser.
//!
//! `dw_web_run` takes the arguments and the standard input of a program, and returns its output and its exit status.
#![tactic(auto)]

pub mod call;
mod desk;
pub mod ended;
mod programs;
mod report;
mod room;
mod said;
pub mod words;

pub use call::dw_web_run;
pub use ended::{Ended, Reason};
