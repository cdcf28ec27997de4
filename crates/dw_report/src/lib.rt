//! The report on the problems of a source.
//!
//! Begin with `run::run` and its `Settings`. `judge::judge` returns the `Verdict` on one position. Verdicts come from
//! `dw_verdict`, and sources, sinks and problems from `dw_notation`; they are offered here under the same names.
#![tactic(auto)]

mod json_rows;
mod judged;
pub mod laws;
mod listing;
mod move_texts;
mod problem;
pub mod run;
pub mod settings;
mod text;

pub use dw_notation::{problems, streams};
pub use dw_verdict::{Judged, Verdict, judge, verdict};
pub use json_rows::refused_line;
pub use judged::judged_text;
pub use move_texts::{dual_texts, each_move_text, joined_text, key_texts, try_texts};
pub use settings::{Command, RunFault, Settings, Stop, Summary};
pub use text::{problem_line, refusal_text};
