//! The command lines of `dw` and of `dw-desk`: their commands, their options, and their requests.
//!
//! Begin with `ReportArgs::parse` and `DeskArgs::parse`, which parse the arguments of a command line. This crate knows
//! no operating system: arguments come as a list, and an error goes out as a `CliError`.
#![tactic(auto)]

pub mod certify;
pub mod check;
pub mod choices;
pub mod desk;
pub mod desk_commands;
mod desk_options;
pub mod error;
pub mod find;
pub mod mend;
pub mod moves;
pub mod options;
pub mod page;
mod part;
pub mod portion;
pub mod report;
pub mod same;
pub mod solution;
mod token;

pub use certify::CertifyArgs;
pub use check::CheckArgs;
pub use choices::{BoardSize, MemoKind, PageLanguage, PageTries, Placing};
pub use desk::{DeskArgs, Task};
pub use desk_options::USUAL_LINES;
pub use error::CliError;
pub use find::FindArgs;
pub use mend::MendArgs;
pub use moves::MovesArgs;
pub use page::PageArgs;
pub use portion::Portion;
pub use report::{ReportArgs, ReportCommand};
pub use same::SameArgs;
pub use solution::SolutionArgs;
