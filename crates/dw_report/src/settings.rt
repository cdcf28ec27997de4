//! The settings of a run, and its summary.
ghost use Rattle.std.specs.Prelude.{◌≡◌};
ghost use Rattle.dw_report.specs.Request.{number_is_chosen, number_is_asked, writes_rows};

use arrayvec::ArrayVec;
use dw_board::Board;
use dw_moves::Move;
use dw_notation::{Form, MAX_MOVES};
pub use dw_solve::Stop;
use thiserror::Error;

/// The kind of report on each problem.
#[derive(Clone, Copy, Debug, PartialEq, Eq)]
pub enum Command {
    /// The position, as a diagram.
    Show,
    /// The position, as a row of JSON.
    ShowRow,
    /// All legal moves in order, each with the position after it; then their number, and the number of pieces that each
    /// of them takes.
    Moves,
    /// The same of the moves, as a row of JSON.
    MovesRow,
    /// The verdict: whether there is a forced win, and how well; then the tries.
    Judge,
    /// The lines of the forced win in order, and whether there are more.
    List,
}

impl Command {
    /// Returns whether the command writes each problem as a row of JSON, with no first line before it.
    pub fn writes_rows(self) -> bool
        ensures { result ≡ writes_rows self }
    {
        match self {
            Command::ShowRow | Command::MovesRow => true,
            Command::Show | Command::Moves | Command::Judge | Command::List => false,
        }
    }
}

/// The settings of a run.
#[derive(Drop)]
pub struct Settings<B: Board> {
    pub command: Command,
    /// The form in which the text holds its problems.
    pub form: Form,
    /// The number of moves of the side to move within which it is to win, 1 to 20.
    pub n: u8,
    /// The number of the one problem to report, or all. Reading ends after that problem.
    pub only: Option<u32>,
    /// The most lines to list, at least 1.
    pub lines: u64,
    /// The line after which the list begins, or none: then it begins with the first line.
    pub after: Option<ArrayVec<Move<B>, MAX_MOVES>>,
    /// The number of positions that may be expanded in the whole run, at least 1.
    pub limit: u64,
}

impl<B: Board> Settings<B> {
    /// Returns whether the problem of this number is reported.
    pub fn chooses(&self, number: u32) -> bool
        ensures { result ≡ number_is_chosen self.now.only number }
    {
        match self.only {
            None => true,
            Some(only) => number == only,
        }
    }

    /// Returns whether the problem of this number is the only one that is requested, after which reading ends.
    pub fn asks_for(&self, number: u32) -> bool
        ensures { result ≡ number_is_asked self.now.only number }
    {
        match self.only {
            None => false,
            Some(only) => number == only,
        }
    }
}

/// The counts of a run.
#[derive(Clone, Copy, Debug, Default, PartialEq, Eq)]
pub struct Summary {
    /// Problems read, 0 to 1,000,001.
    pub problems: u32,
    /// Problems reported.
    pub shown: u32,
    /// Refusals among those reported: of the problem, or of the line after which its lines were asked for.
    pub refused: u32,
}

/// Why a run ended before its report was whole.
#[derive(Clone, Copy, Debug, PartialEq, Eq, Error)]
pub enum RunFault {
    /// It was stopped, after this many positions were expanded.
    #[error("stopped: {why}, {expanded} expanded")]
    Stopped { why: Stop, expanded: u64 },
    /// The source failed.
    #[error("read failed")]
    Read,
    /// The sink failed.
    #[error("write failed")]
    Write,
}
